use event_log::item::Item;

/// An item, and the node that it stands in.
#[derive(Clone, Copy, PartialEq, Eq, Debug)]
pub struct Entry {
    pub item: Item,
    /// The number of the enter around the item, counted among all items from 1, or 0 outside of every node.
    /// No `Option`, which would take half as much again of the fixed memory that is lent: 24 bytes in place of 16.
    pub node: usize,
}

impl Entry {
    /// What memory for a table may hold before it is used.
    pub const NONE: Entry = Entry {
        item: Item::Leave,
        node: 0,
    };
}
