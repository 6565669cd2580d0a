//! A node table: what a sink was told, each item with the node that it stands in.

ghost use Rattle.std.specs.Prelude.{◌≡◌, [], ◌∷◌, ◌++◌, length};
ghost use Rattle.sinks.specs.Lent.{stored};
ghost use Rattle.sinks.specs.Nodes.{items_in, nodes_in, around, open_after, innermost};

pub mod entry;
#[cfg(test)]
mod tests;

use crate::lent::LentVec;
use crate::sink::{Full, Sink};
pub use entry::Entry;
use event_log::item::Item;

/// Entries in lent memory, one after the other from its first on.
#[derive(Drop)]
pub struct NodeTable<'a> {
    entries: LentVec<'a, Entry>,
    /// the enter that the next item stands in, by its number, or 0: what goes into its entry
    node: usize,
    ghost kept: { nodes_in (stored entries) ≡ around (items_in (stored entries)) },
    ghost inside: { node ≡ innermost (open_after (items_in (stored entries))) },
}

impl<'a> NodeTable<'a> {
    ghost use Rattle.sinks.specs.Table.{items_of, room_of};

    /// Empty, over memory that stays as it is.
    pub fn new(memory: &'a mut [Entry]) -> NodeTable<'a>
        ensures items { items_of result ≡ [] }
        ensures room { room_of result ≡ length memory.old }
        ensures kept { result.entries.memory.now ≡ memory.old }
    {
        NodeTable {
            entries: LentVec::new(memory),
            node: 0,
        }
    }

    /// Every item that it was told, in order, with the node that it stands in.
    pub fn entries(&self) -> &[Entry]
        ensures items { items_in result.now ≡ items_of self.now }
        ensures nodes { nodes_in result.now ≡ around (items_of self.now) }
    {
        self.entries.as_slice()
    }

    /// The node that what follows this item stands in. The enter that a leave closes is at hand, and its entry says which one is around it.
    fn node_after(&self, item: Item) -> usize
        ensures { result ≡ innermost (open_after (items_of self.now ++ item ∷ [])) }
    {
        let entries = self.entries.as_slice();
        match item {
            Item::Enter { .. } => entries.len() + 1,
            Item::Leave if self.node > 0 => entries[self.node - 1].node,
            Item::Leave => 0,
            Item::Token { .. } | Item::Error { .. } => self.node,
        }
    }
}

impl<'a> Sink for NodeTable<'a> {
    ghost use Rattle.sinks.specs.Sink.{Takes};
    ghost use Rattle.sinks.specs.Table.{heard_of, one_entry, some_entry, Keeps};

    ghost heard = { heard_of };

    ghost size = { one_entry };

    ghost takes_room = { some_entry };

    /// Takes the same few steps for each item.
    fn put(&mut self, item: Item) -> Result<(), Full>
        ensures takes { Takes one_entry item (heard_of self.old) (heard_of self.new) result }
        ensures keeps { Keeps item self.old self.new result }
    {
        let node = self.node_after(item);
        let entry = Entry {
            item,
            node: self.node,
        };
        self.entries.push(entry)?;
        self.node = node;
        Ok(())
    }
}
