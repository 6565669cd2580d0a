ghost use Rattle.event_log.specs.declared.item.Item.{Item};
ghost use Rattle.std.specs.Prelude.{ℕ};
ghost use Rattle.sinks.specs.Sink.{Heard, TakesRoom, Takes};

use event_log::item::Item;

/// A sink has no room for an item.
#[derive(Clone, Copy, PartialEq, Eq, Debug)]
pub struct Full;

/// Whoever is told the items of a log, by what it was told and how much more it can take.
pub trait Sink {
    /// what it was told so far, in order, and the room that is left
    ghost heard: { Self → Heard };

    /// how much room an item takes, by the item alone
    ghost size: { Item → ℕ };

    /// at least 1
    ghost takes_room: { TakesRoom size };

    /// Takes one item more, or keeps everything as it is, where the item is larger than the room.
    fn put(&mut self, item: Item) -> Result<(), Full>
        ensures { Takes size item (heard self.old) (heard self.new) result };
}
