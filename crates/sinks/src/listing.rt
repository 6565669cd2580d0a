//! A listing: what a sink was told as text, a line for each item.

ghost use Rattle.std.specs.Prelude.{◌≡◌, [], length};
ghost use Rattle.sinks.specs.Lent.{stored};
ghost use Rattle.sinks.specs.Lines.{listing, read};

mod line;
#[cfg(test)]
mod tests;

use crate::lent::LentVec;
use crate::sink::{Full, Sink};
use event_log::item::Item;
use line::line_of;

/// Lines in a lent buffer, one after the other from its first byte on.
#[derive(Drop)]
pub struct Listing<'a> {
    lines: LentVec<'a, u8>,
    // so what was told can be read off them
    ghost listed: { stored lines ≡ listing (read (stored lines)) },
}

impl<'a> Listing<'a> {
    ghost use Rattle.sinks.specs.Listing.{items_of, room_of};

    /// Empty, over a buffer that stays as it is.
    pub fn new(buffer: &'a mut [u8]) -> Listing<'a>
        ensures items { items_of result ≡ [] }
        ensures room { room_of result ≡ length buffer.old }
        ensures kept { result.lines.memory.now ≡ buffer.old }
    {
        Listing {
            lines: LentVec::new(buffer),
        }
    }

    /// The lines of all that it was told.
    pub fn bytes(&self) -> &[u8]
        ensures { result.now ≡ listing (items_of self.now) }
    {
        self.lines.as_slice()
    }
}

impl<'a> Sink for Listing<'a> {
    ghost use Rattle.sinks.specs.Sink.{Takes};
    ghost use Rattle.sinks.specs.Listing.{heard_of, bytes_for, some_bytes, Writes};

    ghost heard = { heard_of };

    ghost size = { bytes_for };

    ghost takes_room = { some_bytes };

    /// The line is whole before its first byte is written, so a refusal leaves every byte as it is.
    fn put(&mut self, item: Item) -> Result<(), Full>
        ensures takes { Takes bytes_for item (heard_of self.old) (heard_of self.new) result }
        ensures writes { Writes item self.old self.new result }
    {
        let line = line_of(item);
        self.lines.extend_from_slice(line.as_str().as_bytes())
    }
}
