//! The parser: the tokens, the records that were made of them so far, and how far both have come.

ghost use Rattle.std.specs.Prelude.{◌≡◌};
ghost use Rattle.event_log.specs.Sound.{Within, Roomy, Short, Few, Inside, Blanks};

use super::event::Record;
use tokens::input::Input;
use tokens::rows::Row;

mod calls;
mod islands;
mod nodes;
mod token_calls;

/// The tokens, and the lent log of what was made of them.
#[derive(Drop)]
pub struct Parser<'a> {
    input: Input<'a>,
    /// what the islands at each token answer, or nothing
    rows: &'a [Row],
    // Lent memory with a count beside it: what lies past the count is promised to be blank. The definitions ask for the room, and not for the length.
    records: &'a mut [Record],
    /// how many records there may come to be
    room: usize,
    count: usize,
    /// how many raw tokens were taken
    place: usize,
    /// no error was recorded since the call began
    clean: bool,
    ghost within: { Within count room },
    ghost roomy: { Roomy room records.now },
    ghost short: { Short records.now },
    ghost few: { Few input.kinds.now },
    ghost inside: { Inside place input.kinds.now },
    ghost blanks: { Blanks count records.now },
}

impl<'a> Parser<'a> {
    /// How many raw tokens were taken.
    pub fn place(&self) -> usize
        ensures { result ≡ self.now.place }
    {
        self.place
    }
}
