//! The lent log between the calls of a parser, how many records it may have, and what a call takes.

ghost use Rattle.std.specs.Prelude.{◌≡◌, [], length, take};
ghost use Rattle.event_log.specs.Sound.{Within, Roomy, Inside, Blanks};

use super::event::Record;
use tokens::input::Input;
use tokens::rows::Row;

/// How many records a log has at most.
pub const MAX_RECORDS: usize = 65535;

/// Tokens, and the lent log of what was made of them so far, however many there are. `Parser::resume` goes on with one.
#[derive(Drop)]
pub struct Log<'a> {
    pub(crate) input: Input<'a>,
    /// what the islands at each token answer, or nothing
    pub(crate) rows: &'a [Row],
    pub(crate) records: &'a mut [Record],
    /// how many records there may come to be
    pub(crate) room: usize,
    pub(crate) count: usize,
    /// how many raw tokens were taken
    pub(crate) place: usize,
    /// no error was recorded since the call began
    pub(crate) clean: bool,
    ghost within: { Within count room },
    ghost roomy: { Roomy room records.now },
    ghost inside: { Inside place input.kinds.now },
    ghost blanks: { Blanks count records.now },
}

impl<'a> Log<'a> {
    ghost use Rattle.event_log.specs.Model.{BlankLog};

    /// The log before the first token, with all of these records blank, and with no rows.
    pub fn new(input: Input<'a>, records: &'a mut [Record]) -> Log<'a>
        ensures { BlankLog input.entry [] (length records.old) result }
    {
        Log::with_rows(input, &[], records)
    }

    /// The same, with what these rows answer at each token.
    pub fn with_rows(input: Input<'a>, rows: &'a [Row], records: &'a mut [Record]) -> Log<'a>
        ensures { BlankLog input.entry rows.now (length records.old) result }
    {
        records.fill(Record::BLANK);
        let room = records.len();
        Log {
            input,
            rows,
            records,
            room,
            count: 0,
            place: 0,
            clean: true,
        }
    }

    /// How many raw tokens were taken.
    pub fn place(&self) -> usize
        ensures { result ≡ self.now.place }
    {
        self.place
    }

    /// What was recorded so far.
    pub fn recorded(&self) -> &[Record]
        ensures { result.now ≡ take self.now.count self.now.records.now }
    {
        &self.records[..self.count]
    }
}

/// What an accepted call took: how many raw tokens, and whether it left no error.
#[derive(Clone, Copy, PartialEq, Eq, Debug)]
pub struct Taken {
    pub tokens: usize,
    pub clean: bool,
}

/// Where a call began, to put back where it is refused.
#[derive(Clone, Copy)]
pub struct Checkpoint {
    pub(crate) place: usize,
    pub(crate) count: usize,
}
