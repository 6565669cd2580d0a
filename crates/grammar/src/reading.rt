ghost use Rattle.grammar.specs.Calls.{Reached};

use event_log::event::Record;
use event_log::parser::Parser;
use refusals::Refusal;

mod calls;

/// Tokens that are read, and the log of what the calls since `open` made of them.
#[derive(Drop)]
pub struct Reading<'a> {
    parser: Parser<'a>,
    // some list of calls since it was opened has led here
    ghost reached: { Reached parser },
}

/// Columns that were not opened: why, and the log that was lent for them, as it was.
#[derive(Drop)]
pub struct Unopened<'a> {
    pub refusal: Refusal,
    pub records: &'a mut [Record],
}
