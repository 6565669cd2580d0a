//! The calls on a reading.

ghost use Rattle.std.specs.Prelude.{◌≡◌};
ghost use Rattle.event_log.specs.Model.{of, Meets, Performs};
ghost use Rattle.event_log.specs.Steps.{bump_any};
ghost use Rattle.grammar.specs.Open.{Opens, OpensWithRows, Empty};

use super::{Reading, Unopened};
use crate::check::{check, check_with_rows};
use event_log::event::Record;
use event_log::parser::Parser;
use event_log::records::{Log, Taken};
use refusals::Refusal;
use tokens::input::Input;
use tokens::rows::Row;

/// A parser of no tokens, with no records.
fn empty<'a>() -> Parser<'a>
    ensures { Empty result }
{
    let input = Input {
        kinds: &[],
        contextual: &[],
        joint: &[],
        editions: &[],
    };
    Parser::resume(Log::new(input, &mut []))
}

/// What `skip` runs.
fn skip_token(parser: &mut Parser) -> Result<(), Refusal>
    ensures { Meets bump_any parser.old parser.new result }
{
    parser.bump_any()
}

impl<'a> Reading<'a> {
    /// A reading of no tokens, with an empty log.
    pub fn new() -> Reading<'a>
        ensures { Empty result.parser }
    {
        Reading { parser: empty() }
    }

    /// Reads these tokens from the first one on, and records into this log.
    pub fn open(&mut self, input: Input<'a>, records: &'a mut [Record]) -> Result<(), Unopened<'a>>
        ensures { Opens input.entry records.entry self.old self.new result }
    {
        if let Err(refusal) = check(input, records.len()) {
            return Err(Unopened { refusal, records });
        }
        self.parser = Parser::resume(Log::new(input, records));
        Ok(())
    }

    /// The same, with what these rows answer at each token.
    pub fn open_with_rows(
        &mut self,
        input: Input<'a>,
        rows: &'a [Row],
        records: &'a mut [Record],
    ) -> Result<(), Unopened<'a>>
        ensures { OpensWithRows input.entry rows.now records.entry self.old self.new result }
    {
        if let Err(refusal) = check_with_rows(input, rows, records.len()) {
            return Err(Unopened { refusal, records });
        }
        self.parser = Parser::resume(Log::with_rows(input, rows, records));
        Ok(())
    }

    /// Takes the next raw token, if there is one.
    pub fn skip(&mut self) -> Result<Taken, Refusal>
        ensures { Performs bump_any self.old.parser self.new.parser result }
    {
        let began = self.parser.begin();
        let r = skip_token(&mut self.parser);
        self.parser.conclude(began, r)
    }

    /// How many raw tokens were taken since it was opened.
    pub fn place(&self) -> usize
        ensures { result ≡ self.now.parser.place }
    {
        self.parser.place()
    }

    /// What was recorded since it was opened.
    pub fn records(&self) -> &[Record]
        ensures { result.now ≡ (of self.now.parser).recs }
    {
        self.parser.recorded()
    }
}
