//! The calls that begin and end with a log, and those that write into it.

ghost use Rattle.std.specs.Prelude.{◌≡◌, ◌-◌, ◌≤◌, ◌&&◌, [], ◌∷◌, length, nat_lt};
ghost use Rattle.event_log.specs.Sound.{Few, Short};
ghost use Rattle.event_log.specs.Model.{of, faultless, Resumes, Pushes, Begins, blanked, Since, Concludes, PutsBack};

use super::Parser;
use crate::event::Record;
use crate::records::{Checkpoint, Log, Taken};
use refusals::Refusal;

fn stays_clean(clean: bool, entry: Record) -> bool
    ensures { result ≡ (clean && faultless (entry ∷ [])) }
{
    clean && !matches!(entry, Record::Error { .. })
}

/// Makes these records blank.
fn blank(records: &mut [Record], from: usize, to: usize)
    requires forward { from ≤ to }
    requires within { to ≤ length records.old }
    ensures { records.new ≡ blanked records.old from to }
{
    records[from..to].fill(Record::BLANK);
}

impl<'a> Parser<'a> {
    /// Goes on with a log.
    pub fn resume(log: Log<'a>) -> Parser<'a>
        requires few { Few log.input.kinds.now }
        requires short { Short log.records.now }
        ensures { Resumes log.entry result }
    {
        let Log {
            input,
            rows,
            records,
            room,
            count,
            place,
            clean,
        } = log;
        Parser {
            input,
            rows,
            records,
            room,
            count,
            place,
            clean,
        }
    }

    /// Gives the log back, to go on with it another time.
    pub fn pause(self) -> Log<'a>
        ensures { Resumes result self.entry }
    {
        let Parser {
            input,
            rows,
            records,
            room,
            count,
            place,
            clean,
        } = self;
        Log {
            input,
            rows,
            records,
            room,
            count,
            place,
            clean,
        }
    }

    /// What was recorded so far.
    pub fn recorded(&self) -> &[Record]
        ensures { result.now ≡ (of self.now).recs }
    {
        &self.records[..self.count]
    }

    fn has_room(&self) -> bool
        ensures { nat_lt self.now.count self.now.room ≡ result }
    {
        self.count < self.room
    }

    /// One record more, where there is room for it.
    pub fn push(&mut self, entry: Record) -> Result<(), Refusal>
        ensures { Pushes entry (of self.old) (of self.new) result }
    {
        if !self.has_room() {
            return Err(Refusal::LogFull { place: self.place });
        }
        let at = self.count;
        self.count += 1;
        self.clean = stays_clean(self.clean, entry);
        self.records[at] = entry;
        Ok(())
    }

    /// A call begins.
    pub fn begin(&mut self) -> Checkpoint
        ensures { Begins self.old self.new result }
    {
        self.clean = true;
        Checkpoint {
            place: self.place,
            count: self.count,
        }
    }

    // That a call has not gone back behind its beginning ties a checkpoint to a parser, so it is asked of each call below.

    /// A call ends: accepted, it answers what it took; refused, place and count are put back and the records after them are blank again.
    pub fn conclude(&mut self, began: Checkpoint, r: Result<(), Refusal>) -> Result<Taken, Refusal>
        requires { Since began self.old }
        ensures { Concludes began self.old self.new r result }
    {
        if let Err(refusal) = r {
            self.put_back(began);
            return Err(refusal);
        }
        Ok(self.taken_since(began))
    }

    fn taken_since(&self, began: Checkpoint) -> Taken
        requires { Since began self.now }
        ensures tokens { result.tokens ≡ self.now.place - began.place }
        ensures clean { result.clean ≡ self.now.clean }
    {
        Taken {
            tokens: self.place - began.place,
            clean: self.clean,
        }
    }

    fn put_back(&mut self, began: Checkpoint)
        requires { Since began self.old }
        ensures { PutsBack began self.old self.new }
    {
        blank(self.records, began.count, self.count);
        self.count = began.count;
        self.place = began.place;
    }
}
