//! Tells the log of a reading to a sink.

ghost use Rattle.std.specs.Prelude.{◌≡◌, ◌≤◌, length, drop, slice_get, Some};
ghost use Rattle.event_log.specs.Model.{of};
ghost use Rattle.event_log.specs.Tell.{unused};
ghost use Rattle.sinks.specs.Walk.{used, TellsRecord, TellsAll, Walks, WalkLaw};

use crate::sink::{Full, Sink};
use event_log::event::Record;
use event_log::item::Item;
use grammar::reading::Reading;
use refusals::Refusal;
use start::Start;

mod start;
#[cfg(test)]
mod tests;

/// Tells the sink all that was recorded. It works with a mark for each record, a byte, as it is lent: refused 9 where there are fewer, and nothing is told then.
/// Refused 10 where the sink is full, at the record reached; what was told before stays told. The marks are zero in the end.
pub fn walk<S: Sink>(reading: &Reading, marks: &mut [u8], sink: &mut S) -> Result<(), Refusal>
    ensures told { Walks S.size (of reading.now.parser).recs marks.old marks.new (S.heard sink.old) (S.heard sink.new) result }
    ensures law { WalkLaw reading.now.parser (S.heard sink.old) (S.heard sink.new) result }
{
    let records = reading.records();
    process(records, marks, sink)
}

/// Tells the sink these records, whatever made them; the marks and the refusals are those of `walk`.
pub fn process<S: Sink>(records: &[Record], marks: &mut [u8], sink: &mut S) -> Result<(), Refusal>
    ensures { Walks S.size records.now marks.old marks.new (S.heard sink.old) (S.heard sink.new) result }
{
    let count = records.len();
    if marks.len() < count {
        return Err(Refusal::MarksShort);
    }
    marks[..count].fill(0);
    let told = tell(records, marks, sink);
    marks[..count].fill(0);
    told
}

/// Tells all records; each has a mark, and no start is marked as used yet.
fn tell<S: Sink>(records: &[Record], marks: &mut [u8], sink: &mut S) -> Result<(), Refusal>
    requires { used (length records.now) marks.old ≡ unused records.now }
    ensures told { TellsAll S.size records.now (S.heard sink.old) (S.heard sink.new) result }
    ensures others { drop (length records.now) marks.new ≡ drop (length records.now) marks.old }
{
    for (at, record) in records.iter().enumerate() {
        tell_record(records, at, record, marks, sink).map_err(|_| Refusal::SinkFull { place: at })?;
    }
    Ok(())
}

/// Tells one record, the one at this index.
fn tell_record<S: Sink>(
    records: &[Record],
    at: usize,
    record: &Record,
    marks: &mut [u8],
    sink: &mut S,
) -> Result<(), Full>
    requires here { slice_get records.now at ≡ Some «record».now }
    requires marked { length records.now ≤ length marks.old }
    ensures { TellsRecord S.size records.now at marks.old marks.new (S.heard sink.old) (S.heard sink.new) result }
{
    match *record {
        Record::Start { .. } if marks[at] != 0 => Ok(()),
        Record::Start { .. } => {
            let start = Start { records, at };
            let starts = start.use_chain(marks);
            start.enter_chain(starts, sink)
        }
        Record::Finish => sink.put(Item::Leave),
        Record::Token { kind, width } => sink.put(Item::Token { kind, width }),
        Record::Error { number, kind } => sink.put(Item::Error { number, kind }),
    }
}
