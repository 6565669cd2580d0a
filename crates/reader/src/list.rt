//! From the bytes of a token file to what a sink is told of it.

ghost use Rattle.std.specs.Prelude.{◌≡◌, length, nat_lt};
ghost use Rattle.reader.specs.List.{max_bytes, TakesAll, Lists};

use event_log::event::Record;
use file::{Columns, read_file};
use grammar::reading::Reading;
use refusals::{Layer, Refusal};
use sinks::sink::Sink;
use sinks::walk::walk;
use tokens::input::Input;

/// The longest file: 1,024 tokens.
pub const MAX_BYTES: usize = 2434;

const TOKENS: usize = 1024;

const WORDS: usize = 16;

/// The records of the log; each tells one item at most.
pub const RECORDS: usize = 8192;

/// The file has more tokens than the program takes, whatever they are.
fn too_long(bytes: &[u8]) -> bool
    ensures { nat_lt max_bytes (length bytes.now) ≡ result }
{
    bytes.len() > MAX_BYTES
}

/// Takes every token.
fn take_all(reading: &mut Reading) -> Result<(), Refusal>
    ensures { TakesAll reading.old.parser reading.new.parser result }
{
    while reading.skip()?.tokens > 0 {}
    Ok(())
}

/// Tells a sink what the file holds.
pub fn list<S: Sink>(bytes: &[u8], sink: &mut S) -> Result<(), Refusal>
    ensures { Lists S.size bytes.now (S.heard sink.old) (S.heard sink.new) result }
{
    if too_long(bytes) {
        return Err(Refusal::TooManyTokens { layer: Layer::File });
    }
    let mut kinds = [0; TOKENS];
    let mut contextual = [0; TOKENS];
    let mut joint = [0; WORDS];
    let mut editions = [0; TOKENS];
    let columns = Columns {
        kinds: &mut kinds,
        contextual: &mut contextual,
        joint: &mut joint,
        editions: &mut editions,
    };
    let count = read_file(bytes, columns)?;
    let input = Input {
        kinds: &kinds[0..count],
        contextual: &contextual[0..count],
        joint: &joint[0..count.div_ceil(64)],
        editions: &editions[0..count],
    };
    let mut records = [Record::BLANK; RECORDS];
    let mut marks = [0; RECORDS];
    let mut reading = Reading::new();
    // No `?`: the error hands the log back, and a closure for `map_err` over an error with a `&mut` is not covered.
    if let Err(unopened) = reading.open(input, &mut records) {
        return Err(unopened.refusal);
    }
    take_all(&mut reading)?;
    walk(&reading, &mut marks, sink)
}
