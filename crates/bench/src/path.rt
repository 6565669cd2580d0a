//! The records of the path `a::a::a..`, in which each further path precedes the one before it: a chain of forward parents as long as the path.

ghost use Rattle.std.specs.Prelude.{◌≡◌, IfOk};
ghost use Rattle.bench.specs.Path.{parent, path as path_of};

use event_log::event::Record;
use std::alloc::{AllocError, Global};
use tokens::syntax_kind::{COLON2, IDENT, NAME_REF, PATH, PATH_SEGMENT};

/// A segment, and the end of its path.
const SEGMENT: [Record; 6] = [
    Record::Start {
        kind: PATH_SEGMENT,
        forward: None,
    },
    Record::Start {
        kind: NAME_REF,
        forward: None,
    },
    Record::Token {
        kind: IDENT,
        width: 1,
    },
    Record::Finish,
    Record::Finish,
    Record::Finish,
];

/// The forward parent of a path that has so many records, where so many paths are still to come.
fn forward(records: u16, left: usize) -> Option<u16>
    ensures { result ≡ parent records left }
{
    (left > 0).then_some(records)
}

/// A path of one segment and so many more.
pub fn path(heap: Global, more: usize) -> Result<Vec<Record>, AllocError>
    ensures { IfOk result (λ v. v.items ≡ path_of more) }
{
    let mut records = Vec::new(heap);
    records.push(Record::Start {
        kind: PATH,
        forward: forward(7, more),
    })?;
    records.extend_from_slice(&SEGMENT)?;
    for left in (0..more).rev() {
        records.push(Record::Start {
            kind: PATH,
            forward: forward(8, left),
        })?;
        records.push(Record::Token {
            kind: COLON2,
            width: 2,
        })?;
        records.extend_from_slice(&SEGMENT)?;
    }
    Ok(records)
}
