//! Whether columns can be read.

ghost use Rattle.std.specs.Prelude.{◌≡◌, ◌<◌, ◌≤◌, length};
ghost use Rattle.grammar.specs.Each.{Checks};
ghost use Rattle.grammar.specs.Verdict.{fault, verdict, verdict_with_rows, row_count_fault, fits, no_kind, no_contextual, no_edition, kinds_fault, contextual_fault, editions_fault, rows_fault};

use event_log::records::MAX_RECORDS;
use refusals::{Layer, Refusal};
use tokens::input::{Input, MAX_TOKENS};
use tokens::rows::{Row, lawful};
use tokens::syntax_kind::{DOLLAR, EOF, IDENT, SHEBANG, SyntaxKind, TOMBSTONE};

/// Editions are 2015, 2018, 2021 and 2024, from 0.
const LAST_EDITION: u8 = 3;

/// Why these columns, with a log of so many records, cannot be read, if so: the first reason, at the first token that gives it.
pub fn check(input: Input, records: usize) -> Result<(), Refusal>
    ensures { fault result ≡ verdict input.entry records }
{
    if input.kinds.len() > MAX_TOKENS {
        return Err(Refusal::TooManyTokens {
            layer: Layer::Input,
        });
    }
    if !lengths_fit(input, records) {
        return Err(Refusal::ColumnLength);
    }
    check_kinds(input.kinds)?;
    check_contextual(input.kinds, input.contextual)?;
    check_editions(input.editions)
}

/// The same with rows: there has to be one for each token, and each has to be lawful at its place.
pub fn check_with_rows(input: Input, rows: &[Row], records: usize) -> Result<(), Refusal>
    ensures { fault result ≡ verdict_with_rows input.entry rows.now records }
{
    check_row_count(input, rows.len())?;
    check(input, records)?;
    check_rows(input.kinds, rows)
}

/// There is one row for each token, of which there are not too many.
pub fn check_row_count(input: Input, rows: usize) -> Result<(), Refusal>
    ensures { fault result ≡ row_count_fault input.entry rows }
{
    if input.kinds.len() > MAX_TOKENS {
        return Err(Refusal::TooManyTokens {
            layer: Layer::Input,
        });
    }
    if rows != input.kinds.len() {
        return Err(Refusal::ColumnLength);
    }
    Ok(())
}

/// Every column is as long as it has to be, and the log is not too long.
fn lengths_fit(input: Input, records: usize) -> bool
    ensures { result ≡ fits input.entry records }
{
    let tokens = input.kinds.len();
    input.contextual.len() == tokens
        && input.editions.len() == tokens
        && input.joint.len() == tokens.div_ceil(64)
        && records <= MAX_RECORDS
}

/// A kind that no token has.
fn no_kind(kind: SyntaxKind) -> bool
    ensures { result ≡ no_kind kind }
{
    kind == TOMBSTONE || kind == EOF || kind > SHEBANG
}

/// A contextual kind that a token of this kind cannot have.
fn no_contextual(kind: SyntaxKind, contextual: SyntaxKind) -> bool
    ensures { result ≡ no_contextual kind contextual }
{
    contextual != EOF && (kind != IDENT || contextual < DOLLAR || contextual > SHEBANG)
}

/// An edition that there is not.
fn no_edition(edition: u8) -> bool
    ensures { result ≡ no_edition edition }
{
    edition > LAST_EDITION
}

/// Refuses the first entry that is wrong at its place.
fn check_each<T, W: Fn(usize, &T) -> bool, R: Fn(usize) -> Refusal>(
    column: &[T],
    wrong: W,
    refusal: R,
) -> Result<(), Refusal>
    requires asked { (i : _) (x : _) → i < length column.now → W.pre wrong i x }
    requires refused { R.IsAlwaysCallable refusal }
    ensures { Checks W.Fn R.Fn column.now wrong refusal result }
{
    for (place, entry) in column.iter().enumerate() {
        if wrong(place, entry) {
            return Err(refusal(place));
        }
    }
    Ok(())
}

fn check_kinds(kinds: &[u16]) -> Result<(), Refusal>
    ensures { fault result ≡ kinds_fault kinds.now }
{
    check_each(
        kinds,
        |_, kind| no_kind(*kind),
        |place| Refusal::WrongKind { place },
    )
}

fn check_contextual(kinds: &[u16], contextual: &[u16]) -> Result<(), Refusal>
    requires { length kinds.now ≡ length contextual.now }
    ensures { fault result ≡ contextual_fault kinds.now contextual.now }
{
    check_each(
        contextual,
        |place, other| no_contextual(kinds[place], *other),
        |place| Refusal::WrongContextualKind { place },
    )
}

fn check_editions(editions: &[u8]) -> Result<(), Refusal>
    ensures { fault result ≡ editions_fault editions.now }
{
    check_each(
        editions,
        |_, edition| no_edition(*edition),
        |place| Refusal::WrongEdition { place },
    )
}

fn check_rows(kinds: &[u16], rows: &[Row]) -> Result<(), Refusal>
    ensures { fault result ≡ rows_fault kinds.now rows.now }
{
    check_each(
        rows,
        |place, row| !lawful(kinds, place, row),
        |place| Refusal::UnlawfulRow { place },
    )
}
