//! Filling rows: a host is asked beforehand, at every token place.

ghost use Rattle.std.specs.Prelude.{◌≡◌, true};
ghost use Rattle.grammar.specs.Verdict.{fault};
ghost use Rattle.tokens.specs.Islands.{lawful_row};
ghost use Rattle.hosts.specs.Host.{columns};
ghost use Rattle.hosts.specs.Fill.{Fills, fill_verdict, row_of};

use crate::host::Host;
use grammar::check::{check, check_row_count};
use refusals::Refusal;
use tokens::input::Input;
use tokens::rows::{Hook, Row};

/// Asks the host every hook at each token place, and keeps what it answers. Refused as `open` would refuse the columns, or 2 where there is not one row for
/// each token; the rows are as before then.
pub fn fill<H: Host>(input: Input, host: &H, rows: &mut [Row]) -> Result<(), Refusal>
    ensures { Fills (H.meaning host.now) input.entry rows.old rows.new result }
{
    check_rows(input, rows.len())?;
    for (place, row) in rows.iter_mut().enumerate() {
        *row = row_at(input, host, place);
    }
    Ok(())
}

/// Why these columns, with so many rows, are not filled, if so.
fn check_rows(input: Input, rows: usize) -> Result<(), Refusal>
    ensures { fault result ≡ fill_verdict input.entry rows }
{
    check_row_count(input, rows)?;
    check(input, 0)
}

/// What the host answers at this place.
fn row_at<H: Host>(input: Input, host: &H, place: usize) -> Row
    ensures meant { result ≡ row_of (H.meaning host.now) (columns input.entry) place }
    ensures lawful { lawful_row (columns input.entry).kinds place result ≡ true }
{
    Row {
        expr: host.answer(Hook::Expr, input, place),
        block_expr: host.answer(Hook::BlockExpr, input, place),
        literal: host.answer(Hook::Literal, input, place),
        expr_block_contents: host.answer(Hook::ExprBlockContents, input, place),
        meta: host.answer(Hook::Meta, input, place),
        pattern: host.answer(Hook::Pattern, input, place),
        pattern_single: host.answer(Hook::PatternSingle, input, place),
    }
}
