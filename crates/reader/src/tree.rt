//! What a node table holds as text for people: a line for each item but leaves, with the names of kinds, set in by the nodes that it stands in.

ghost use Rattle.std.specs.Prelude.{◌≡◌, ◌+◌, ◌^◌, ◌<◌, ◌++◌, IfOk, string_bytes, OnOk, slice_index_or, Some};
ghost use Rattle.sinks.specs.Nodes.{items_in};
ghost use Rattle.reader.specs.Tree.{texts, unknown, name_of, label as label_of, indent, line, depth_after, tree as tree_of};

use crate::kind_names::KIND_NAMES;
use event_log::item::Item;
use sinks::table::entry::Entry;
use std::alloc::{AllocError, Global};
use std::fmt;
use tokens::syntax_kind::{SyntaxKind, TOMBSTONE};

/// The text at this index, or `?` past the last one.
fn text_at(table: &[&'static str], at: usize) -> &'static str
    ensures { result.now ≡ slice_index_or (texts table.now) at unknown }
{
    table.get(at).copied().unwrap_or("?")
}

fn kind_name(kind: SyntaxKind) -> &'static str
    ensures { result.now ≡ name_of kind }
{
    // `as` is proved to lose nothing; `from` would add an equation to the proof.
    text_at(&KIND_NAMES, kind as usize)
}

/// What a line says of its item.
#[derive(Drop)]
struct Label(Item);

impl fmt::Display for Label {
    ghost output = { λ label. Some (label_of label.0) };

    fn fmt<W: fmt::Write>(&self, f: &mut fmt::Formatter<W>) -> fmt::Result {
        match self.0 {
            Item::Enter { kind } => f.write_str(kind_name(kind)),
            Item::Leave => Ok(()),
            Item::Token { kind, width: 1 } => f.write_str(kind_name(kind)),
            Item::Token { kind, width } => write!(f, "{} {width}", kind_name(kind)),
            Item::Error {
                number,
                kind: TOMBSTONE,
            } => write!(f, "error {number}"),
            Item::Error { number, kind } => {
                write!(f, "error {number}: expected {}", kind_name(kind))
            }
        }
    }
}

fn push_indent(text: &mut String, depth: usize) -> Result<(), AllocError>
    ensures { OnOk result (string_bytes text.new ≡ string_bytes text.old ++ indent depth) }
{
    for _ in 0..depth {
        text.push_str("    ")?;
    }
    Ok(())
}

/// Adds the line of an item inside of so many nodes.
fn push_line(text: &mut String, depth: usize, item: Item) -> Result<(), AllocError>
    ensures { OnOk result (string_bytes text.new ≡ string_bytes text.old ++ line depth item) }
{
    if let Item::Leave = item {
        return Ok(());
    }
    push_indent(text, depth)?;
    writeln!(text, "{}", Label(item))
}

/// In how many nodes the next item stands.
fn next_depth(depth: usize, item: Item) -> usize
    requires { depth + 1 < 2 ^ 64 }
    ensures { result ≡ depth_after depth item }
{
    match item {
        Item::Enter { .. } => depth + 1,
        Item::Leave => depth.saturating_sub(1),
        Item::Token { .. } | Item::Error { .. } => depth,
    }
}

/// The tree of what a node table holds.
pub fn tree(heap: Global, entries: &[Entry]) -> Result<String, AllocError>
    ensures { IfOk result (λ t. string_bytes t ≡ tree_of (items_in entries.now)) }
{
    let mut text = String::new(heap);
    let mut depth = 0;
    for entry in entries {
        push_line(&mut text, depth, entry.item)?;
        depth = next_depth(depth, entry.item);
    }
    Ok(text)
}
