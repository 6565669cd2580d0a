//! Answers that hosts give.

ghost use Rattle.std.specs.Prelude.{◌≡◌, drop};
ghost use Rattle.hosts.specs.Answers.{tree as tree_of};

use crate::run::Run;
use tokens::rows::Answer;
use tokens::syntax_kind::SyntaxKind;

/// A run as a node of this kind, with a fault if a bracket is open at its end; a fault alone if the run is empty.
pub fn tree(kind: SyntaxKind, run: Run) -> Answer
    ensures { result ≡ tree_of kind run }
{
    if run.tokens == 0 {
        return Answer::BARE_FAULT;
    }
    Answer {
        tokens: run.tokens,
        kind: Some(kind),
        fault: run.unclosed,
    }
}

/// The tokens from this place on: none past the end.
pub fn ahead(kinds: &[u16], place: usize) -> &[u16]
    ensures { result.now ≡ drop place kinds.now }
{
    kinds.get(place..).unwrap_or(&[])
}
