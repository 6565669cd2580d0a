//! The raw host: it knows no grammar, and answers brackets.

ghost use Rattle.std.specs.Prelude.{◌≡◌};
ghost use Rattle.hosts.specs.Raw.{raw_ahead, raw_answer};

use crate::answers::{ahead, tree};
use crate::host::Host;
use crate::run::{Run, Stop};
use tokens::input::Input;
use tokens::rows::{Answer, Hook};
use tokens::syntax_kind::TOKEN_TREE;

#[derive(Clone, Copy)]
pub struct Raw;

impl Host for Raw {
    ghost meaning = { λ _. raw_answer };

    /// Every hook is answered alike.
    fn answer(&self, _hook: Hook, input: Input, place: usize) -> Answer {
        answer_ahead(ahead(input.kinds, place))
    }
}

/// What lies at the first of these tokens.
fn answer_ahead(ahead: &[u16]) -> Answer
    ensures { result ≡ raw_ahead ahead.now }
{
    tree(TOKEN_TREE, Run::of(ahead, Stop::Mark))
}
