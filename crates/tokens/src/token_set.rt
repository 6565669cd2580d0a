//! Sets of kinds of tokens.

ghost use Rattle.tokens.specs.Words.{OnlyTokens};

mod calls;

/// A set of kinds up to SHEBANG: kind k is in it where bit k modulo 64 of word k divided by 64 is set.
#[derive(Clone, Copy)]
pub struct TokenSet {
    pub(crate) words: [u64; 3],
    ghost tokens: { OnlyTokens words },
}
