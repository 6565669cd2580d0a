//! The calls of a token set.

ghost use Rattle.std.specs.Prelude.{◌≡◌, ℕ, ◌/◌, ◌%◌, ◌^◌, ◌<◌, false, ◌&&◌, ◌||◌, ◌==◌, nat_le};
ghost use Rattle.tokens.specs.Kinds.{SHEBANG as last_token_kind};
ghost use Rattle.tokens.specs.Words.{each_or};
ghost use Rattle.tokens.specs.Sets.{has};
ghost use Rattle.tokens.specs.TokenSets.{holds};

use super::TokenSet;
use crate::syntax_kind::{SHEBANG, SyntaxKind};

impl TokenSet {
    pub const EMPTY: TokenSet = TokenSet { words: [0; 3] };

    /// The set of these kinds. A kind above SHEBANG is no token's, and is left out.
    pub fn new(kinds: &[u16]) -> TokenSet
        ensures { (k : ℕ) → holds result k ≡ (has kinds.now k && nat_le k last_token_kind) }
    {
        let mut words = [0; 3];
        for kind in kinds {
            if *kind <= SHEBANG {
                // `as` is proved to lose nothing; `from` would add an equation to the proof.
                words[*kind as usize / 64] |= mask(*kind);
            }
        }
        TokenSet { words }
    }

    pub fn union(self, other: TokenSet) -> TokenSet
        ensures { (k : ℕ) → holds result k ≡ (holds self k || holds other k) }
    {
        TokenSet {
            words: each_or(self.words, other.words),
        }
    }

    /// Whether the kind is in the set. None above SHEBANG is.
    pub fn contains(&self, kind: SyntaxKind) -> bool
        ensures member { holds self.now kind ≡ result }
        ensures token { last_token_kind < kind → result ≡ false }
    {
        if kind > SHEBANG {
            return false;
        }
        // `as` is proved to lose nothing; `from` would add an equation to the proof.
        has_bit(self.words[kind as usize / 64], kind)
    }
}

/// The bit of a kind in its word.
fn mask(kind: SyntaxKind) -> u64
    ensures { result ≡ 2 ^ (kind % 64) }
{
    1 << (kind % 64)
}

/// Whether the bit of a kind is set in its word.
fn has_bit(word: u64, kind: SyntaxKind) -> bool
    ensures { (word / 2 ^ (kind % 64) % 2 == 1) ≡ result }
{
    (word >> (kind % 64)) % 2 == 1
}

fn each_or(a: [u64; 3], b: [u64; 3]) -> [u64; 3]
    ensures { result ≡ each_or a b }
{
    [a[0] | b[0], a[1] | b[1], a[2] | b[2]]
}
