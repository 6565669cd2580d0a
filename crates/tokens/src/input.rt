ghost use Rattle.std.specs.Prelude.{◌≡◌, slice_index, slice_index_or};
ghost use Rattle.tokens.specs.Kinds.{EOF as end_of_file};
ghost use Rattle.tokens.specs.Columns.{joint_in};

use crate::syntax_kind::{EOF, SyntaxKind};

/// How many tokens a reading takes at most.
pub const MAX_TOKENS: usize = 4096;

/// The tokens, by lent columns: an entry of each for a token, and a bit of a word, token i at bit i modulo 64 of word i divided by 64.
/// Columns, and no list of tokens: they are lent as they are, and never copied.
#[derive(Clone, Copy)]
pub struct Input<'a> {
    pub kinds: &'a [u16],
    /// the keyword that an identifier may also be read as, or EOF, since the column is lent so
    pub contextual: &'a [u16],
    /// whether no space follows the token
    pub joint: &'a [u64],
    /// the edition that the token is read in: 2015, 2018, 2021, 2024 from 0, as numbers, since the column is lent so
    pub editions: &'a [u8],
}

/// The entry of a column at this place, or another one past its end.
pub(crate) fn entry<T: Copy>(column: &[T], idx: usize, past: T) -> T
    ensures { result ≡ slice_index_or column.now idx past }
{
    column.get(idx).copied().unwrap_or(past)
}

impl<'a> Input<'a> {
    pub fn kind(&self, idx: usize) -> SyntaxKind
        ensures { result ≡ slice_index_or self.now.kinds.now idx end_of_file }
    {
        entry(self.kinds, idx, EOF)
    }

    pub fn contextual_kind(&self, idx: usize) -> SyntaxKind
        ensures { result ≡ slice_index_or self.now.contextual.now idx end_of_file }
    {
        entry(self.contextual, idx, EOF)
    }

    /// 0 past the end.
    pub fn edition(&self, idx: usize) -> u8
        ensures { result ≡ slice_index self.now.editions.now idx }
    {
        entry(self.editions, idx, 0)
    }

    /// False past the end.
    pub fn is_joint(&self, idx: usize) -> bool
        ensures { result ≡ joint_in self.now.kinds.now self.now.joint.now idx }
    {
        idx < self.kinds.len() && (entry(self.joint, idx / 64, 0) >> (idx % 64)) % 2 == 1
    }
}
