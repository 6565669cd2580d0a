//! Reads a token file, bit by bit, into lent columns.
#![tactic(auto)]

ghost use Rattle.std.specs.Prelude.{◌≡◌, ℕ, ◌+◌, ◌*◌, ◌^◌, ◌<◌, ◌≤◌, ◌↔◌, IsTrue, length, drop, slice_index_or, IfOk, MatchResult};
ghost use Rattle.file.specs.TokenFile.{bit_at, number_at, token_at, kind_of, contextual_of, joint_of, edition_of, tokens_of, words_for, joint_word, JointBits, lent, left, Reads};

use refusals::{Layer, Refusal};
use tokens::input::MAX_TOKENS;

#[cfg(test)]
mod tests;

/// The bits of the count, which stands before the tokens.
const COUNT_BITS: usize = 16;

/// The bits of a token: kind 8, contextual kind 8, joint 1, edition 2.
const TOKEN_BITS: usize = 19;

/// Where in a token its contextual kind begins.
const CONTEXTUAL: usize = 8;

/// Where in a token its joint bit stands.
const JOINT: usize = 16;

/// Where in a token its edition begins.
const EDITION: usize = 17;

/// Bit `n` of the file: the first bit of a byte is its most significant.
fn bit(bytes: &[u8], n: usize) -> u8
    requires { n < 8 * length bytes.now }
    ensures { result ≡ bit_at bytes.now n }
{
    (bytes[n / 8] >> (7 - n % 8)) % 2
}

/// The number of `width` bits from bit `from` on, the most significant first.
fn number(bytes: &[u8], from: usize, width: usize) -> u16
    requires { (from + width ≤ 8 * length bytes.now) × ((from + width < 2 ^ 64) × (width ≤ 16)) }
    ensures { result ≡ number_at bytes.now from width }
{
    let mut value = 0;
    for i in 0..width {
        value = 2 * value + u16::from(bit(bytes, from + i));
    }
    value
}

/// The first bit of token `i`, or the end of `i` tokens.
fn token_start(i: usize) -> usize
    requires { i ≤ 4096 }
    ensures { result ≡ token_at i }
{
    COUNT_BITS + TOKEN_BITS * i
}

/// A file that has all its tokens, and nothing behind them.
#[derive(Clone, Copy)]
struct TokenFile<'a> {
    bytes: &'a [u8],
    /// how many tokens it has
    count: usize,
    ghost few: { count ≤ 4096 },
    ghost held: { token_at count ≤ 8 * length bytes.now },
}

// That a token is one of the file is asked of each part: a type for a token would be made for an entry only to be taken apart.
impl<'a> TokenFile<'a> {
    fn open(bytes: &'a [u8]) -> Result<TokenFile<'a>, Refusal>
        ensures { MatchResult result (λ file. (file.bytes.now ≡ bytes.now) × (tokens_of bytes.now ≡ Ok file.count)) (λ e. tokens_of bytes.now ≡ Err e) }
    {
        if bytes.len() < 2 {
            return Err(Refusal::FileShort);
        }
        let count = usize::from(number(bytes, 0, COUNT_BITS));
        if count > MAX_TOKENS {
            return Err(Refusal::TooManyTokens { layer: Layer::File });
        }
        let end = token_start(count);
        let size = end.div_ceil(8);
        if bytes.len() < size {
            return Err(Refusal::FileShort);
        }
        if bytes.len() > size || number(bytes, end, 8 * size - end) != 0 {
            return Err(Refusal::FileLong);
        }
        Ok(TokenFile { bytes, count })
    }

    /// The kind that stands `offset` bits into token `i`: its own, or its contextual one.
    fn kind(&self, i: usize, offset: usize) -> u16
        requires { (i < self.now.count) × (offset ≤ 8) }
        ensures { result ≡ number_at self.now.bytes.now (token_at i + offset) 8 }
    {
        number(self.bytes, token_start(i) + offset, 8)
    }

    fn joint_bit(&self, i: usize) -> u8
        requires { i < self.now.count }
        ensures { result ≡ joint_of self.now.bytes.now i }
    {
        bit(self.bytes, token_start(i) + JOINT)
    }

    fn edition(&self, i: usize) -> u8
        requires { i < self.now.count }
        ensures { result ≡ edition_of self.now.bytes.now i }
    {
        // `as` is proved to lose nothing; `try_from` would answer an error that cannot come.
        number(self.bytes, token_start(i) + EDITION, 2) as u8
    }

    /// The joint bits of the tokens from 64 `w` on, the first the least significant; the bits past the last token are 0.
    fn joint_word(&self, w: usize) -> u64
        requires { w < words_for self.now.count }
        ensures { result ≡ joint_word self.now.bytes.now self.now.count w }
    {
        let first = 64 * w;
        let mut word = 0;
        for b in 0..(self.count - first).min(64) {
            word += u64::from(self.joint_bit(first + b)) << b;
        }
        word
    }
}

/// Writes `entry(i)` at each `i` below `count`.
fn write_front<T: Copy, F: Fn(usize) -> T>(column: &mut [T], count: usize, entry: F)
    requires room { count ≤ length column.old }
    requires callable { (i : ℕ) → i < count → F.pre entry i }
    ensures front { (i : ℕ) (d : T) → i < count → F.post entry i (slice_index_or column.new i d) }
    ensures rest { drop count column.new ≡ drop count column.old }
{
    for (i, slot) in column[..count].iter_mut().enumerate() {
        *slot = entry(i);
    }
}

/// The columns that a file is read into.
#[derive(Drop)]
pub struct Columns<'a> {
    pub kinds: &'a mut [u16],
    pub contextual: &'a mut [u16],
    pub joint: &'a mut [u64],
    pub editions: &'a mut [u8],
}

impl Columns<'_> {
    /// Whether so many tokens fit.
    fn fits(&self, count: usize) -> bool
        ensures { IsTrue result ↔ ((count ≤ length self.now.kinds.now) × (count ≤ length self.now.contextual.now) × (words_for count ≤ length self.now.joint.now) × (count ≤ length self.now.editions.now)) }
    {
        count <= self.kinds.len()
            && count <= self.contextual.len()
            && count.div_ceil(64) <= self.joint.len()
            && count <= self.editions.len()
    }
}

/// Reads the file into the columns, and answers how many tokens it has. In `joint`, token i is at bit i modulo 64
/// of word i divided by 64, the lowest bit being 0. A refusal leaves the columns as they are, and what lies past
/// the last token, or past the last word of joint bits, always stays.
pub fn read_file(bytes: &[u8], columns: Columns<'_>) -> Result<usize, Refusal>
    ensures reads { Reads bytes.now (lent columns.entry) (left columns.exit) result }
    ensures joint_bits { IfOk result (λ n. JointBits bytes.now n (left columns.exit).joint) }
{
    let file = TokenFile::open(bytes)?;
    let count = file.count;
    if !columns.fits(count) {
        return Err(Refusal::ColumnShort);
    }
    let Columns {
        kinds,
        contextual,
        joint,
        editions,
    } = columns;
    write_front(kinds, count, |i| file.kind(i, 0));
    write_front(contextual, count, |i| file.kind(i, CONTEXTUAL));
    write_front(joint, count.div_ceil(64), |w| file.joint_word(w));
    write_front(editions, count, |i| file.edition(i));
    Ok(count)
}
