//! The calls of the parser that look at tokens and take them.

ghost use Rattle.std.specs.Prelude.{◌≡◌, ◌+◌, ◌≤◌, true, ◌==◌};
ghost use Rattle.event_log.specs.Program.{kind_at, contextual_at, edition_at, followed_by, ahead, present, spells, readable};
ghost use Rattle.event_log.specs.Program.Prog.{take, fault};
ghost use Rattle.event_log.specs.Model.{env, Meets};
ghost use Rattle.event_log.specs.Steps.{bump as bumps, eat as eats, bump_any, bump_remap, eat_contextual, expected_kind, err, expect as expects};

use super::Parser;
use crate::event::{EXPECTED_KIND, Record};
use refusals::Refusal;
use tokens::composite::{RawTokens, parts, width};
use tokens::syntax_kind::{EOF, SyntaxKind, TOMBSTONE};

impl<'a> Parser<'a> {
    /// The kind of the next raw token: EOF at the end.
    pub fn current(&self) -> SyntaxKind
        ensures { result ≡ kind_at (env self.now) self.now.place }
    {
        self.input.kind(self.place)
    }

    // The Rust asserts that it looks at most 3 tokens ahead. So do the clauses of the three calls that are told how far.

    /// The kind of the raw token that is n ahead: EOF past the end.
    pub fn nth(&self, n: usize) -> SyntaxKind
        requires { n ≤ 3 }
        ensures { result ≡ kind_at (env self.now) (self.now.place + n) }
    {
        self.input.kind(self.place + n)
    }

    /// A raw token of this kind follows the one at this place, with no space between them.
    fn follows(&self, place: usize, kind: SyntaxKind) -> bool
        requires { place ≤ 4100 }
        ensures { result ≡ followed_by (env self.now) place kind }
    {
        self.input.is_joint(place) && self.input.kind(place + 1) == kind
    }

    /// A token of this kind begins n raw tokens ahead; asked for `:` at `::`, the answer is yes.
    #[tactic(auto, unfolding(crate::specs::Program::raw_ahead))]
    pub fn nth_at(&self, n: usize, kind: SyntaxKind) -> bool
        requires { n ≤ 3 }
        ensures { ahead (env self.now) (self.now.place + n) kind ≡ result }
    {
        let place = self.place + n;
        match parts(kind) {
            RawTokens::One(first) => self.input.kind(place) == first,
            RawTokens::Two(first, second) => {
                self.input.kind(place) == first && self.follows(place, second)
            }
            RawTokens::Three(first, second, third) => {
                self.input.kind(place) == first
                    && self.follows(place, second)
                    && self.follows(place + 1, third)
            }
        }
    }

    /// A token of this kind is next.
    pub fn at(&self, kind: SyntaxKind) -> bool
        ensures { ahead (env self.now) self.now.place kind ≡ result }
    {
        self.nth_at(0, kind)
    }

    /// A token of this kind is next, before the end.
    fn is_present(&self, kind: SyntaxKind) -> bool
        ensures { present (env self.now) self.now.place kind ≡ result }
    {
        self.current() != EOF && self.at(kind)
    }

    /// The next raw token may be read as this keyword.
    pub fn at_contextual_kw(&self, kw: SyntaxKind) -> bool
        ensures { (contextual_at (env self.now) self.now.place == kw) ≡ result }
    {
        self.input.contextual_kind(self.place) == kw
    }

    /// The next raw token, before the end, may be read as this keyword, which is not the end.
    fn is_readable(&self, kw: SyntaxKind) -> bool
        ensures { readable (env self.now) self.now.place kw ≡ result }
    {
        self.current() != EOF && kw != EOF && self.at_contextual_kw(kw)
    }

    /// The raw token that is n ahead may be read as this keyword.
    pub fn nth_at_contextual_kw(&self, n: usize, kw: SyntaxKind) -> bool
        requires { n ≤ 3 }
        ensures { (contextual_at (env self.now) (self.now.place + n) == kw) ≡ result }
    {
        self.input.contextual_kind(self.place + n) == kw
    }

    /// The edition that the next raw token is read in: 0 at the end.
    pub fn current_edition(&self) -> u8
        ensures { result ≡ edition_at (env self.now) self.now.place }
    {
        self.input.edition(self.place)
    }

    /// Takes a token of this kind, which the next raw tokens are known to spell.
    fn do_bump(&mut self, kind: SyntaxKind, width: u8) -> Result<(), Refusal>
        requires { spells (env self.old) self.old.place kind width ≡ true }
        ensures { Meets (take kind width) self.old self.new result }
    {
        self.push(Record::Token { kind, width })?;
        // `as` is proved to lose nothing; `from` would add an equation to the proof.
        self.place += width as usize;
        Ok(())
    }

    /// Takes the next raw token, if there is one.
    pub fn bump_any(&mut self) -> Result<(), Refusal>
        ensures { Meets bump_any self.old self.new result }
    {
        let next = self.current();
        if next == EOF {
            return Ok(());
        }
        self.do_bump(next, 1)
    }

    /// Takes a token of this kind, which is next.
    pub fn bump(&mut self, kind: SyntaxKind) -> Result<(), Refusal>
        requires { present (env self.old) self.old.place kind ≡ true }
        ensures { Meets (bumps kind) self.old self.new result }
    {
        self.do_bump(kind, width(kind))
    }

    /// Takes a token of this kind, if it is next; answers whether it was.
    pub fn eat(&mut self, kind: SyntaxKind) -> Result<bool, Refusal>
        ensures { Meets (eats kind) self.old self.new result }
    {
        if !self.is_present(kind) {
            return Ok(false);
        }
        self.bump(kind)?;
        Ok(true)
    }

    /// Takes the next raw token as this keyword, which it can be read as.
    pub fn bump_remap(&mut self, kind: SyntaxKind) -> Result<(), Refusal>
        requires { readable (env self.old) self.old.place kind ≡ true }
        ensures { Meets (bump_remap kind) self.old self.new result }
    {
        self.do_bump(kind, 1)
    }

    /// Takes the next raw token as this keyword, if it can be read so; answers whether it can.
    pub fn eat_contextual_kw(&mut self, kind: SyntaxKind) -> Result<bool, Refusal>
        ensures { Meets (eat_contextual kind) self.old self.new result }
    {
        if !self.is_readable(kind) {
            return Ok(false);
        }
        self.bump_remap(kind)?;
        Ok(true)
    }

    /// Records an error that carries no kind. Any number may be one: an enum would ask more of callers.
    pub fn error(&mut self, number: u8) -> Result<(), Refusal>
        ensures { Meets (err number) self.old self.new result }
    {
        self.push(Record::Error {
            number,
            kind: TOMBSTONE,
        })
    }

    /// Records that a token of this kind was expected.
    pub fn expected(&mut self, kind: SyntaxKind) -> Result<(), Refusal>
        ensures { Meets (fault expected_kind kind) self.old self.new result }
    {
        self.push(Record::Error {
            number: EXPECTED_KIND,
            kind,
        })
    }

    /// Takes a token of this kind, or records that it was expected; answers whether it was there.
    pub fn expect(&mut self, kind: SyntaxKind) -> Result<bool, Refusal>
        ensures { Meets (expects kind) self.old self.new result }
    {
        if self.eat(kind)? {
            return Ok(true);
        }
        self.expected(kind)?;
        Ok(false)
    }
}
