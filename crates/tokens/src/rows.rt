//! Rows: what lies in expressions, patterns and attributes, answered beforehand for each token place.

ghost use Rattle.std.specs.Prelude.{◌≡◌};
ghost use Rattle.tokens.specs.Islands.{hook_number, answer_of, has_nothing, has_node, exists_from, names_node, is_literal, may_lack_fault, may_answer, must_take, takes_enough, lawful_answer, lawful_row};

use crate::input::entry;
use crate::syntax_kind::__LAST;

#[cfg(test)]
mod tests;

use crate::syntax_kind::{
    ABI, BYTE, BYTE_STRING, C_STRING, CHAR, EOF, FALSE_KW, FLOAT_NUMBER, IDENT, INT_NUMBER,
    L_CURLY, STRING, SyntaxKind, TRUE_KW, UNDERSCORE,
};

/// What is asked at a token place: a function of the Rust that an answer stands for.
#[derive(Clone, Copy, PartialEq, Eq, Debug)]
pub enum Hook {
    Expr = 1,
    BlockExpr,
    Literal,
    ExprBlockContents,
    Meta,
    Pattern,
    PatternSingle,
}

impl Hook {
    /// The hooks are counted from 1.
    pub fn number(self) -> u8
        ensures { result ≡ hook_number self }
    {
        // the number that stands at each variant
        self as u8
    }
}

const HOOKS: [Hook; 7] = [
    Hook::Expr,
    Hook::BlockExpr,
    Hook::Literal,
    Hook::ExprBlockContents,
    Hook::Meta,
    Hook::Pattern,
    Hook::PatternSingle,
];

/// What lies at a token place, for one hook.
#[derive(Clone, Copy, PartialEq, Eq, Debug)]
pub struct Answer {
    /// how many raw tokens it takes
    pub tokens: usize,
    /// the kind of the node around them, if there is one
    pub kind: Option<SyntaxKind>,
    pub fault: bool,
}

impl Answer {
    pub const NOTHING: Answer = Answer {
        tokens: 0,
        kind: None,
        fault: false,
    };

    /// A fault, and nothing else.
    pub const BARE_FAULT: Answer = Answer {
        tokens: 0,
        kind: None,
        fault: true,
    };
}

/// The answers at a token place, one for each hook.
#[derive(Clone, Copy, PartialEq, Eq, Debug)]
pub struct Row {
    pub expr: Answer,
    pub block_expr: Answer,
    pub literal: Answer,
    pub expr_block_contents: Answer,
    pub meta: Answer,
    pub pattern: Answer,
    pub pattern_single: Answer,
}

impl Row {
    pub fn answer(&self, hook: Hook) -> Answer
        ensures { result ≡ answer_of self.now hook }
    {
        match hook {
            Hook::Expr => self.expr,
            Hook::BlockExpr => self.block_expr,
            Hook::Literal => self.literal,
            Hook::ExprBlockContents => self.expr_block_contents,
            Hook::Meta => self.meta,
            Hook::Pattern => self.pattern,
            Hook::PatternSingle => self.pattern_single,
        }
    }
}

impl Answer {
    /// No tokens and no node.
    fn has_nothing(&self) -> bool
        ensures { result ≡ has_nothing self.now }
    {
        self.tokens == 0 && self.kind.is_none()
    }

    /// A node around at least one token.
    fn has_node(&self) -> bool
        ensures { result ≡ has_node self.now }
    {
        self.tokens > 0 && self.kind.is_some()
    }

    /// Its kind, if it has one, is a node's.
    fn names_node(&self) -> bool
        ensures { result ≡ names_node self.now }
    {
        self.kind.is_none_or(|kind| ABI <= kind && kind < __LAST)
    }
}

/// A literal's first token, which is all of it.
pub fn is_literal(kind: SyntaxKind) -> bool
    ensures { result ≡ is_literal kind }
{
    matches!(
        kind,
        TRUE_KW
            | FALSE_KW
            | INT_NUMBER
            | FLOAT_NUMBER
            | CHAR
            | BYTE
            | STRING
            | BYTE_STRING
            | C_STRING
    )
}

/// What this hook may answer: with a fault, anything.
fn may_answer(hook: Hook, answer: &Answer) -> bool
    ensures { result ≡ may_answer hook answer.now }
{
    answer.fault || may_lack_fault(hook, answer)
}

/// What this hook may answer without a fault.
fn may_lack_fault(hook: Hook, answer: &Answer) -> bool
    ensures { result ≡ may_lack_fault hook answer.now }
{
    match hook {
        Hook::Literal => answer.has_node() || answer.has_nothing(),
        Hook::ExprBlockContents => true,
        _ => answer.has_node(),
    }
}

/// This hook takes a token of this kind, fault or not.
fn must_take(hook: Hook, kind: SyntaxKind) -> bool
    ensures { result ≡ must_take hook kind }
{
    match hook {
        Hook::BlockExpr => kind == L_CURLY,
        Hook::Literal => is_literal(kind),
        Hook::PatternSingle => matches!(kind, IDENT | UNDERSCORE),
        _ => false,
    }
}

/// It takes a token where the hook has to take one of this kind.
fn takes_enough(hook: Hook, kind: SyntaxKind, answer: &Answer) -> bool
    ensures { result ≡ takes_enough hook kind answer.now }
{
    answer.tokens > 0 || !must_take(hook, kind)
}

/// There are so many tokens from this place on.
fn exists_from(kinds: &[u16], place: usize, tokens: usize) -> bool
    ensures { result ≡ exists_from kinds.now place tokens }
{
    tokens <= kinds.len().saturating_sub(place)
}

/// The answer keeps the laws of islands.
#[tactic(auto, unfolding(crate::specs::Islands::lawful_answer))]
fn lawful_answer(kinds: &[u16], place: usize, hook: Hook, answer: &Answer) -> bool
    ensures { result ≡ lawful_answer kinds.now place hook answer.now }
{
    exists_from(kinds, place, answer.tokens)
        && answer.names_node()
        && may_answer(hook, answer)
        && takes_enough(hook, entry(kinds, place, EOF), answer)
}

/// Every answer of the row keeps the laws of islands at this place.
pub fn lawful(kinds: &[u16], place: usize, row: &Row) -> bool
    ensures { result ≡ lawful_row kinds.now place row.now }
{
    HOOKS.iter().all(|hook| lawful_answer(kinds, place, *hook, &row.answer(*hook)))
}
