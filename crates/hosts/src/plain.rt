//! The plain host: it knows single tokens, blocks and brackets.

ghost use Rattle.std.specs.Prelude.{◌≡◌, slice_index_or};
ghost use Rattle.tokens.specs.Kinds.{EOF as end_of_file};
ghost use Rattle.hosts.specs.Answers.{one_token};
ghost use Rattle.hosts.specs.Plain.{literal_or, path_expr, token_pattern, block as block_of, plain_block, plain_contents, plain_ahead, plain_answer};

use crate::answers::{ahead, tree};
use crate::host::Host;
use crate::run::{Run, Stop};
use tokens::input::Input;
use tokens::rows::{Answer, Hook, is_literal};
use tokens::syntax_kind::{
    BLOCK_EXPR, EOF, IDENT, IDENT_PAT, L_CURLY, LITERAL, PATH_EXPR, SyntaxKind, TOKEN_TREE_META,
    UNDERSCORE, WILDCARD_PAT,
};

#[derive(Clone, Copy)]
pub struct Plain;

impl Host for Plain {
    ghost meaning = { λ _. plain_answer };

    fn answer(&self, hook: Hook, input: Input, place: usize) -> Answer {
        answer_ahead(hook, ahead(input.kinds, place))
    }
}

/// What lies at the first of these tokens.
fn answer_ahead(hook: Hook, ahead: &[u16]) -> Answer
    ensures { result ≡ plain_ahead hook ahead.now }
{
    let kind = first_kind(ahead);
    match hook {
        Hook::Expr => literal_or(path_expr(kind), kind),
        Hook::BlockExpr => block_expr(ahead),
        Hook::Literal => literal_or(Answer::NOTHING, kind),
        Hook::ExprBlockContents => expr_block_contents(ahead),
        Hook::Meta => tree(TOKEN_TREE_META, Run::of(ahead, Stop::Closer)),
        Hook::Pattern | Hook::PatternSingle => pattern(kind),
    }
}

/// EOF where there is no token.
fn first_kind(ahead: &[u16]) -> SyntaxKind
    ensures { result ≡ slice_index_or ahead.now 0 end_of_file }
{
    ahead.first().copied().unwrap_or(EOF)
}

/// A node of this kind around one token.
fn one_token(kind: SyntaxKind) -> Answer
    ensures { result ≡ one_token kind }
{
    Answer {
        tokens: 1,
        kind: Some(kind),
        fault: false,
    }
}

fn literal_or(other: Answer, kind: SyntaxKind) -> Answer
    ensures { result ≡ literal_or other kind }
{
    if is_literal(kind) {
        one_token(LITERAL)
    } else {
        other
    }
}

fn path_expr(kind: SyntaxKind) -> Answer
    ensures { result ≡ path_expr kind }
{
    if kind == IDENT {
        one_token(PATH_EXPR)
    } else {
        Answer::BARE_FAULT
    }
}

fn pattern(kind: SyntaxKind) -> Answer
    ensures { result ≡ token_pattern kind }
{
    match kind {
        IDENT => one_token(IDENT_PAT),
        UNDERSCORE => one_token(WILDCARD_PAT),
        _ => Answer::BARE_FAULT,
    }
}

/// The contents of a block are no node, and never a fault.
fn expr_block_contents(ahead: &[u16]) -> Answer
    ensures { result ≡ plain_contents ahead.now }
{
    Answer {
        tokens: Run::of(ahead, Stop::Closer).tokens,
        ..Answer::NOTHING
    }
}

fn block_expr(ahead: &[u16]) -> Answer
    ensures { result ≡ plain_block ahead.now }
{
    match ahead {
        [L_CURLY, inner @ ..] => block(inner),
        _ => Answer::BARE_FAULT,
    }
}

/// A block, by what follows its `{`: up to the closer, and with it, or to the end.
fn block(inner: &[u16]) -> Answer
    ensures { result ≡ block_of inner.now }
{
    let run = Run::of(inner, Stop::Closer);
    if run.tokens < inner.len() {
        Answer {
            tokens: run.tokens + 2,
            kind: Some(BLOCK_EXPR),
            fault: false,
        }
    } else {
        Answer {
            tokens: inner.len() + 1,
            kind: Some(BLOCK_EXPR),
            fault: true,
        }
    }
}
