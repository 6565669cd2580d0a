//! The laws of islands, each kept and broken.

use super::*;
use crate::syntax_kind::{COMMA, WHITESPACE, YIELD_EXPR};
use std::process::Abort;

const NODE: Answer = Answer {
    tokens: 1,
    kind: Some(ABI),
    fault: false,
};

/// A row that is lawful at each token, but for this answer.
fn row(hook: Hook, answer: Answer) -> Row {
    let mut row = Row {
        expr: NODE,
        block_expr: NODE,
        literal: NODE,
        expr_block_contents: NODE,
        meta: NODE,
        pattern: NODE,
        pattern_single: NODE,
    };
    match hook {
        Hook::Expr => row.expr = answer,
        Hook::BlockExpr => row.block_expr = answer,
        Hook::Literal => row.literal = answer,
        Hook::ExprBlockContents => row.expr_block_contents = answer,
        Hook::Meta => row.meta = answer,
        Hook::Pattern => row.pattern = answer,
        Hook::PatternSingle => row.pattern_single = answer,
    }
    row
}

/// At the first and at the last of three tokens, with a token of this kind there.
fn at_both_ends(rt: &impl Abort, kind: u16, hook: Hook, answer: Answer, expected: bool) {
    let kinds = [kind, COMMA, kind];
    let row = row(hook, answer);
    assert_eq!(rt; row.answer(hook), answer);
    assert_eq!(rt; lawful(&kinds, 0, &row), expected);
    assert_eq!(rt; lawful(&kinds, 2, &row), expected);
}

fn answer(tokens: usize, kind: Option<u16>, fault: bool) -> Answer {
    Answer {
        tokens,
        kind,
        fault,
    }
}

#[test]
fn tokens_exist(rt: HostRuntime) {
    let kinds = [COMMA, COMMA, COMMA];
    let answers = [
        (0, 3, true),
        (0, 4, false),
        (2, 1, true),
        (2, 2, false),
        (3, 0, true),
        (3, 1, false),
        (4, 0, true),
        (4, usize::MAX, false),
    ];
    for (place, tokens, expected) in answers {
        let contents = answer(tokens, None, false);
        assert_eq!(rt;
            lawful_answer(&kinds, place, Hook::ExprBlockContents, &contents),
            expected
        );
    }
}

#[test]
fn nodes_and_faults(rt: HostRuntime) {
    let node = Some(YIELD_EXPR);
    let answers = [
        // a node's kind
        (Hook::Expr, answer(1, Some(ABI), false), true),
        (Hook::Expr, answer(1, Some(WHITESPACE), false), false),
        (Hook::Expr, answer(1, Some(WHITESPACE), true), false),
        (Hook::Expr, answer(1, Some(__LAST - 1), false), true),
        (Hook::Expr, answer(1, Some(__LAST), false), false),
        (
            Hook::ExprBlockContents,
            answer(0, Some(__LAST), true),
            false,
        ),
        // a node and a token
        (Hook::Expr, answer(1, None, false), false),
        (Hook::BlockExpr, answer(0, node, false), false),
        (Hook::Meta, answer(0, None, false), false),
        (Hook::Pattern, answer(1, None, false), false),
        (Hook::PatternSingle, answer(0, node, false), false),
        (Hook::PatternSingle, answer(1, node, false), true),
        // or nothing, and any part of it
        (Hook::Literal, answer(0, None, false), true),
        (Hook::Literal, answer(1, None, false), false),
        (Hook::Literal, answer(0, node, false), false),
        (Hook::ExprBlockContents, answer(0, None, false), true),
        (Hook::ExprBlockContents, answer(1, None, false), true),
        (Hook::ExprBlockContents, answer(0, node, false), true),
        // or a fault
        (Hook::Expr, answer(0, None, true), true),
        (Hook::BlockExpr, answer(1, None, true), true),
        (Hook::Literal, answer(0, node, true), true),
        (Hook::PatternSingle, answer(0, None, true), true),
    ];
    for (hook, answer, expected) in answers {
        at_both_ends(&rt, COMMA, hook, answer, expected);
    }
}

#[test]
fn tokens_that_must_be_taken(rt: HostRuntime) {
    let tokens = [
        (L_CURLY, Hook::BlockExpr),
        (TRUE_KW, Hook::Literal),
        (FALSE_KW, Hook::Literal),
        (INT_NUMBER, Hook::Literal),
        (FLOAT_NUMBER, Hook::Literal),
        (CHAR, Hook::Literal),
        (BYTE, Hook::Literal),
        (STRING, Hook::Literal),
        (BYTE_STRING, Hook::Literal),
        (C_STRING, Hook::Literal),
        (IDENT, Hook::PatternSingle),
        (UNDERSCORE, Hook::PatternSingle),
    ];
    for (kind, hook) in tokens {
        at_both_ends(&rt, kind, hook, answer(0, None, true), false);
        at_both_ends(&rt, kind, hook, answer(1, None, true), true);
        at_both_ends(&rt, kind, Hook::Pattern, answer(0, None, true), true);
    }
    at_both_ends(
        &rt,
        INT_NUMBER,
        Hook::Literal,
        answer(0, None, false),
        false,
    );
}
