//! Runs and hosts on examples worked by hand, and the refusals of fill.

use crate::fill::fill;
use crate::host::Host;
use crate::plain::Plain;
use crate::raw::Raw;
use crate::run::{Run, Stop};
use refusals::Refusal;
use std::process::Abort;
use tokens::input::Input;
use tokens::rows::{Answer, Hook, Row};
use tokens::syntax_kind::*;

/// Only the kinds matter to the delivered hosts.
fn input<'a>(kinds: &'a [u16]) -> Input<'a> {
    Input {
        kinds,
        contextual: &[],
        joint: &[],
        editions: &[],
    }
}

fn run(tokens: usize, unclosed: bool) -> Run {
    Run { tokens, unclosed }
}

fn node(tokens: usize, kind: u16) -> Answer {
    Answer {
        tokens,
        kind: Some(kind),
        fault: false,
    }
}

fn faulty(tokens: usize, kind: u16) -> Answer {
    Answer {
        tokens,
        kind: Some(kind),
        fault: true,
    }
}

const FAULT: Answer = Answer {
    tokens: 0,
    kind: None,
    fault: true,
};

fn no_node(tokens: usize) -> Answer {
    Answer {
        tokens,
        kind: None,
        fault: false,
    }
}

#[test]
fn runs(rt: HostRuntime) {
    let none: &[u16] = &[];
    assert_eq!(rt; Run::of(none, Stop::Closer), run(0, false));
    // a ( b ] , c ) d: `]` closes `(`, and `)` ends the run
    let crossed = [IDENT, L_PAREN, IDENT, R_BRACK, COMMA, IDENT, R_PAREN, IDENT];
    assert_eq!(rt; Run::of(&crossed, Stop::Closer), run(6, false));
    assert_eq!(rt; Run::of(&crossed, Stop::Mark), run(4, false));
    // { ( : ) a
    let unclosed = [L_CURLY, L_PAREN, COLON, R_PAREN, IDENT];
    assert_eq!(rt; Run::of(&unclosed, Stop::Closer), run(5, true));
    assert_eq!(rt; Run::of(&unclosed, Stop::Mark), run(5, true));
    // a < b > c to the end
    let angles = [IDENT, L_ANGLE, IDENT, R_ANGLE, IDENT];
    assert_eq!(rt; Run::of(&angles, Stop::Mark), run(5, false));
    for kind in [R_PAREN, R_BRACK, R_CURLY] {
        assert_eq!(rt; Run::of(&[IDENT, kind], Stop::Closer), run(1, false));
        assert_eq!(rt; Run::of(&[IDENT, kind], Stop::Mark), run(1, false));
    }
    for kind in [COMMA, SEMICOLON, EQ, COLON] {
        assert_eq!(rt; Run::of(&[IDENT, kind], Stop::Closer), run(2, false));
        assert_eq!(rt; Run::of(&[IDENT, kind], Stop::Mark), run(1, false));
    }
}

#[test]
fn raw(rt: HostRuntime) {
    // ( a , [ b
    let kinds = [L_PAREN, IDENT, COMMA, L_BRACK, IDENT];
    let answers = [
        (0, faulty(5, TOKEN_TREE)),
        (1, node(1, TOKEN_TREE)),
        (2, FAULT),
        (3, faulty(2, TOKEN_TREE)),
        (4, node(1, TOKEN_TREE)),
        (5, FAULT),
        (usize::MAX, FAULT),
    ];
    for (place, answer) in answers {
        assert_eq!(rt; Raw.answer(Hook::Expr, input(&kinds), place), answer);
        assert_eq!(rt; Raw.answer(Hook::Literal, input(&kinds), place), answer);
    }
}

#[test]
fn plain(rt: HostRuntime) {
    // { a ( 1 ) , _ } true {
    let kinds = [
        L_CURLY, IDENT, L_PAREN, INT_NUMBER, R_PAREN, COMMA, UNDERSCORE, R_CURLY, TRUE_KW, L_CURLY,
    ];
    let answers = [
        (Hook::Expr, 0, FAULT),
        (Hook::Expr, 1, node(1, PATH_EXPR)),
        (Hook::Expr, 3, node(1, LITERAL)),
        (Hook::Expr, 8, node(1, LITERAL)),
        (Hook::Expr, 10, FAULT),
        (Hook::BlockExpr, 0, node(8, BLOCK_EXPR)),
        (Hook::BlockExpr, 2, FAULT),
        (Hook::BlockExpr, 9, faulty(1, BLOCK_EXPR)),
        (Hook::BlockExpr, 10, FAULT),
        (Hook::Literal, 1, no_node(0)),
        (Hook::Literal, 3, node(1, LITERAL)),
        (Hook::Literal, 10, no_node(0)),
        (Hook::ExprBlockContents, 1, no_node(6)),
        (Hook::ExprBlockContents, 4, no_node(0)),
        (Hook::ExprBlockContents, 9, no_node(1)),
        (Hook::Meta, 1, node(6, TOKEN_TREE_META)),
        (Hook::Meta, 4, FAULT),
        (Hook::Meta, 9, faulty(1, TOKEN_TREE_META)),
        (Hook::Pattern, 1, node(1, IDENT_PAT)),
        (Hook::Pattern, 3, FAULT),
        (Hook::PatternSingle, 6, node(1, WILDCARD_PAT)),
        (Hook::PatternSingle, 10, FAULT),
    ];
    for (hook, place, answer) in answers {
        assert_eq!(rt; Plain.answer(hook, input(&kinds), place), answer);
    }
}

const BLANK: Row = Row {
    expr: FAULT,
    block_expr: FAULT,
    literal: FAULT,
    expr_block_contents: FAULT,
    meta: FAULT,
    pattern: FAULT,
    pattern_single: FAULT,
};

/// The number and the place of the refusal.
fn parts(r: Result<(), Refusal>) -> Result<(), (u8, usize)> {
    match r {
        Ok(()) => Ok(()),
        Err(refusal) => Err((refusal.number(), refusal.place())),
    }
}

#[test]
fn fills(rt: HostRuntime) {
    let mut rows = [BLANK; 2];
    let input = Input {
        kinds: &[IDENT, COMMA],
        contextual: &[EOF, EOF],
        joint: &[0],
        editions: &[3, 3],
    };
    assert_eq!(rt; parts(fill(input, &Plain, &mut rows)), Ok(()));
    let ident = Row {
        expr: node(1, PATH_EXPR),
        block_expr: FAULT,
        literal: no_node(0),
        expr_block_contents: no_node(2),
        meta: node(2, TOKEN_TREE_META),
        pattern: node(1, IDENT_PAT),
        pattern_single: node(1, IDENT_PAT),
    };
    let comma = Row {
        literal: no_node(0),
        expr_block_contents: no_node(1),
        meta: node(1, TOKEN_TREE_META),
        ..BLANK
    };
    assert_eq!(rt; rows, [ident, comma]);
}

/// Two rows, for columns that are refused.
fn refused(rt: &impl Abort, input: Input, refusal: (u8, usize)) {
    let mut rows = [BLANK; 2];
    assert_eq!(rt; parts(fill(input, &Plain, &mut rows)), Err(refusal));
    assert_eq!(rt; rows, [BLANK; 2]);
}

#[test]
fn refusals(rt: HostRuntime) {
    let kinds: &[u16] = &[IDENT, COMMA];
    let contextual: &[u16] = &[EOF, EOF];
    let editions: &[u8] = &[0, 3];
    let good = Input {
        kinds,
        contextual,
        joint: &[0],
        editions,
    };
    refused(
        &rt,
        Input {
            kinds: &[COMMA; 4097],
            ..good
        },
        (1, 0),
    );
    // another number of rows than of tokens, and wrong kinds too
    refused(
        &rt,
        Input {
            kinds: &[EOF; 3],
            ..good
        },
        (2, 0),
    );
    refused(
        &rt,
        Input {
            kinds: &[EOF; 1],
            ..good
        },
        (2, 0),
    );
    refused(&rt, Input { joint: &[], ..good }, (2, 0));
    refused(
        &rt,
        Input {
            kinds: &[COMMA, EOF],
            ..good
        },
        (3, 1),
    );
    refused(
        &rt,
        Input {
            contextual: &[EOF, COMMA],
            ..good
        },
        (4, 1),
    );
    refused(
        &rt,
        Input {
            editions: &[4, 4],
            ..good
        },
        (5, 0),
    );
}
