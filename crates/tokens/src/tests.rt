//! The reads of the columns, and token sets.

ghost use Rattle.std.specs.Prelude.{◌≡◌};
ghost use Rattle.tokens.specs.Sets.{has, TYPE_FIRST as what_a_type_begins_with};

use crate::input::Input;
use crate::sets::{GENERIC_ARG_RECOVERY_SET, ITEM_RECOVERY_SET, PARAM_OR_ATTR_FIRST, TYPE_FIRST};
use crate::syntax_kind::{
    COLON, COMMA, DO_KW, DOT, ELSE_KW, EOF, IDENT, L_CURLY, MACRO_KW, NORETURN_KW, NOSTACK_KW,
    OUTER_DOC_COMMENT, R_ANGLE, SEMICOLON, SHEBANG, TOMBSTONE, WHITESPACE,
};
use crate::token_set::TokenSet;

#[test]
fn reads(rt: HostRuntime) {
    let input = Input {
        kinds: &[IDENT, DOT],
        contextual: &[SHEBANG, EOF],
        joint: &[0b10],
        editions: &[2, 3],
    };
    let tokens = [
        (0, IDENT, SHEBANG, 2, false),
        (1, DOT, EOF, 3, true),
        (2, EOF, EOF, 0, false),
        (usize::MAX, EOF, EOF, 0, false),
    ];
    for (idx, kind, contextual, edition, joint) in tokens {
        assert_eq!(rt; input.kind(idx), kind);
        assert_eq!(rt; input.contextual_kind(idx), contextual);
        assert_eq!(rt; input.edition(idx), edition);
        assert_eq!(rt; input.is_joint(idx), joint);
    }
}

/// The first and the last bit of a word, the first of the next one, and a bit that is set past the last token.
#[test]
fn joint_bits(rt: HostRuntime) {
    let input = Input {
        kinds: &[DOT; 66],
        contextual: &[EOF; 66],
        joint: &[0x8000_0000_0000_0001, 0b101],
        editions: &[0; 66],
    };
    let bits = [
        (0, true),
        (1, false),
        (62, false),
        (63, true),
        (64, true),
        (65, false),
        (66, false),
        (128, false),
    ];
    for (idx, joint) in bits {
        assert_eq!(rt; input.is_joint(idx), joint);
    }
}

/// A caller's proof that a table answers what its list answers is one line.
fn begins_type(kind: u16) -> bool
    ensures { has what_a_type_begins_with kind ≡ result }
{
    TYPE_FIRST.contains(kind)
}

/// The first and the last bit of each word, and kinds that no token has.
#[test]
fn words_of_a_set(rt: HostRuntime) {
    let set = TokenSet::new(&[TOMBSTONE, DO_KW, NOSTACK_KW, SHEBANG, WHITESPACE, u16::MAX]);
    let other = TokenSet::new(&[ELSE_KW, NORETURN_KW]);
    let kinds = [
        (TOMBSTONE, true, false),
        (EOF, false, false),
        (DO_KW, true, false),
        (ELSE_KW, false, true),
        (NORETURN_KW, false, true),
        (NOSTACK_KW, true, false),
        (SHEBANG, true, false),
        (WHITESPACE, false, false),
        (u16::MAX, false, false),
    ];
    for (kind, in_set, in_other) in kinds {
        assert_eq!(rt; set.contains(kind), in_set);
        assert_eq!(rt; other.contains(kind), in_other);
        assert_eq!(rt; set.union(other).contains(kind), in_set || in_other);
        assert_eq!(rt; TokenSet::EMPTY.contains(kind), false);
    }
}

#[test]
fn sets_of_the_grammar(rt: HostRuntime) {
    let members = [
        (TYPE_FIRST, IDENT, true),
        (TYPE_FIRST, COLON, true),
        (TYPE_FIRST, L_CURLY, false),
        (TYPE_FIRST, u16::MAX, false),
        (ITEM_RECOVERY_SET, SEMICOLON, true),
        (ITEM_RECOVERY_SET, MACRO_KW, true),
        (ITEM_RECOVERY_SET, COMMA, false),
        (PARAM_OR_ATTR_FIRST, DOT, true),
        (PARAM_OR_ATTR_FIRST, OUTER_DOC_COMMENT, true),
        (PARAM_OR_ATTR_FIRST, SEMICOLON, false),
        (GENERIC_ARG_RECOVERY_SET, R_ANGLE, true),
        (GENERIC_ARG_RECOVERY_SET, SHEBANG, false),
    ];
    for (set, kind, member) in members {
        assert_eq!(rt; set.contains(kind), member);
    }
    assert_eq!(rt; begins_type(IDENT), true);
}
