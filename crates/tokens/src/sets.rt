//! The token sets of the grammar, as tables.

ghost use Rattle.std.specs.Prelude.{◌≡◌, true};
ghost use Rattle.tokens.specs.Sets.{grammar_sets};
ghost use Rattle.tokens.specs.TokenSets.{EachStandsFor, by_the_lists};

use crate::syntax_kind::{
    AMP, ASYNC_KW, BANG, BOX_KW, BYTE, BYTE_STRING, C_STRING, CHAR, COLON, COMMA, CONST_KW,
    CRATE_KW, DOT, DYN_KW, ENUM_KW, EXTERN_KW, FALSE_KW, FLOAT_NUMBER, FN_KW, FOR_KW, IDENT,
    IMPL_KW, INT_NUMBER, L_ANGLE, L_BRACK, L_CURLY, L_PAREN, LET_KW, LIFETIME_IDENT, MACRO_KW,
    MINUS, MOD_KW, MUT_KW, OUTER_DOC_COMMENT, POUND, PUB_KW, QUESTION, R_ANGLE, R_BRACK, R_CURLY,
    R_PAREN, REF_KW, SELF_KW, SELF_TYPE_KW, SEMICOLON, STAR, STATIC_KW, STRING, STRUCT_KW,
    SUPER_KW, TRAIT_KW, TRUE_KW, UNDERSCORE, UNSAFE_KW, USE_KW,
};
use crate::token_set::TokenSet;

/// A table: the set of all that is in these sets, and of these kinds. A constant calls no function, so this stands for `TokenSet::new` and `union`.
/// Each kind is shifted into its own word alone, by a cast of the test for it.
macro_rules! token_set {
    ($($set:ident |)* [$($kind:ident),*]) => {
        TokenSet {
            words: [
                0 $(| $set.words[0])* $(| (($kind < 64) as u64) << ($kind % 64))*,
                0 $(| $set.words[1])* $(| (($kind / 64 == 1) as u64) << ($kind % 64))*,
                0 $(| $set.words[2])* $(| (($kind >= 128) as u64) << ($kind % 64))*,
            ],
        }
    };
    ($($set:ident)|*) => {
        token_set!($($set |)* [])
    };
}

pub const OUTER_ATTR_FIRST: TokenSet = token_set!([POUND, OUTER_DOC_COMMENT]);

pub const VISIBILITY_FIRST: TokenSet = token_set!([PUB_KW]);

/// The name in a segment of a path.
pub const PATH_NAME_REF_KINDS: TokenSet = token_set!([
    IDENT,
    SELF_KW,
    SUPER_KW,
    CRATE_KW,
    SELF_TYPE_KW
]);

/// COLON stands for `::`, whose first raw token it is.
pub const PATH_FIRST: TokenSet = token_set!([
    IDENT,
    SELF_KW,
    SUPER_KW,
    CRATE_KW,
    SELF_TYPE_KW,
    COLON,
    L_ANGLE
]);

pub const TYPE_FIRST: TokenSet = token_set!(
    PATH_FIRST
        | [
            L_PAREN,
            L_BRACK,
            L_ANGLE,
            BANG,
            STAR,
            AMP,
            UNDERSCORE,
            FN_KW,
            UNSAFE_KW,
            EXTERN_KW,
            FOR_KW,
            IMPL_KW,
            DYN_KW,
            SELF_TYPE_KW,
            LIFETIME_IDENT
        ]
);

pub const TYPE_RECOVERY_SET: TokenSet = token_set!([
    R_PAREN, R_BRACK, R_CURLY, R_ANGLE, COMMA, PUB_KW
]);

/// What follows `dyn` where it is read as a keyword in edition 2015.
pub const WEAK_DYN_PATH_FIRST: TokenSet = token_set!([
    IDENT,
    SELF_KW,
    SUPER_KW,
    CRATE_KW,
    SELF_TYPE_KW,
    LIFETIME_IDENT,
    QUESTION,
    FOR_KW,
    L_PAREN
]);

pub const ITEM_RECOVERY_SET: TokenSet = token_set!([
    FN_KW, STRUCT_KW, ENUM_KW, IMPL_KW, TRAIT_KW, CONST_KW, ASYNC_KW, UNSAFE_KW, EXTERN_KW,
    STATIC_KW, LET_KW, MOD_KW, PUB_KW, CRATE_KW, USE_KW, MACRO_KW, SEMICOLON
]);

pub const TUPLE_FIELD_FIRST: TokenSet = token_set!(
    TYPE_FIRST | OUTER_ATTR_FIRST | VISIBILITY_FIRST
);

/// What a token tree begins with.
pub const OPENING: TokenSet = token_set!([L_CURLY, L_BRACK, L_PAREN]);

pub const LITERAL_FIRST: TokenSet = token_set!([
    TRUE_KW,
    FALSE_KW,
    INT_NUMBER,
    FLOAT_NUMBER,
    BYTE,
    CHAR,
    STRING,
    BYTE_STRING,
    C_STRING
]);

/// The literals that are no keywords.
pub const LITERALS: TokenSet = token_set!([
    BYTE,
    BYTE_STRING,
    CHAR,
    C_STRING,
    FLOAT_NUMBER,
    INT_NUMBER,
    STRING
]);

pub const EXPR_RECOVERY_SET: TokenSet = token_set!([L_PAREN, R_CURLY, R_PAREN, R_BRACK, COMMA]);

pub const PATTERN_FIRST: TokenSet = token_set!(
    LITERAL_FIRST
        | PATH_FIRST
        | [
            BOX_KW, REF_KW, MUT_KW, CONST_KW, L_PAREN, L_BRACK, AMP, UNDERSCORE, MINUS, DOT, BANG
        ]
);

/// Where the path of an expression stops when the name of a segment is missing.
pub const EXPR_PATH_SEGMENT_RECOVERY_SET: TokenSet = token_set!(
    EXPR_RECOVERY_SET | ITEM_RECOVERY_SET
);

/// The same, in the path of a visibility.
pub const VIS_PATH_SEGMENT_RECOVERY_SET: TokenSet = token_set!(ITEM_RECOVERY_SET | [R_PAREN]);

/// What a type begins with and no pattern does. A constant may name only so much, too little for PATTERN_FIRST and TYPE_FIRST together.
const TYPE_ONLY_FIRST: TokenSet = token_set!([
    STAR,
    FN_KW,
    UNSAFE_KW,
    EXTERN_KW,
    FOR_KW,
    IMPL_KW,
    DYN_KW,
    LIFETIME_IDENT
]);

/// What a pattern or a type begins with.
pub const PARAM_FIRST: TokenSet = token_set!(PATTERN_FIRST | TYPE_ONLY_FIRST);

pub const PARAM_OR_ATTR_FIRST: TokenSet = token_set!(
    PATTERN_FIRST | TYPE_ONLY_FIRST | OUTER_ATTR_FIRST
);

pub const GENERIC_ARG_FIRST: TokenSet = token_set!(
    TYPE_FIRST
        | [
            LIFETIME_IDENT,
            IDENT,
            L_CURLY,
            TRUE_KW,
            FALSE_KW,
            MINUS,
            INT_NUMBER,
            FLOAT_NUMBER,
            CHAR,
            BYTE,
            STRING,
            BYTE_STRING,
            C_STRING
        ]
);

pub const GENERIC_ARG_RECOVERY_SET: TokenSet = token_set!([R_ANGLE, COMMA]);

pub const GENERIC_PARAM_FIRST: TokenSet = token_set!([IDENT, LIFETIME_IDENT, CONST_KW]);

pub const GENERIC_PARAM_OR_ATTR_FIRST: TokenSet = token_set!(
    GENERIC_PARAM_FIRST | OUTER_ATTR_FIRST
);

/// What `use<..>` captures.
pub const USE_BOUND_FIRST: TokenSet = token_set!([SELF_TYPE_KW, IDENT, LIFETIME_IDENT]);

/// Every table, in the order of the lists of kinds that they stand for.
pub fn tables() -> [TokenSet; 24]
    ensures { EachStandsFor result grammar_sets }
{
    by_lists()
}

/// The same, told by their words: the lists are put into words and compared.
fn by_lists() -> [TokenSet; 24]
    ensures { by_the_lists result grammar_sets ≡ true }
{
    [
        TokenSet::EMPTY,
        OUTER_ATTR_FIRST,
        VISIBILITY_FIRST,
        PATH_NAME_REF_KINDS,
        PATH_FIRST,
        TYPE_FIRST,
        TYPE_RECOVERY_SET,
        WEAK_DYN_PATH_FIRST,
        ITEM_RECOVERY_SET,
        TUPLE_FIELD_FIRST,
        OPENING,
        LITERAL_FIRST,
        LITERALS,
        EXPR_RECOVERY_SET,
        PATTERN_FIRST,
        EXPR_PATH_SEGMENT_RECOVERY_SET,
        VIS_PATH_SEGMENT_RECOVERY_SET,
        PARAM_FIRST,
        PARAM_OR_ATTR_FIRST,
        GENERIC_ARG_FIRST,
        GENERIC_ARG_RECOVERY_SET,
        GENERIC_PARAM_FIRST,
        GENERIC_PARAM_OR_ATTR_FIRST,
        USE_BOUND_FIRST,
    ]
}
