//! Tokens that are made of several raw ones, with no space between them.

ghost use Rattle.std.specs.Prelude.{◌≡◌};
ghost use Rattle.tokens.specs.Parts.{parts as parts_of, width as width_of};

use crate::syntax_kind::*;

/// The raw tokens that a token is made of, by their kinds.
#[derive(Clone, Copy, PartialEq, Eq, Debug)]
pub enum RawTokens {
    One(SyntaxKind),
    Two(SyntaxKind, SyntaxKind),
    Three(SyntaxKind, SyntaxKind, SyntaxKind),
}

/// The raw tokens that a token of this kind is made of.
#[tactic(auto, unfolding(crate::specs::Parts::parts))]
pub fn parts(kind: SyntaxKind) -> RawTokens
    ensures { result ≡ parts_of kind }
{
    match kind {
        MINUSEQ => RawTokens::Two(MINUS, EQ),
        THIN_ARROW => RawTokens::Two(MINUS, R_ANGLE),
        COLON2 => RawTokens::Two(COLON, COLON),
        NEQ => RawTokens::Two(BANG, EQ),
        DOT2 => RawTokens::Two(DOT, DOT),
        STAREQ => RawTokens::Two(STAR, EQ),
        SLASHEQ => RawTokens::Two(SLASH, EQ),
        AMP2 => RawTokens::Two(AMP, AMP),
        AMPEQ => RawTokens::Two(AMP, EQ),
        PERCENTEQ => RawTokens::Two(PERCENT, EQ),
        CARETEQ => RawTokens::Two(CARET, EQ),
        PLUSEQ => RawTokens::Two(PLUS, EQ),
        SHL => RawTokens::Two(L_ANGLE, L_ANGLE),
        LTEQ => RawTokens::Two(L_ANGLE, EQ),
        EQ2 => RawTokens::Two(EQ, EQ),
        FAT_ARROW => RawTokens::Two(EQ, R_ANGLE),
        GTEQ => RawTokens::Two(R_ANGLE, EQ),
        SHR => RawTokens::Two(R_ANGLE, R_ANGLE),
        PIPEEQ => RawTokens::Two(PIPE, EQ),
        PIPE2 => RawTokens::Two(PIPE, PIPE),
        DOT3 => RawTokens::Three(DOT, DOT, DOT),
        DOT2EQ => RawTokens::Three(DOT, DOT, EQ),
        SHLEQ => RawTokens::Three(L_ANGLE, L_ANGLE, EQ),
        SHREQ => RawTokens::Three(R_ANGLE, R_ANGLE, EQ),
        _ => RawTokens::One(kind),
    }
}

/// How many raw tokens a token of this kind is made of.
pub fn width(kind: SyntaxKind) -> u8
    ensures { result ≡ width_of kind }
{
    match parts(kind) {
        RawTokens::One(_) => 1,
        RawTokens::Two(_, _) => 2,
        RawTokens::Three(_, _, _) => 3,
    }
}
