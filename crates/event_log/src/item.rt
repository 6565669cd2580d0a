use tokens::syntax_kind::SyntaxKind;

/// What a log tells whoever builds the tree: nodes as they are entered and left, and between them tokens and errors,
/// with the numbers of the records, whatever they are.
#[derive(Clone, Copy, PartialEq, Eq, Debug)]
pub enum Item {
    /// A node of this kind begins.
    Enter { kind: SyntaxKind },
    /// The node that was entered last, and is not left yet, ends.
    Leave,
    /// A token of `width` raw tokens.
    Token { kind: SyntaxKind, width: u8 },
    /// An error by its number, and the kind that was expected, where it names one.
    Error { number: u8, kind: SyntaxKind },
}
