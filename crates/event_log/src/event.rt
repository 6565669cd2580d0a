use tokens::syntax_kind::{SyntaxKind, TOMBSTONE};

/// One record of the log. Its kinds and numbers are numbers, TOMBSTONE for no kind, and no enums: records with any numbers can be told, and a
/// listing prints them. A start that precedes is told by its distance, as in the Rust: the log is lent memory, and no tree.
#[derive(Clone, Copy, PartialEq, Eq, Debug)]
pub enum Record {
    /// A node begins. `forward` is how many records further on the start of the node lies that precedes this one.
    Start {
        kind: SyntaxKind,
        forward: Option<u16>,
    },
    /// The node that was started last, and is not finished yet, ends.
    Finish,
    /// A token of `width` raw tokens.
    Token {
        kind: SyntaxKind,
        width: u8,
    },
    /// An error by its number, and the kind that was expected, where it names one.
    Error {
        number: u8,
        kind: SyntaxKind,
    },
}

/// The number of the error that carries the kind that was expected; all others carry TOMBSTONE.
pub const EXPECTED_KIND: u8 = 0;

/// The error of an island at fault has this number and the hook's.
pub const ISLAND_FAULT: u8 = 200;

impl Record {
    /// A start that is not complete, or was abandoned; every record past the count is one.
    pub const BLANK: Record = Record::Start {
        kind: TOMBSTONE,
        forward: None,
    };
}
