//! Nodes that calls have started or completed.

use tokens::syntax_kind::SyntaxKind;

/// A node that was started: to be completed or abandoned, and never to be let fall.
pub struct Marker {
    pub(crate) at: usize,
}

/// A node that was completed, by its own start, the end of its records, and its kind. It can be preceded once.
#[derive(Drop)]
pub struct CompletedMarker {
    pub(crate) start: usize,
    pub(crate) end: usize,
    pub(crate) kind: SyntaxKind,
}
