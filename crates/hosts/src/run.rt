//! Bracket runs: how far tokens go on until a bracket closes that they did not open.

ghost use Rattle.std.specs.Prelude.{◌≡◌, ◌+◌, ◌^◌, ◌<◌};
ghost use Rattle.hosts.specs.Runs.{opens_bracket, closes_bracket, is_mark, stops_at, depth_behind, run_of};

use tokens::syntax_kind::{
    COLON, COMMA, EQ, L_BRACK, L_CURLY, L_PAREN, R_BRACK, R_CURLY, R_PAREN, SEMICOLON, SyntaxKind,
};

/// What ends a run outside brackets. An enum, and no closure: a closure would have to be tied to its rule by a clause at each call.
#[derive(Clone, Copy, PartialEq, Eq, Debug)]
pub enum Stop {
    /// a closing bracket
    Closer,
    /// a closing bracket, `,`, `;`, `=` or `:`
    Mark,
}

/// A bracket run.
#[derive(Clone, Copy, PartialEq, Eq, Debug)]
pub struct Run {
    pub tokens: usize,
    /// a bracket is open at its end
    pub unclosed: bool,
}

impl Run {
    /// The run that these tokens begin with.
    pub fn of(kinds: &[u16], stop: Stop) -> Run
        ensures { result ≡ run_of (stops_at stop) kinds.now }
    {
        let mut depth = 0;
        for (tokens, kind) in kinds.iter().enumerate() {
            if depth == 0 && ends_run(*kind, stop) {
                return Run {
                    tokens,
                    unclosed: false,
                };
            }
            depth = depth_behind(*kind, depth);
        }
        Run {
            tokens: kinds.len(),
            unclosed: depth > 0,
        }
    }
}

/// `<` is no bracket: it may be a sign of less.
fn opens_bracket(kind: SyntaxKind) -> bool
    ensures { result ≡ opens_bracket kind }
{
    matches!(kind, L_PAREN | L_BRACK | L_CURLY)
}

fn closes_bracket(kind: SyntaxKind) -> bool
    ensures { result ≡ closes_bracket kind }
{
    matches!(kind, R_PAREN | R_BRACK | R_CURLY)
}

fn is_mark(kind: SyntaxKind) -> bool
    ensures { result ≡ is_mark kind }
{
    // No `matches!`: of these four it makes a run over half again as slow, since every token of it is asked.
    [COMMA, SEMICOLON, EQ, COLON].contains(&kind)
}

/// A token of this kind ends a run, outside brackets.
fn ends_run(kind: SyntaxKind, stop: Stop) -> bool
    ensures { result ≡ stops_at stop kind }
{
    match stop {
        Stop::Closer => closes_bracket(kind),
        Stop::Mark => closes_bracket(kind) || is_mark(kind),
    }
}

/// How many brackets are open behind a token of this kind, with so many before it. Any closer closes any opener.
fn depth_behind(kind: SyntaxKind, depth: usize) -> usize
    requires { depth + 1 < 2 ^ 64 }
    ensures { result ≡ depth_behind kind depth }
{
    if opens_bracket(kind) {
        depth + 1
    } else if closes_bracket(kind) {
        depth.saturating_sub(1)
    } else {
        depth
    }
}
