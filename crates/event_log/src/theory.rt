//! The theory of programs, as statements: what holds of every grammar, whatever its programs are.

ghost use Rattle.std.specs.Prelude.{ℕ, Bool};
ghost use Rattle.event_log.specs.Program.{Env, Prog, Turn};
ghost use Rattle.event_log.specs.Reading.{Call};
ghost use Rattle.event_log.specs.Theory.{TokensLaw, KindsLaw, BoundsLaw, TellingLaw, GoesOnLaw, BalanceLaw, TurnsLaw, WrapsLaw};

/// A grammar, by its calls.
pub trait Grammar {
    /// what a call runs
    ghost program: { Self → Call };
}

/// A loop of a grammar, over its states.
pub trait Loop {
    /// one turn
    ghost turn: { Self → Prog (Turn Self) };
}

/// Nodes of a grammar that precede one another.
pub trait Wrapping {
    /// whether one more does
    ghost test: { Env → ℕ → Bool };

    /// what it takes, and its kind
    ghost body: { Prog ℕ };
}

/// Says that the theory stands, for any grammar, any loop and any nodes that precede one another. It does nothing.
pub fn theory_stands<G: Grammar, L: Loop, W: Wrapping>()
    ensures tokens { TokensLaw G.program }
    ensures kinds { KindsLaw G.program }
    ensures bounds { BoundsLaw G.program }
    ensures telling { TellingLaw }
    ensures onward { GoesOnLaw G.program }
    ensures balance { BalanceLaw G.program }
    ensures turns { TurnsLaw 1 L.turn }
    ensures wraps { WrapsLaw 1 W.test W.body }
{}
