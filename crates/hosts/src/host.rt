ghost use Rattle.std.specs.Prelude.{◌≡◌, ℕ, true};
ghost use Rattle.tokens.specs.declared.rows.Hook.{Hook};
ghost use Rattle.tokens.specs.declared.rows.Answer.{Answer};
ghost use Rattle.tokens.specs.Islands.{lawful_answer};
ghost use Rattle.hosts.specs.Host.{Columns, columns};

use tokens::input::Input;
use tokens::rows::{Answer, Hook};

/// Who knows what lies at a token place.
pub trait Host {
    /// the answer to each hook, for each columns and place: the same whenever it is asked
    ghost meaning: { Self → Hook → Columns → ℕ → Answer };

    /// What lies at this place, by the laws of islands. At a place past the end too.
    fn answer(&self, hook: Hook, input: Input, place: usize) -> Answer
        ensures meant { result ≡ meaning self.now hook (columns input.entry) place }
        ensures lawful { lawful_answer (columns input.entry).kinds place hook result ≡ true };
}
