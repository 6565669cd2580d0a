//! The call that records an island: what the row at the place answers.

ghost use Rattle.std.specs.Prelude.{◌≡◌};
ghost use Rattle.event_log.specs.Model.{env, Meets, Rowed};
ghost use Rattle.event_log.specs.Island.{answer_at, answer_at_end, bumps as bumps_of, island_error, island_inside, island as island_of};

use super::Parser;
use crate::event::ISLAND_FAULT;
use refusals::Refusal;
use tokens::rows::{Answer, Hook};
use tokens::syntax_kind::EOF;

/// What a hook answers at the end of the tokens.
fn answer_at_end(hook: Hook) -> Answer
    ensures { result ≡ answer_at_end hook }
{
    match hook {
        Hook::Literal | Hook::ExprBlockContents => Answer::NOTHING,
        _ => Answer::BARE_FAULT,
    }
}

impl<'a> Parser<'a> {
    /// What this hook answers at the place.
    fn answer(&self, hook: Hook) -> Answer
        requires { Rowed self.now }
        ensures { result ≡ answer_at (env self.now) self.now.place hook }
    {
        if self.current() == EOF {
            return answer_at_end(hook);
        }
        self.rows[self.place].answer(hook)
    }

    /// Records what this hook answers: a node, if there is a kind, around an error, if it is at fault, and its tokens.
    pub fn island(&mut self, hook: Hook) -> Result<(), Refusal>
        requires { Rowed self.old }
        ensures { Meets (island_of hook) self.old self.new result }
    {
        let answer = self.answer(hook);
        match answer.kind {
            Some(kind) => {
                let m = self.start()?;
                let r = self.island_inside(hook, answer);
                m.close(self, r, kind)
            }
            None => self.island_inside(hook, answer),
        }
    }

    fn island_inside(&mut self, hook: Hook, answer: Answer) -> Result<(), Refusal>
        ensures { Meets (island_inside hook answer) self.old self.new result }
    {
        self.island_error(hook, answer)?;
        self.bumps(answer.tokens)
    }

    fn island_error(&mut self, hook: Hook, answer: Answer) -> Result<(), Refusal>
        ensures { Meets (island_error hook answer) self.old self.new result }
    {
        if answer.fault {
            return self.error(ISLAND_FAULT + hook.number());
        }
        Ok(())
    }

    /// Takes so many raw tokens, each as it is.
    fn bumps(&mut self, tokens: usize) -> Result<(), Refusal>
        ensures { Meets (bumps_of tokens) self.old self.new result }
    {
        for _ in 0..tokens {
            self.bump_any()?;
        }
        Ok(())
    }
}
