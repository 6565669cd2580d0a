//! The calls that make nodes: a marker is started, and completed or abandoned; a completed node may be preceded.

ghost use Rattle.std.specs.Prelude.{◌≡◌, ◌<◌};
ghost use Rattle.event_log.specs.Program.Prog.{give};
ghost use Rattle.event_log.specs.Program.Wraps.{around};
ghost use Rattle.event_log.specs.Model.{of, Meets};
ghost use Rattle.event_log.specs.Marks.{Starts, Completes, Abandons, Named, Settles, Closes, Finishes, Leads, Open, Last, Extends, by_kind};
ghost use Rattle.event_log.specs.Steps.{err_and_bump, err_and_bump_body};

use super::Parser;
use crate::event::Record;
use crate::marker::{CompletedMarker, Marker};
use refusals::Refusal;
use tokens::syntax_kind::{ERROR, SyntaxKind};

impl<'a> Parser<'a> {
    /// Starts a node.
    pub fn start(&mut self) -> Result<Marker, Refusal>
        ensures { Starts (of self.old) (of self.new) result }
    {
        let at = self.count;
        self.push(Record::BLANK)?;
        Ok(Marker { at })
    }

    /// Records an error, and puts it and the next raw token, if there is one, into a node.
    pub fn err_and_bump(&mut self, number: u8) -> Result<(), Refusal>
        ensures { Meets (err_and_bump number) self.old self.new result }
    {
        let m = self.start()?;
        let r = self.error_and_token(number);
        m.close(self, r, ERROR)
    }

    fn error_and_token(&mut self, number: u8) -> Result<(), Refusal>
        ensures { Meets (err_and_bump_body number) self.old self.new result }
    {
        self.error(number)?;
        self.bump_any()
    }
}

// Each call asks that its node is open in this log. That ties a marker to a parser, so the type of neither can state it.
// It asks for a kind above TOMBSTONE, by a clause and no type: kinds are named where nodes are closed, and a clause is seen there at once.
impl Marker {
    /// Makes it a node of this kind, around all that was recorded since.
    pub fn complete(self, p: &mut Parser, kind: SyntaxKind) -> Result<CompletedMarker, Refusal>
        requires opened { Open self (of p.old) }
        requires named { 0 < kind }
        ensures { Completes self kind p.old p.new result }
    {
        let Marker { at } = self;
        p.push(Record::Finish)?;
        p.records[at] = Record::Start {
            kind,
            forward: None,
        };
        Ok(CompletedMarker {
            start: at,
            end: p.count,
            kind,
        })
    }

    /// Leaves what was recorded since to the node around it. The start is removed where it is the last record, and else stays blank.
    pub fn abandon(self, p: &mut Parser)
        requires { Open self (of p.old) }
        ensures { Abandons self p.old p.new }
    {
        let Marker { at } = self;
        if at + 1 == p.count {
            p.records[at] = Record::BLANK;
            p.count = at;
        }
    }

    /// Completes the node with the kind that its body answered, or else abandons it, and hands a refusal on.
    pub fn settle(
        self,
        p: &mut Parser,
        r: Result<Option<SyntaxKind>, Refusal>,
    ) -> Result<Option<CompletedMarker>, Refusal>
        requires opened { Open self (of p.old) }
        requires named { Named r }
        ensures { Settles self p.old p.new r result }
    {
        match r {
            Ok(Some(kind)) => Ok(Some(self.complete(p, kind)?)),
            Ok(None) => {
                self.abandon(p);
                Ok(None)
            }
            Err(e) => {
                self.abandon(p);
                Err(e)
            }
        }
    }

    /// Completes the node with this kind, and hands a refusal of its body on.
    pub fn finish<A: Drop>(
        self,
        p: &mut Parser,
        r: Result<A, Refusal>,
        kind: SyntaxKind,
    ) -> Result<CompletedMarker, Refusal>
        requires opened { Open self (of p.old) }
        requires named { 0 < kind }
        ensures { Finishes self kind p.old p.new r result }
    {
        match r {
            Ok(_) => self.complete(p, kind),
            Err(e) => {
                self.abandon(p);
                Err(e)
            }
        }
    }

    /// The same for a node that nothing will precede.
    pub fn close<A: Drop>(
        self,
        p: &mut Parser,
        r: Result<A, Refusal>,
        kind: SyntaxKind,
    ) -> Result<(), Refusal>
        requires opened { Open self (of p.old) }
        requires named { 0 < kind }
        ensures { Closes self kind p.old p.new r result }
    {
        self.finish(p, r, kind)?;
        Ok(())
    }
}

impl CompletedMarker {
    pub fn kind(&self) -> SyntaxKind
        ensures { result ≡ self.now.kind }
    {
        self.kind
    }

    /// Starts a node that precedes this one, around it and all that is recorded from here on.
    pub fn precede(self, p: &mut Parser) -> Result<Marker, Refusal>
        requires { Last self (of p.old) }
        ensures { Leads self p.old p.new result }
    {
        let CompletedMarker {
            start,
            end: _,
            kind,
        } = self;
        let m = p.start()?;
        // `as` is proved to lose nothing; `try_from` would answer an error that cannot come.
        p.records[start] = Record::Start {
            kind,
            forward: Some((m.at - start) as u16),
        };
        Ok(m)
    }

    /// Puts this node alone into one of this kind.
    pub fn wrap(self, p: &mut Parser, kind: SyntaxKind) -> Result<CompletedMarker, Refusal>
        requires last { Last self (of p.old) }
        requires named { 0 < kind }
        ensures { Extends by_kind (around (give kind)) self p.old p.new result }
    {
        let m = self.precede(p)?;
        m.complete(p, kind)
    }
}
