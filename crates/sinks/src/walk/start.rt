//! The starts of a log. A start's `forward` leads to the start that precedes it, and so on along a chain.

ghost use Rattle.std.specs.Prelude.{◌≡◌, ◌<◌, ◌≤◌, true, length, take, drop, IfSome};
ghost use Rattle.std.specs.Option.{option_map};
ghost use Rattle.event_log.specs.Tell.{enters};
ghost use Rattle.sinks.specs.Sink.{Tells};
ghost use Rattle.sinks.specs.Walk.{used, is_start, at as record_at, parent_of, chain, mark_chain};

use crate::sink::{Full, Sink};
use event_log::event::Record;
use event_log::item::Item;
use tokens::syntax_kind::TOMBSTONE;

/// The start at an index of these records.
#[derive(Clone, Copy)]
pub(super) struct Start<'a> {
    pub(super) records: &'a [Record],
    pub(super) at: usize,
    ghost here: { is_start (record_at records.now at) ≡ true },
}

impl<'a> Start<'a> {
    /// The record that it is.
    fn record(&self) -> Record
        ensures { result ≡ record_at self.now.records.now self.now.at }
    {
        self.records[self.at]
    }

    /// The start that precedes this one, if there is one.
    fn parent(&self) -> Option<Start<'a>>
        ensures same_records { IfSome result (λ s. s.records.now ≡ self.now.records.now) }
        ensures place { option_map (λ s. s.at) result ≡ parent_of self.now.records.now self.now.at }
    {
        let Record::Start {
            forward: Some(by),
            ..
        } = self.record()
        else {
            return None;
        };
        let at = self.at + usize::from(by);
        match self.records.get(at) {
            Some(Record::Start { .. }) if by > 0 => Some(Start {
                records: self.records,
                at,
            }),
            _ => None,
        }
    }

    /// Marks the starts of the chain from here as used, but for this one, and answers how many starts it has.
    pub(super) fn use_chain(&self, marks: &mut [u8]) -> usize
        requires { length self.now.records.now ≤ length marks.old }
        ensures starts { result ≡ length (chain self.now.records.now self.now.at) }
        ensures marks_used { used (length self.now.records.now) marks.new ≡ mark_chain self.now.records.now self.now.at (used (length self.now.records.now) marks.old) }
        ensures others { drop (length self.now.records.now) marks.new ≡ drop (length self.now.records.now) marks.old }
    {
        // Followed by hand: `chain` tells kinds, so an iterator would need a definition of its own, of the places on a chain.
        let mut starts = 1;
        let mut last = *self;
        while let Some(next) = last.parent() {
            marks[next.at] = 1;
            last = next;
            starts += 1;
        }
        starts
    }

    /// Enters the first so many nodes of the chain from here, the last of them first. It goes by halves, so that a long chain needs neither
    /// memory nor a deep recursion.
    pub(super) fn enter_chain<S: Sink>(&self, starts: usize, sink: &mut S) -> Result<(), Full>
        requires some { 0 < starts }
        requires chained { starts ≤ length (chain self.now.records.now self.now.at) }
        ensures { Tells S.size (enters (take starts (chain self.now.records.now self.now.at))) (S.heard sink.old) (S.heard sink.new) result }
    {
        if starts == 1 {
            return self.enter(sink);
        }
        let half = starts / 2;
        self.ancestor(half).enter_chain(starts - half, sink)?;
        self.enter_chain(half, sink)
    }

    /// The start that is so many steps along the chain from here.
    fn ancestor(&self, steps: usize) -> Start<'a>
        requires { steps < length (chain self.now.records.now self.now.at) }
        ensures { chain result.records.now result.at ≡ drop steps (chain self.now.records.now self.now.at) }
    {
        let mut last = *self;
        for _ in 0..steps {
            last = last.parent().unwrap();
        }
        last
    }

    /// Enters the node, unless it was abandoned.
    fn enter<S: Sink>(&self, sink: &mut S) -> Result<(), Full>
        ensures { Tells S.size (enters (take 1 (chain self.now.records.now self.now.at))) (S.heard sink.old) (S.heard sink.new) result }
    {
        match self.record() {
            Record::Start { kind, .. } if kind != TOMBSTONE => sink.put(Item::Enter { kind }),
            _ => Ok(()),
        }
    }
}
