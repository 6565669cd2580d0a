//! A vector that grows over lent memory.

ghost use Rattle.std.specs.Prelude.{◌≡◌, ◌≤◌, [], ◌∷◌, length, slice_set};

use crate::sink::Full;

/// Items in lent memory, one after the other from its first place on.
#[derive(Drop)]
pub struct LentVec<'a, T> {
    memory: &'a mut [T],
    /// how many items are kept
    len: usize,
    ghost within: { len ≤ length memory.now },
}

impl<'a, T: Copy> LentVec<'a, T> {
    ghost use Rattle.sinks.specs.Lent.{stored, room, over, Appends};

    /// Empty, over memory that stays as it is.
    pub fn new(memory: &'a mut [T]) -> LentVec<'a, T>
        ensures empty { result.len ≡ 0 }
        ensures memory { result.memory.now ≡ memory.old }
    {
        LentVec { memory, len: 0 }
    }

    /// What is kept, in order.
    pub fn as_slice(&self) -> &[T]
        ensures { result.now ≡ stored self.now }
    {
        &self.memory[..self.len]
    }

    /// How many items more fit.
    pub fn room(&self) -> usize
        ensures { result ≡ room self.now }
    {
        self.memory.len() - self.len
    }

    /// One item more; without room everything stays as it is.
    pub fn push(&mut self, item: T) -> Result<(), Full>
        ensures { Appends (item ∷ []) (slice_set self.old.memory.now self.old.len item) self.old self.new result }
    {
        if self.len == self.memory.len() {
            return Err(Full);
        }
        self.memory[self.len] = item;
        self.len += 1;
        Ok(())
    }

    /// All of these items; where they are more than the room, everything stays as it is.
    pub fn extend_from_slice(&mut self, items: &[T]) -> Result<(), Full>
        ensures { Appends items.now (over self.old.memory.now self.old.len items.now) self.old self.new result }
    {
        if items.len() > self.room() {
            return Err(Full);
        }
        let end = self.len + items.len();
        self.memory[self.len..end].copy_from_slice(items);
        self.len = end;
        Ok(())
    }
}
