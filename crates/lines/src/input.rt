// The input, byte by byte, gathered into lines (document 01, "The planner and the line program").
ghost use Rattle.std.specs.Prelude.{◌≡◌, ◌↔◌, IsTrue, List, ℕ};
ghost use Rattle.table.specs.After.{after};
ghost use Rattle.lines.specs.Input.{gather, Gathered, TakenAs};
ghost use Rattle.lines.specs.Values.{line_of};

use crate::command;
use crate::command::Command;

// The most bytes that a line may have.
const LONGEST: usize = 48;

// The line that stands open, as far as it has come, in bytes that are lent: the first `len` of them. A length of one more than the longest stands for any that
// is longer; where the bytes are fewer than the longest line has, what finds no room in them is left out.
#[derive(Drop)]
pub struct OpenLine<'a> {
    pub bytes: &'a mut [u8],
    pub len: usize,
}

impl<'a> OpenLine<'a> {
    pub fn new(bytes: &'a mut [u8]) -> OpenLine<'a>
        ensures bytes { (result.bytes.ghost_name ≡ bytes.entry.ghost_name) × (result.bytes.now ≡ bytes.old) }
        ensures none { result.len ≡ 0 }
    {
        OpenLine { bytes, len: 0 }
    }

    pub fn is_empty(&self) -> bool
        ensures { IsTrue result ↔ (self.now.len ≡ 0) }
    {
        self.len == 0
    }

    // The line has ended: the next begins.
    pub fn clear(&mut self)
        ensures bytes { (self.new.bytes.ghost_name ≡ self.old.bytes.ghost_name) × (self.new.bytes.now ≡ self.old.bytes.now) }
        ensures none { self.new.len ≡ 0 }
    {
        self.len = 0;
    }

    // Takes a byte.
    pub fn push(&mut self, byte: u8)
        ensures bytes { self.new.bytes.ghost_name ≡ self.old.bytes.ghost_name }
        ensures gathers { after self.new.len self.new.bytes.now ≡ gather self.old.len byte self.old.bytes.now }
    {
        if LONGEST <= self.len {
            self.len = LONGEST + 1;
            return;
        }
        let at = self.len;
        self.len += 1;
        if at < self.bytes.len() {
            self.bytes[at] = byte;
        }
    }

    // The command of the line, or none.
    pub fn command(&self) -> Option<Command>
        ensures { (l : List ℕ) → Gathered self.now.bytes.now self.now.len l → TakenAs l (line_of result) }
    {
        if LONGEST < self.len {
            return None;
        }
        command::read(self.bytes.get(..self.len)?)
    }
}
