// The bytes that a receiver holds.
ghost use Rattle.std.specs.Prelude.{◌≡◌, ◌<◌, ◌≤◌, ◌↔◌, IsTrue, [], ◌∷◌, ◌++◌, length, take, drop};

use crate::LONGEST;
use std::marker::Model;

const ROOM: usize = 2 * LONGEST;

// A window in an array with room for twice the longest packet: dropping a byte moves none, and the held bytes are moved to
// the front at most once for every 263 that are taken. They stay one slice, which the check is computed over; a ring would
// hand it two, and a vector in place would move all for each byte dropped.
#[derive(Drop)]
pub struct Held {
    bytes: [u8; ROOM],
    start: usize,
    end: usize,
}

// Clauses see the held bytes, in order.
impl Model for Held {
    ghost use Rattle.std.specs.Prelude.{ℕ, ◌+◌, ◌≤◌, List, slice_range};
    ghost use Rattle.receiver.specs.declared.TheConstants.{LONGEST};
    ghost use Rattle.receiver.specs.declared.held.TheConstants.{ROOM};

    ghost Value = { List ℕ };

    ghost view = { λ h. slice_range h.bytes h.start h.end };

    ghost invariant = { λ h. (h.start ≤ h.end) × (h.end ≤ ROOM) × (h.end ≤ h.start + LONGEST) };
}

impl Held {
    pub(crate) fn new() -> Self
        ensures { result ≡ [] }
    {
        Held {
            bytes: [0; ROOM],
            start: 0,
            end: 0,
        }
    }

    pub(crate) fn count(&self) -> usize
        ensures is { result ≡ length self.now }
        ensures few { result ≤ 263 }
    {
        self.end - self.start
    }

    pub(crate) fn is_empty(&self) -> bool
        ensures { IsTrue result ↔ (length self.now ≡ 0) }
    {
        self.start == self.end
    }

    pub(crate) fn view(&self) -> &[u8]
        ensures { result.now ≡ self.now }
    {
        &self.bytes[self.start..self.end]
    }

    #[tactic(auto, using(crate::proofs::Spans::span_later))]
    pub(crate) fn drop_first(&mut self)
        requires { 0 < length self.old }
        ensures { self.new ≡ drop 1 self.old }
    {
        self.start += 1;
    }

    // The held bytes are moved to the front where they reach the end of the array.
    #[tactic(auto, using(crate::proofs::Spans::span_push, crate::proofs::Spans::span_moved))]
    pub(crate) fn push(&mut self, byte: u8)
        requires { length self.old < LONGEST }
        ensures { self.new ≡ self.old ++ byte ∷ [] }
    {
        if self.end == ROOM {
            self.bytes.copy_within(self.start.., 0);
            self.end -= self.start;
            self.start = 0;
        }
        self.bytes[self.end] = byte;
        self.end += 1;
    }

    // Moves the first `count` bytes to the front of `buffer`.
    #[tactic(auto, using(crate::proofs::Spans::span_later))]
    pub(crate) fn move_out(&mut self, count: usize, buffer: &mut [u8])
        requires held { count ≤ length self.old }
        requires room { count ≤ length buffer.old }
        ensures list { self.new ≡ drop count self.old }
        ensures out { buffer.new ≡ take count self.old ++ drop count buffer.old }
    {
        buffer[..count].copy_from_slice(&self.bytes[self.start..self.start + count]);
        self.start += count;
    }
}
