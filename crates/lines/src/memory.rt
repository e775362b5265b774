// The line of a caller's slice.
ghost use Rattle.std.specs.Prelude.{◌≡◌};

use crate::line::Line;
use std::marker::Model;

// The bytes of a slice that are not taken yet. The slice is only read.
#[derive(Drop)]
pub struct Memory<'a> {
    rest: &'a [u8],
}

// Clauses see the bytes that wait.
impl<'a> Model for Memory<'a> {
    ghost use Rattle.std.specs.Prelude.{ℕ, List};

    ghost Value = { List ℕ };

    ghost view = { λ m. m.rest.now };
}

impl<'a> Memory<'a> {
    pub fn new(bytes: &'a [u8]) -> Self
        ensures { result ≡ bytes.now }
    {
        Memory { rest: bytes }
    }
}

impl Line for Memory<'_> {
    ghost waiting = { λ bytes. bytes };

    fn take(&mut self) -> Option<u8> {
        self.rest.split_off_first().copied()
    }
}
