// The header of a message.
ghost use Rattle.std.specs.Prelude.{Some};
ghost use Rattle.message.specs.Headers.{direction_name};

use std::fmt;

// Whether a message asks or answers, and whether the answer tells an error.
#[derive(Clone, Copy, PartialEq, Eq, Debug)]
pub enum Direction {
    Request,
    Answer,
    ErrorAnswer,
}

impl fmt::Display for Direction {
    ghost output = { λ d. Some (direction_name d) };

    fn fmt<W: fmt::Write>(&self, f: &mut fmt::Formatter<W>) -> fmt::Result {
        let name = match self {
            Direction::Request => "a request",
            Direction::Answer => "a good answer",
            Direction::ErrorAnswer => "an answer that tells an error",
        };
        write!(f, "{name}")
    }
}

#[derive(Clone, Copy, PartialEq, Eq, Debug)]
pub struct MessageHeader {
    pub direction: Direction,
    // no part of the message follows this one
    pub last: bool,
    pub kind: u8,
    pub transaction: Option<u16>,
}
