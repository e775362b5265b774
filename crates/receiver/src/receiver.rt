// The receiver.
ghost use Rattle.std.specs.Prelude.{◌≡◌, ◌+◌, ◌<◌, ◌≤◌, length};
ghost use Rattle.std.specs.ControlFlow.{MatchControlFlow};
ghost use Rattle.packet.specs.Packet.{Packet};
ghost use Rattle.receiver.specs.Rules.{State, state, held, fresh, silenced};
ghost use Rattle.receiver.specs.Calls.{Answered, Called};
ghost use Rattle.receiver.specs.Steps.{Stepped};

use crate::LONGEST;
use crate::answer::Answer;
use crate::fault::ReceiverFault;
use crate::held::Held;
use crate::judge::{Verdict, judge};
use checks::check::Check;
use lines::line::Line;
use std::marker::{Model, PhantomData};
use std::ops::ControlFlow::{self, Break, Continue};

// The bytes that one answer calls noise at most.
const MOST_NOISE: usize = 1024;

// A receiver for packets under the check C.
#[derive(Drop)]
pub struct Receiver<C: Check> {
    held: Held,
    open: bool,
    check: PhantomData<C>,
}

// Clauses see whether it is open, and the held bytes.
impl<C: Check> Model for Receiver<C> {
    ghost Value = { State };

    ghost view = { λ r. state r.«open» r.held };
}

impl<C: Check> Receiver<C> {
    // A receiver that is open and holds nothing.
    pub fn new() -> Self
        ensures { result ≡ fresh }
    {
        Receiver {
            held: Held::new(),
            open: true,
            check: PhantomData,
        }
    }

    // The wire fell silent.
    pub fn gap(&mut self)
        ensures { self.new ≡ silenced self.old }
    {
        self.open = false;
    }

    // The number of bytes that are held.
    pub fn held(&self) -> usize
        ensures is { result ≡ length (held self.now) }
        ensures few { result ≤ 263 }
    {
        self.held.count()
    }

    // Takes bytes from `line` until it can answer. A packet is moved to the front of `buffer`.
    pub fn next<L: Line>(
        &mut self,
        line: &mut L,
        buffer: &mut [u8],
    ) -> Result<Answer, ReceiverFault>
        ensures called { Called (Packet C.WIDTH C.meaning) self.old (L.waiting line.old) buffer.old result self.new (L.waiting line.new) buffer.new }
        ensures few { length (L.waiting line.old) ≤ 1287 + length (L.waiting line.new) }
    {
        if buffer.len() < LONGEST {
            return Err(ReceiverFault::ShortBuffer);
        }
        Ok(self.repeat(line, buffer))
    }

    // Repeats the rules until one answers. Line and buffer go side by side: what is lent inside a struct tells its lender
    // nothing of what is left of it.
    fn repeat<L: Line>(&mut self, line: &mut L, buffer: &mut [u8]) -> Answer
        requires { LONGEST ≤ length buffer.old }
        ensures answered { Answered (Packet C.WIDTH C.meaning) 0 self.old (L.waiting line.old) buffer.old result self.new (L.waiting line.new) buffer.new }
        ensures few { length (L.waiting line.old) ≤ 1287 + length (L.waiting line.new) }
    {
        let mut n = 0;
        loop {
            match self.step(line, buffer, n) {
                Break(answer) => return answer,
                Continue(dropped) => n = dropped,
            }
        }
    }

    // Applies the first rule that fits, after `n` bytes were dropped, and tells how many are dropped by then.
    fn step<L: Line>(
        &mut self,
        line: &mut L,
        buffer: &mut [u8],
        n: usize,
    ) -> ControlFlow<Answer, usize>
        requires count { n ≤ MOST_NOISE }
        requires room { LONGEST ≤ length buffer.old }
        ensures { Stepped (Packet C.WIDTH C.meaning) n self.old (L.waiting line.old) buffer.old result self.new (L.waiting line.new) buffer.new }
    {
        if n == MOST_NOISE {
            return Break(Answer::Noise(n));
        }
        match judge::<C>(self.held.view()) {
            Verdict::Whole(length) => {
                noise_first(n)?;
                self.held.move_out(length, buffer);
                Break(Answer::Packet(length))
            }
            Verdict::Possible if self.open => {
                let Some(byte) = line.take() else {
                    noise_first(n)?;
                    return Break(Answer::Waiting);
                };
                self.held.push(byte);
                Continue(n)
            }
            Verdict::Possible if self.held.is_empty() => {
                self.open = true;
                noise_first(n)?;
                Continue(n)
            }
            Verdict::Possible | Verdict::Impossible => {
                self.held.drop_first();
                Continue(n + 1)
            }
        }
    }
}

// Noise that was dropped is answered before anything else.
fn noise_first(n: usize) -> ControlFlow<Answer>
    ensures { MatchControlFlow result (λ _. n ≡ 0) (λ a. (a ≡ Answer.Noise n) × (0 < n)) }
{
    if n > 0 {
        Break(Answer::Noise(n))
    } else {
        Continue(())
    }
}
