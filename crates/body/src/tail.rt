// How a body ends: with nothing, with bytes of any kind, or with variables.
ghost use Rattle.std.specs.Prelude.{◌≡◌, ◌<◌, length, MatchOption, MatchResult};
ghost use Rattle.fields.specs.Numbers.{NumberFirst};
ghost use Rattle.body.specs.Places.{place_of};
ghost use Rattle.body.specs.Tails.{nothing, variables, Fills, TailWrong};

use crate::cursor::Body;
use crate::fault::{MessageFault, MessageRefusal};
use fields::number::take;

// Variables, one after another in the bytes of the frame.
#[derive(Clone, Copy)]
pub struct Variables<'a> {
    pub bytes: &'a [u8],
}

impl<'a> Variables<'a> {
    // The first variable and those after it.
    pub fn first(self) -> Option<(u16, Variables<'a>)>
        ensures { MatchOption result (length self.entry.bytes.now < 2) (λ p. NumberFirst 2 p.0 p.1.bytes.now self.entry.bytes.now) }
    {
        let (variable, bytes) = take(self.bytes)?;
        Some((variable, Variables { bytes }))
    }
}

impl<'a> Body<'a> {
    // Whether nothing is left.
    pub fn finish(self) -> Result<(), MessageRefusal>
        ensures { MatchResult result (λ _. Fills nothing self.entry.rest.now) (λ e. TailWrong e.fault nothing self.entry.rest.now × (e.place ≡ place_of self.entry)) }
    {
        if !self.rest.is_empty() {
            return Err(self.refuse(MessageFault::LeftOver));
        }
        Ok(())
    }

    // The variables that are left.
    pub fn variables(self) -> Result<Variables<'a>, MessageRefusal>
        ensures { MatchResult result (λ v. Fills variables self.entry.rest.now × (v.bytes.now ≡ self.entry.rest.now)) (λ e. TailWrong e.fault variables self.entry.rest.now × (e.place ≡ place_of self.entry)) }
    {
        let length = self.rest.len();
        if length % 2 == 1 || length > 32 {
            return Err(self.refuse(MessageFault::Variables));
        }
        Ok(Variables { bytes: self.rest })
    }
}
