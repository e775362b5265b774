// Fields at the front of a body. Each call answers what the field holds and the body after it, or refuses the field at
// its first byte.
ghost use Rattle.std.specs.Prelude.{◌≡◌, [], ◌∷◌, MatchResult};
ghost use Rattle.value.specs.Values.{meaning};
ghost use Rattle.body.specs.Fields.{number, word, text, value, whole, letters, universal};
ghost use Rattle.body.specs.Places.{place_of};
ghost use Rattle.body.specs.Steps.{Takes, Denies, Took, Failed};

use crate::cursor::Body;
use crate::fault::{MessageFault, MessageRefusal};
use basics::bits::bits_of;
use fields::number::{Number, take};
use fields::part::take_text;
use text::Text;
use value::read::read_value_at;
use value::universal::Value;

// A number in which bits can be reserved: it has at most 16.
pub trait Word: Number {
    fn widened(self) -> u16
        ensures { result ≡ Self.written self };
}

impl Word for u8 {
    fn widened(self) -> u16 {
        u16::from(self)
    }
}

impl Word for u16 {
    fn widened(self) -> u16 {
        self
    }
}

impl<'a> Body<'a> {
    // The place of the first byte that is left.
    pub fn place(self) -> usize
        ensures { result ≡ place_of self.entry }
    {
        self.end.saturating_sub(self.rest.len())
    }

    // The refusal of the field at the front.
    pub fn refuse(self, fault: MessageFault) -> MessageRefusal
        ensures { result ≡ record { fault = fault; place = place_of self.entry } }
    {
        MessageRefusal {
            fault,
            place: self.place(),
        }
    }

    // A number.
    pub(crate) fn take_number<N: Number>(self) -> Result<(N, Body<'a>), MessageRefusal>
        ensures { MatchResult result (λ p. Took (number N.WIDTH ∷ []) (whole N.WIDTH (N.written p.0) ∷ []) self.entry p.1) (λ e. Failed (number N.WIDTH ∷ []) self.entry e) }
    {
        let (number, rest) = take(self.rest).ok_or(self.refuse(MessageFault::Cut))?;
        Ok((number, Body { rest, ..self }))
    }

    // A number of which `count` bits from the bit `from` on are reserved.
    pub fn take_word<W: Word>(self, from: u8, count: u8) -> Result<(W, Body<'a>), MessageRefusal>
        ensures { MatchResult result (λ p. Takes (word W.WIDTH from count) (whole W.WIDTH (W.written p.0)) self.entry p.1) (λ e. Denies (word W.WIDTH from count) self.entry e) }
    {
        let (word, rest) = take::<W>(self.rest).ok_or(self.refuse(MessageFault::Cut))?;
        if bits_of(word.widened(), from, count) != 0 {
            return Err(self.refuse(MessageFault::Reserved));
        }
        Ok((word, Body { rest, ..self }))
    }

    pub(crate) fn take_text(self) -> Result<(Text<'a>, Body<'a>), MessageRefusal>
        ensures { MatchResult result (λ p. Takes text (letters p.0.bytes.now) self.entry p.1) (λ e. Denies text self.entry e) }
    {
        // By cases, since through `map_err` and `?` the proof of the refusal does not close.
        match take_text(self.rest) {
            Ok((text, rest)) => Ok((text, Body { rest, ..self })),
            Err(fault) => Err(self.refuse(fault.into())),
        }
    }

    pub(crate) fn take_value(self) -> Result<(Value<'a>, Body<'a>), MessageRefusal>
        ensures { MatchResult result (λ p. Takes value (universal (meaning p.0)) self.entry p.1) (λ e. Denies value self.entry e) }
    {
        let (value, rest) = read_value_at(self.rest, self.place())?;
        Ok((value, Body { rest, ..self }))
    }
}
