// What can be wrong with a message.
ghost use Rattle.std.specs.Prelude.{◌≡◌, Some};
ghost use Rattle.basics.specs.Telling.{told};
ghost use Rattle.body.specs.Faults.{fault_number, fault_layer, fault_of_text};
ghost use Rattle.body.specs.declared.fault.MessageFault.TheVariants.{Value as OfValue};

use basics::refusal::{Fault, Layer, Refusal};
use fields::part::TextFault;
use std::fmt;
use value::fault::ValueFault;

#[derive(Clone, Copy, PartialEq, Eq, Debug)]
pub enum MessageFault {
    Cipher,
    Version,
    ErrorInRequest,
    TransactionCut,
    Cut,
    Reserved,
    LeftOver,
    Text,
    Variables,
    Value(ValueFault),
}

// A text's fault, as a message's.
impl From<TextFault> for MessageFault {
    ghost from_gives = { λ t m. m ≡ fault_of_text t };

    fn from(fault: TextFault) -> MessageFault {
        match fault {
            TextFault::Cut => MessageFault::Cut,
            TextFault::NoText => MessageFault::Text,
        }
    }
}

impl Fault for MessageFault {
    ghost code = { fault_number };

    ghost told_by = { fault_layer };

    // A case that holds a value's fault can't have a number as its value, so each case is told here.
    fn number(self) -> u8 {
        match self {
            MessageFault::Cipher => 20,
            MessageFault::Version => 21,
            MessageFault::ErrorInRequest => 22,
            MessageFault::TransactionCut => 23,
            MessageFault::Cut => 24,
            MessageFault::Reserved => 25,
            MessageFault::LeftOver => 26,
            MessageFault::Text => 27,
            MessageFault::Variables => 28,
            MessageFault::Value(fault) => fault.number(),
        }
    }

    fn layer(self) -> Layer {
        match self {
            MessageFault::Value(fault) => fault.layer(),
            _ => Layer::Message,
        }
    }
}

// Why a message is refused, and the place of the field at which it is. It is a type of this crate's own, so that `?` can
// make one of a value's refusal.
#[derive(Clone, Copy, PartialEq, Eq, Debug)]
pub struct MessageRefusal {
    pub fault: MessageFault,
    pub place: usize,
}

// Told as every refusal is.
impl fmt::Display for MessageRefusal {
    ghost output = { λ r. Some (told (fault_layer r.fault) (fault_number r.fault) r.place) };

    fn fmt<W: fmt::Write>(&self, f: &mut fmt::Formatter<W>) -> fmt::Result {
        let refusal = Refusal::at(self.place, self.fault);
        write!(f, "{refusal}")
    }
}

// A value's refusal goes up as it is: the same fault at the same place.
impl From<Refusal<ValueFault>> for MessageRefusal {
    ghost from_gives = { λ v m. m ≡ record { fault = OfValue v.fault; place = v.place } };

    fn from(refusal: Refusal<ValueFault>) -> MessageRefusal {
        MessageRefusal {
            fault: MessageFault::Value(refusal.fault),
            place: refusal.place,
        }
    }
}
