// What can be wrong with a value.
ghost use Rattle.value.specs.Faults.{fault_number, fault_layer, kind_wrong, text_wrong};
ghost use Rattle.std.specs.Prelude.{◌≡◌};

use crate::kind::KindFault;
use basics::refusal::{Fault, Layer};
use fields::part::TextFault;

#[derive(Clone, Copy, PartialEq, Eq, Debug)]
pub enum ValueFault {
    TypeAbove = 30,
    TypeUnused = 31,
    Reserved = 32,
    Cut = 33,
    Text = 34,
    Time = 35,
}

impl Fault for ValueFault {
    ghost code = { fault_number };

    ghost told_by = { fault_layer };

    fn number(self) -> u8 {
        self as u8
    }

    fn layer(self) -> Layer {
        Layer::Value
    }
}

// What is wrong with a value whose header tells no type.
impl From<KindFault> for ValueFault {
    ghost from_gives = { λ k f. f ≡ kind_wrong k };

    fn from(fault: KindFault) -> ValueFault {
        match fault {
            KindFault::Above => ValueFault::TypeAbove,
            KindFault::Unused => ValueFault::TypeUnused,
        }
    }
}

// What is wrong with a value whose data are no text.
impl From<TextFault> for ValueFault {
    ghost from_gives = { λ t f. f ≡ text_wrong t };

    fn from(fault: TextFault) -> ValueFault {
        match fault {
            TextFault::Cut => ValueFault::Cut,
            TextFault::NoText => ValueFault::Text,
        }
    }
}
