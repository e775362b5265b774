// How a refusal is told: what is wrong, and at which byte.
ghost use Rattle.std.specs.Prelude.{◌≡◌, ℕ, Some};
ghost use Rattle.basics.specs.Telling.{layer_name, told};
ghost use Rattle.basics.specs.declared.refusal.Layer.{Layer};

use std::fmt;

// The layer that refuses.
#[derive(Clone, Copy, PartialEq, Eq, Debug)]
pub enum Layer {
    Receiver,
    Packet,
    Message,
    Value,
    Writer,
}

impl fmt::Display for Layer {
    ghost output = { λ layer. Some (layer_name layer) };

    fn fmt<W: fmt::Write>(&self, f: &mut fmt::Formatter<W>) -> fmt::Result {
        let name = match self {
            Layer::Receiver => "receiver",
            Layer::Packet => "packet",
            Layer::Message => "message",
            Layer::Value => "value",
            Layer::Writer => "writer",
        };
        write!(f, "{name}")
    }
}

// What can be wrong in a layer: each layer has an enum of its own.
pub trait Fault: Copy {
    // the number that installers know a fault by, and the layer that it belongs to
    ghost code: { Self → ℕ };

    ghost told_by: { Self → Layer };

    fn number(self) -> u8
        ensures { result ≡ code self };

    fn layer(self) -> Layer
        ensures { result ≡ told_by self };
}

// What is wrong, and the place of the field at which it is.
#[derive(Clone, Copy, PartialEq, Eq, Debug)]
pub struct Refusal<F> {
    pub fault: F,
    pub place: usize,
}

impl<F> Refusal<F> {
    pub fn at(place: usize, fault: F) -> Self
        ensures { result ≡ record { fault = fault; place = place } }
    {
        Refusal { fault, place }
    }
}

// As reports tell it, behind the word refused.
impl<F: Fault> fmt::Display for Refusal<F> {
    ghost output = { λ r. Some (told (F.told_by r.fault) (F.code r.fault) r.place) };

    fn fmt<W: fmt::Write>(&self, f: &mut fmt::Formatter<W>) -> fmt::Result {
        let layer = self.fault.layer();
        let number = self.fault.number();
        let place = self.place;
        write!(f, "by the {layer} layer: number {number} at byte {place}")
    }
}
