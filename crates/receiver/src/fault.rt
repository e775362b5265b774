// What a receiver refuses.
ghost use Rattle.receiver.specs.Numbers.{number, layer};

use basics::refusal::{Fault, Layer};

#[derive(Clone, Copy, PartialEq, Eq, Debug)]
pub enum ReceiverFault {
    // the buffer has no room for the longest packet
    ShortBuffer = 1,
}

impl Fault for ReceiverFault {
    ghost code = { number };

    ghost told_by = { layer };

    fn number(self) -> u8 {
        self as u8
    }

    fn layer(self) -> Layer {
        Layer::Receiver
    }
}
