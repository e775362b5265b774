// What can be wrong with a packet.
ghost use Rattle.packet.specs.Numbers.{number, layer};

use basics::refusal::{Fault, Layer};

#[derive(Clone, Copy, PartialEq, Eq, Debug)]
pub enum PacketFault {
    CutShort = 10,
    FirstByte = 11,
    Version = 12,
    Cipher = 13,
    Route = 14,
    Size = 15,
    Check = 16,
    LeftOver = 17,
}

impl Fault for PacketFault {
    ghost code = { number };

    ghost told_by = { layer };

    fn number(self) -> u8 {
        self as u8
    }

    fn layer(self) -> Layer {
        Layer::Packet
    }
}
