// Reading a packet and its message at once.
ghost use Rattle.std.specs.Prelude.{◌≡◌, MatchResult, Some};
ghost use Rattle.basics.specs.Telling.{told};
ghost use Rattle.message.specs.Frames.{ReadsFrame, RefusedFrame, refusal_number, refusal_layer, refusal_place};
ghost use Rattle.message.specs.declared.frame.ReadRefusal.TheVariants.{Packet as OfPacket, Message as OfMessage};

use crate::read::{Received, read_message};
use basics::refusal::{Fault, Layer, Refusal};
use body::fault::MessageRefusal;
use checks::check::Check;
use packet::fault::PacketFault;
use packet::header::Header;
use packet::read::read_packet;
use std::fmt;

// A packet's header and its message.
#[derive(Clone, Copy)]
pub struct Frame<'a> {
    pub header: Header,
    pub received: Received<'a>,
}

// Why bytes are refused: as a packet, or else as a message.
#[derive(Clone, Copy, PartialEq, Eq, Debug)]
pub enum ReadRefusal {
    Packet(Refusal<PacketFault>),
    Message(MessageRefusal),
}

impl From<Refusal<PacketFault>> for ReadRefusal {
    ghost from_gives = { λ p r. r ≡ OfPacket p };

    fn from(refusal: Refusal<PacketFault>) -> ReadRefusal {
        ReadRefusal::Packet(refusal)
    }
}

impl From<MessageRefusal> for ReadRefusal {
    ghost from_gives = { λ m r. r ≡ OfMessage m };

    fn from(refusal: MessageRefusal) -> ReadRefusal {
        ReadRefusal::Message(refusal)
    }
}

impl fmt::Display for ReadRefusal {
    ghost output = { λ r. Some (told (refusal_layer r) (refusal_number r) (refusal_place r)) };

    fn fmt<W: fmt::Write>(&self, f: &mut fmt::Formatter<W>) -> fmt::Result {
        match self {
            ReadRefusal::Packet(refusal) => write!(f, "{refusal}"),
            ReadRefusal::Message(refusal) => write!(f, "{refusal}"),
        }
    }
}

impl Fault for ReadRefusal {
    ghost code = { refusal_number };

    ghost told_by = { refusal_layer };

    fn number(self) -> u8 {
        match self {
            ReadRefusal::Packet(refusal) => refusal.fault.number(),
            ReadRefusal::Message(refusal) => refusal.fault.number(),
        }
    }

    fn layer(self) -> Layer {
        match self {
            ReadRefusal::Packet(refusal) => refusal.fault.layer(),
            ReadRefusal::Message(refusal) => refusal.fault.layer(),
        }
    }
}

impl ReadRefusal {
    pub fn place(self) -> usize
        ensures { result ≡ refusal_place self }
    {
        match self {
            ReadRefusal::Packet(refusal) => refusal.place,
            ReadRefusal::Message(refusal) => refusal.place,
        }
    }
}

// Reads a packet and its message. What is wrong with the packet goes before what is wrong with the message.
pub fn read<'a, C: Check>(bytes: &'a [u8]) -> Result<Frame<'a>, ReadRefusal>
    ensures { MatchResult result (λ f. ReadsFrame C.WIDTH C.meaning bytes.now f.header f.received.header f.received.message) (λ e. RefusedFrame C.WIDTH C.meaning bytes.now e) }
{
    let packet = read_packet::<C>(bytes)?;
    let received = read_message(packet)?;
    Ok(Frame {
        header: packet.header,
        received,
    })
}
