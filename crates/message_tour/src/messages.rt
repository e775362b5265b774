// What the message of a packet says.
use checks::check::Check;
use checks::crc16::Crc16;
use content::message::Message;
use message::frame::{Frame, read};
use packet::header::Header;
use show::Optional;
use std::io;

pub(crate) fn follow(rt: &impl Print, bytes: &[u8]) -> io::Result<()> {
    match read::<Crc16>(bytes) {
        Ok(frame) => told(rt, frame),
        Err(refusal) => println!(rt; "  refused           {refusal}"),
    }
}

fn told(rt: &impl Print, frame: Frame<'_>) -> io::Result<()> {
    let header = frame.received.header;
    println!(rt; "  direction         {}", header.direction)?;
    println!(rt; "  type              {:02X}", header.kind)?;
    println!(rt; "  transaction       {}", Optional(header.transaction))?;
    match frame.received.message {
        Message::GetVariable { variable } => println!(rt;
            "  asks for          variable {variable}"
        )?,
        _ => println!(rt; "  says              something else")?,
    }
    from_whom(rt, frame.header)
}

fn from_whom(rt: &impl Print, header: Header) -> io::Result<()> {
    println!(rt; "  from address      {}", header.source)?;
    println!(rt; "  to address        {}", Optional(header.target))
}
