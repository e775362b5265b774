// The steps of the report.
use basics::refusal::Refusal;
use checks::crc16::{Crc16, crc16_of};
use packet::fault::PacketFault;
use packet::header::Header;
use packet::measure::{Extent, Front};
use show::{Hex, Optional, YesNo};
use std::io;

pub(crate) fn bytes(rt: &impl Print, bytes: &[u8]) -> io::Result<()> {
    println!(rt; "  as it came        {}", Hex(bytes))
}

pub(crate) fn header(rt: &impl Print, header: Header) -> io::Result<()> {
    println!(rt; "  priority          {}", YesNo(header.priority))?;
    println!(rt; "  broadcast         {}", YesNo(header.is_broadcast()))?;
    println!(rt; "  version           {}", header.version)?;
    println!(rt; "  cipher            {}", header.cipher)?;
    addresses(rt, header)
}

fn addresses(rt: &impl Print, header: Header) -> io::Result<()> {
    println!(rt; "  route             {}", Optional(header.route))?;
    println!(rt; "  source segment    {}", Optional(header.source_segment))?;
    println!(rt; "  source address    {}", header.source)?;
    println!(rt; "  target segment    {}", Optional(header.target_segment))?;
    println!(rt; "  target address    {}", Optional(header.target))
}

pub(crate) fn extent(rt: &impl Print, extent: Extent) -> io::Result<()> {
    let Extent { header, end } = extent;
    let size = end.saturating_sub(header);
    println!(rt; "  header length     {header} bytes")?;
    println!(rt; "  size              {size} bytes: the message and its check")
}

// The message, and its check as it should be and as it is, where the data are all there.
pub(crate) fn data(rt: &impl Print, front: &Front<'_, Crc16>) -> io::Result<()> {
    let Some(message) = front.message() else {
        return Ok(());
    };
    let Extent { header, end } = front.extent;
    if front.bytes.len() < end {
        return Ok(());
    }
    let computed = crc16_of(message).to_le_bytes();
    println!(rt;
        "  message           {}, from byte {header} on",
        Hex(message)
    )?;
    println!(rt;
        "  check computed    {}, over the message alone",
        Hex(&computed)
    )?;
    println!(rt; "  check found       {}", Hex(front.found()))
}

pub(crate) fn accepted(rt: &impl Print) -> io::Result<()> {
    println!(rt; "  verdict           a packet")
}

pub(crate) fn refused(rt: &impl Print, refusal: Refusal<PacketFault>) -> io::Result<()> {
    println!(rt; "  verdict           refused {refusal}")
}
