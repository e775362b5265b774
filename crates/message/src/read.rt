// Reading messages.
ghost use Rattle.std.specs.Prelude.{◌≡◌, ◌+◌, ◌≤◌, length, MatchResult};
ghost use Rattle.message.specs.Messages.{Reads, RefusedAt, ReadsIn, RefusedIn, header_size};

use crate::header::MessageHeader;
use crate::opening::take_header;
use crate::table::row_for;
use body::cursor::Body;
use body::fault::{MessageFault, MessageRefusal};
use content::message::Message;
use content::read::read_body;
use packet::header::Header;
use packet::read::Packet;

// A message that was read: its header, and what it holds.
#[derive(Clone, Copy)]
pub struct Received<'a> {
    pub header: MessageHeader,
    pub message: Message<'a>,
}

// Reads a message of a packet with a target address or without.
pub(crate) fn read_at(addressed: bool, message: Body<'_>) -> Result<Received<'_>, MessageRefusal>
    ensures { MatchResult result (λ m. Reads addressed m.header m.message message.entry.rest.now) (λ e. RefusedAt addressed message.entry.rest.now message.entry.end e) }
{
    let (header, body) = take_header(message)?;
    let message = read_body(row_for(addressed, header), body)?;
    Ok(Received { header, message })
}

// The number of bytes of a packet's header.
fn size_of(header: Header) -> u8
    ensures is { result ≡ header_size header }
    ensures few { result ≤ 8 }
{
    4 + u8::from(header.route.is_some())
        + u8::from(header.source_segment.is_some())
        + u8::from(header.target_segment.is_some())
        + u8::from(header.target.is_some())
}

// Reads the message of a packet.
pub fn read_message(packet: Packet<'_>) -> Result<Received<'_>, MessageRefusal>
    ensures { MatchResult result (λ m. ReadsIn packet.entry.header m.header m.message packet.entry.message.now) (λ e. RefusedIn packet.entry.header packet.entry.message.now e) }
{
    if packet.header.cipher != 0 {
        return Err(MessageRefusal {
            fault: MessageFault::Cipher,
            place: 1,
        });
    }
    let message = Body::new(packet.message, size_of(packet.header));
    read_at(packet.header.target.is_some(), message)
}
