// Reading the header of a message.
ghost use Rattle.std.specs.Prelude.{◌≡◌, ◌/◌, ◌<◌, ◌∷◌, length, MatchOption, MatchResult};
ghost use Rattle.basics.specs.Bits.{bits, bit};
ghost use Rattle.message.specs.Headers.{direction_bits};
ghost use Rattle.message.specs.Openings.{Opens, Transacts, HeaderRefused, TransactionRefused};

use crate::header::{Direction, MessageHeader};
use basics::bits::is_set;
use body::cursor::Body;
use body::fault::{MessageFault, MessageRefusal};
use fields::number::take;

// The direction that a first byte tells: DIR and ERROR, which an answer alone may have. No `TryFrom<u8>`, since two bits of
// the byte are read and a conversion of all of it would be of no other use.
fn direction_of(first: u8) -> Option<Direction>
    ensures { MatchOption result (first / 64 ≡ 1) (λ d. direction_bits d ≡ first / 64) }
{
    match first / 64 {
        0 => Some(Direction::Request),
        1 => None,
        2 => Some(Direction::Answer),
        _ => Some(Direction::ErrorAnswer),
    }
}

fn take_transaction(absent: bool, body: Body<'_>) -> Result<(Option<u16>, Body<'_>), MessageRefusal>
    ensures { MatchResult result (λ p. Transacts absent p.0 body.entry p.1) (λ e. TransactionRefused absent body.entry e) }
{
    if absent {
        return Ok((None, body));
    }
    let (transaction, rest) = take(body.rest).ok_or(body.refuse(MessageFault::TransactionCut))?;
    Ok((Some(transaction), Body { rest, ..body }))
}

// The header at the front of a message, and the body after it.
pub(crate) fn take_header(message: Body<'_>) -> Result<(MessageHeader, Body<'_>), MessageRefusal>
    ensures { MatchResult result (λ p. Opens p.0 message.entry p.1) (λ e. HeaderRefused message.entry.rest.now message.entry.end e) }
{
    let &[first, kind, ref rest @ ..] = message.rest else {
        return Err(MessageRefusal {
            fault: MessageFault::Cut,
            place: message.end,
        });
    };
    if first % 16 != 1 {
        return Err(message.refuse(MessageFault::Version));
    }
    let direction = direction_of(first).ok_or(message.refuse(MessageFault::ErrorInRequest))?;
    let flags = u16::from(first);
    let (transaction, body) = take_transaction(is_set(flags, 5), Body { rest, ..message })?;
    let header = MessageHeader {
        direction,
        last: is_set(flags, 4),
        kind,
        transaction,
    };
    Ok((header, body))
}
