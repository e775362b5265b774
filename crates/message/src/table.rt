// The row of the table of bodies that a header tells.
ghost use Rattle.std.specs.Prelude.{◌≡◌};
ghost use Rattle.message.specs.Table.{request_row, answer_row, row_for};

use crate::header::{Direction, MessageHeader};
use content::row::Row;

fn request_row(addressed: bool, kind: u8) -> Row
    ensures { result ≡ request_row addressed kind }
{
    match kind {
        0x03 => Row::Search,
        0x04 if addressed => Row::GetInfo,
        0x04 => Row::GetInfoOf,
        0x10 => Row::SetVariable,
        0x11 => Row::GetVariable,
        0x20 => Row::ListFeedback,
        0x30 => Row::ListControls,
        0x33 => Row::SetChannel,
        0x34 => Row::LinkChannel,
        _ => Row::Other,
    }
}

fn answer_row(kind: u8) -> Row
    ensures { result ≡ answer_row kind }
{
    match kind {
        0x03 => Row::Found,
        0x04 => Row::Info,
        0x11 => Row::Variable,
        0x20 => Row::Feedback,
        0x30 => Row::Controls,
        0x10 | 0x33 | 0x34 => Row::Done,
        _ => Row::Other,
    }
}

pub(crate) fn row_for(addressed: bool, header: MessageHeader) -> Row
    ensures { result ≡ row_for addressed header }
{
    if !header.last {
        return Row::Part;
    }
    match header.direction {
        Direction::Request => request_row(addressed, header.kind),
        Direction::Answer => answer_row(header.kind),
        Direction::ErrorAnswer => Row::ErrorAnswer,
    }
}
