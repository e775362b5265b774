// A body by its row.
ghost use Rattle.std.specs.Prelude.{◌≡◌, ℕ, List, [], ◌∷◌, MatchResult};
ghost use Rattle.body.specs.Fields.{Item, listing};
ghost use Rattle.body.specs.Tails.{nothing};
ghost use Rattle.channels.specs.declared.list.Channels.{Channels};
ghost use Rattle.content.specs.Contents.{row_of, Holds, Listed};
ghost use Rattle.content.specs.Readings.{ReadsRow, RefusesRow};
ghost use Rattle.content.specs.Rows.{fields, tail};
ghost use Rattle.content.specs.declared.message.Message.{Message};

use crate::message::Message;
use crate::row::Row;
use body::cursor::Body;
use body::fault::MessageRefusal;
use body::held::{Held, read_whole};
use channels::list::{Channels, read_channels};

// Reads a body of the row.
pub fn read_body(row: Row, body: Body<'_>) -> Result<Message<'_>, MessageRefusal>
    ensures { MatchResult result (λ m. ReadsRow row m body.entry.rest.now) (λ e. RefusesRow row body.entry e) }
{
    match row {
        Row::Part => Ok(Message::Part(body.rest)),
        Row::ErrorAnswer => read_told(row, body, |code| Message::ErrorAnswer { code }),
        Row::Other => Ok(Message::Other(body.rest)),
        Row::Search => read_told(row, body, |groups| Message::Search { groups }),
        Row::Found => read_told(row, body, Message::Found),
        Row::GetInfo => body.finish().map(|_| Message::GetInfo { device: None }),
        Row::GetInfoOf => read_told(row, body, |id| Message::GetInfo { device: Some(id) }),
        Row::Info => read_told(row, body, Message::Info),
        Row::SetVariable => read_told(row, body, |(value, variable)| {
            Message::SetVariable { value, variable }
        }),
        Row::GetVariable => read_told(row, body, |variable| Message::GetVariable { variable }),
        Row::Variable => read_told(row, body, |(variable, value)| {
            Message::Variable { variable, value }
        }),
        Row::ListFeedback => read_told(row, body, |options| Message::ListFeedback { options }),
        Row::Feedback => read_list(row, true, body, Message::Feedback),
        Row::ListControls => read_told(row, body, |options| Message::ListControls { options }),
        Row::Controls => read_list(row, false, body, Message::Controls),
        Row::SetChannel => read_told(row, body, |(channel, (value, pin))| {
            Message::SetChannel {
                channel,
                value,
                pin,
            }
        }),
        Row::LinkChannel => read_link(body),
        Row::Done => body.finish().map(|_| Message::Done),
    }
}

// Reads a body that holds an `H`, and tells it as a message of the row, which only the contract needs: a ghost in its place
// would want a file that picks the row of each call above.
fn read_told<'a, H: Held<'a>, F: FnOnce(H) -> Message<'a>>(
    row: Row,
    body: Body<'a>,
    tell: F,
) -> Result<Message<'a>, MessageRefusal>
    requires callable { F.IsAlwaysCallable tell }
    requires held { (fields row ≡ H.Held.fields) × (tail row ≡ nothing) }
    requires told { (h : H) (m : Message) → F.post tell h m → (row_of m ≡ row) × Holds m (H.Held.items h) [] }
    ensures { MatchResult result (λ m. ReadsRow row m body.entry.rest.now) (λ e. RefusesRow row body.entry e) }
{
    let held = read_whole::<H>(body)?;
    Ok(tell(held))
}

// As `read_told`, of a list with values or without.
fn read_list<'a, F: FnOnce(Channels<'a>) -> Message<'a>>(
    row: Row,
    valued: bool,
    body: Body<'a>,
    tell: F,
) -> Result<Message<'a>, MessageRefusal>
    requires callable { F.IsAlwaysCallable tell }
    requires listed { (fields row ≡ listing valued ∷ []) × (tail row ≡ nothing) }
    requires told { (c : Channels) (m : Message) → F.post tell c m → (row_of m ≡ row) × ((is : List Item) (t : List ℕ) → Listed valued c is → Holds m is t) }
    ensures { MatchResult result (λ m. ReadsRow row m body.entry.rest.now) (λ e. RefusesRow row body.entry e) }
{
    let channels = read_channels(valued, body)?;
    Ok(tell(channels))
}

// The one body whose fields variables follow.
fn read_link(body: Body<'_>) -> Result<Message<'_>, MessageRefusal>
    ensures { MatchResult result (λ m. ReadsRow Row.LinkChannel m body.entry.rest.now) (λ e. RefusesRow Row.LinkChannel body.entry e) }
{
    let (channel, body) = u32::take(body)?;
    let variables = body.variables()?;
    Ok(Message::LinkChannel { channel, variables })
}
