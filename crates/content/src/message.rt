// Messages by what they hold. Texts, arrays, variables, entries and whole bodies are parts of the bytes read.
use body::tail::Variables;
use channels::list::Channels;
use device::description::{Found, Info};
use device::flags::{Groups, ListOptions};
use text::Text;
use value::universal::Value;

#[derive(Clone, Copy)]
pub enum Message<'a> {
    // a part of a longer message
    Part(&'a [u8]),
    ErrorAnswer {
        code: u8,
    },
    // a message of another type
    Other(&'a [u8]),
    Search {
        groups: Groups,
    },
    Found(Found<'a>),
    // with the device's id where the packet has no target address
    GetInfo {
        device: Option<Text<'a>>,
    },
    Info(Info<'a>),
    SetVariable {
        value: Value<'a>,
        variable: u16,
    },
    GetVariable {
        variable: u16,
    },
    Variable {
        variable: u16,
        value: Value<'a>,
    },
    ListFeedback {
        options: ListOptions,
    },
    Feedback(Channels<'a>),
    ListControls {
        options: ListOptions,
    },
    Controls(Channels<'a>),
    SetChannel {
        channel: u32,
        value: Value<'a>,
        pin: u32,
    },
    LinkChannel {
        channel: u32,
        variables: Variables<'a>,
    },
    // a good answer that has nothing to tell
    Done,
}
