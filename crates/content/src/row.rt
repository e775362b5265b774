// The kinds of bodies.

// A row of the table of bodies, as a request or as an answer; and the bodies that the table does not tell. An enum, since
// the definitions tell each row's fields by its name, and functions in its place could not be handed out.
#[derive(Clone, Copy)]
pub enum Row {
    Part,
    ErrorAnswer,
    Other,
    Search,
    Found,
    GetInfo,
    GetInfoOf,
    Info,
    SetVariable,
    GetVariable,
    Variable,
    ListFeedback,
    Feedback,
    ListControls,
    Controls,
    SetChannel,
    LinkChannel,
    Done,
}
