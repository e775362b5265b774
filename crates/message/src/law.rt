// What holds of all messages. The statement is proved apart from the public call, so that an edit of the call is refused
// in it.
ghost use Rattle.std.specs.Prelude.{◌≡◌, true};
ghost use Rattle.message.specs.Laws.{OneReading};

fn show_laws()
    ensures { OneReading }
{}

// Whether bytes are the writing of one message at most. They are: the contract says so.
pub fn is_read_one_way() -> bool
    ensures { (result ≡ true) × OneReading }
{
    show_laws();
    true
}
