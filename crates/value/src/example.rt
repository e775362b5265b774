// Bytes written out, with what they are read as or refused with. The statement is proved apart, as in `law`.
ghost use Rattle.std.specs.Prelude.{◌≡◌, true};
ghost use Rattle.value.specs.Examples.{Examples};

#[tactic(auto, using(crate::proofs::Worked::examples))]
fn show_examples()
    ensures { Examples }
{}

// Whether these bytes are read and refused so, which no empty definition would allow.
pub fn examples_hold() -> bool
    ensures { (result ≡ true) × Examples }
{
    show_examples();
    true
}
