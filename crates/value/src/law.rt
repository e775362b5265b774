// What holds of all readings and writings of values. The statement is proved apart from the public call, so that an edit of
// the call is refused in it.
ghost use Rattle.std.specs.Prelude.{◌≡◌, true};
ghost use Rattle.value.specs.Laws.{Laws};

#[tactic(auto, using(crate::proofs::Uniqueness::laws))]
fn show_laws()
    ensures { Laws }
{}

// Whether bytes have at most one reading, what is written is read back, and what is read is written back.
pub fn laws_hold() -> bool
    ensures { (result ≡ true) × Laws }
{
    show_laws();
    true
}
