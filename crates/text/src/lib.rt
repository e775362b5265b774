// Texts in UTF-8.
#![tactic(auto)]

ghost use Rattle.std.specs.Prelude.{IsTrue, ◌↔◌};
ghost use Rattle.text.specs.Texts.{IsText};

mod character;

use character::after_character;

// A text, as what reads one hands it out.
#[derive(Clone, Copy, PartialEq, Eq, Debug)]
pub struct Text<'a> {
    pub bytes: &'a [u8],
}

// Whether `bytes` are a text: none, or a character and then a text.
#[tactic(auto, using(crate::proofs::Characters::front_rules))]
pub fn is_text(bytes: &[u8]) -> bool
    ensures { IsTrue result ↔ IsText bytes.now }
{
    match after_character(bytes) {
        Some(rest) => is_text(rest),
        None => bytes.is_empty(),
    }
}
