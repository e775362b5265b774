// The line of the bytes that stand on another line as hexadecimal text.
ghost use Rattle.std.specs.Prelude.{◌≡◌, ◌<◌, IfSome};
ghost use Rattle.lines.specs.Hex.{digit_of, hexed};

use crate::line::Line;

// The line of the characters is held by value.
#[derive(Drop)]
pub struct Hex<L: Line> {
    text: L,
}

impl<L: Line> Hex<L> {
    pub fn new(text: L) -> Self
        ensures { result.text ≡ text }
    {
        Hex { text }
    }
}

impl<L: Line> Line for Hex<L> {
    ghost waiting = { λ h. hexed (L.waiting h.text) };

    // A digit goes together with the character after it, and any other character alone.
    fn take(&mut self) -> Option<u8> {
        loop {
            let Some(high) = digit(self.text.take()?) else {
                continue;
            };
            if let Some(low) = digit(self.text.take()?) {
                return Some(high * 16 + low);
            }
        }
    }
}

// What a hexadecimal digit stands for.
fn digit(character: u8) -> Option<u8>
    ensures value { result ≡ digit_of character }
    ensures small { IfSome result (λ v. v < 16) }
{
    char::from(character).to_digit(16).map(|value| value as u8)
}
