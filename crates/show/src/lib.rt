// How bytes and fields look in the reports of programs.
#![tactic(auto)]

ghost use Rattle.std.specs.Prelude.{Some};
ghost use Rattle.show.specs.Words.{hex, optional, yes_no};

use std::fmt;

// A packet as it was recorded on a wire, which the programs follow.
pub const RECORDED: [u8; 12] = [
    0x75, 0x08, 0x08, 0x05, 0x11, 0x11, 0x07, 0x00, 0x02, 0x01, 0x3E, 0x8D,
];

// Bytes in hexadecimal, with a space between two.
#[derive(Drop)]
pub struct Hex<'a>(pub &'a [u8]);

impl fmt::Display for Hex<'_> {
    ghost output = { λ x. Some (hex x.0.now) };

    #[tactic(auto, using(crate::proofs::Printed::padded_digits))]
    fn fmt<W: fmt::Write>(&self, f: &mut fmt::Formatter<W>) -> fmt::Result {
        if let [first, rest @ ..] = self.0 {
            write!(f, "{first:02X}")?;
            for byte in rest {
                write!(f, " {byte:02X}")?;
            }
        }
        Ok(())
    }
}

// A field that need not be there.
#[derive(Drop)]
pub struct Optional<T>(pub Option<T>);

impl<T: fmt::Display> fmt::Display for Optional<T> {
    ghost output = { λ x. optional T.output x.0 };

    fn fmt<W: fmt::Write>(&self, f: &mut fmt::Formatter<W>) -> fmt::Result {
        match &self.0 {
            Some(value) => write!(f, "{value}"),
            None => write!(f, "none"),
        }
    }
}

// A flag, in words.
#[derive(Drop)]
pub struct YesNo(pub bool);

impl fmt::Display for YesNo {
    ghost output = { λ x. Some (yes_no x.0) };

    fn fmt<W: fmt::Write>(&self, f: &mut fmt::Formatter<W>) -> fmt::Result {
        let word = if self.0 { "yes" } else { "no" };
        write!(f, "{word}")
    }
}
