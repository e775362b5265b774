// The exclusive or of all bytes.
ghost use Rattle.std.specs.Prelude.{◌≡◌, bit_xor};
ghost use Rattle.checks.specs.Xor.{xor_of};
ghost use Rattle.checks.specs.Xors.{xor_fits, xor_feeding};
ghost use Rattle.std.proofs.Common.{lit≤};

use crate::check::{Check, check_of};

pub struct Xor;

impl Check for Xor {
    type Register = u8;

    const WIDTH: usize = 1;

    ghost WIDTH = { 1 };

    ghost meaning = { xor_of };

    ghost empty = { 0 };

    ghost after = { bit_xor };

    ghost shows = { λ r. r };

    ghost bounds = { (lit≤ tt, lit≤ tt) };

    ghost fits = { λ bs h. xor_fits bs h };

    ghost feeding = { λ bs h. xor_feeding bs };

    fn start() -> u8 {
        0
    }

    fn feed(register: u8, byte: u8) -> u8 {
        register ^ byte
    }

    fn number(register: u8) -> u32 {
        u32::from(register)
    }
}

// The exclusive or of `bytes`, 0 for none, in a number of its own width: `check_of` has 32 bits for every check.
pub fn xor_of(bytes: &[u8]) -> u8
    ensures { result ≡ xor_of bytes.now }
{
    check_of::<Xor>(bytes) as u8
}
