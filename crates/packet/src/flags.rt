// The two flag bytes that a header begins with: PRI 1 1 1 ADR 1 0 1, and ADD SSEG DSEG VER(2) CIPH(3).
ghost use Rattle.std.specs.Prelude.{◌≡◌, ◌+◌, ◌/◌, ◌%◌, ◌<◌, ◌≤◌, ◌↔◌, IsTrue, slice_index};
ghost use Rattle.basics.specs.Bits.{bit};
ghost use Rattle.packet.specs.Raw.{flag};
ghost use Rattle.packet.specs.Faults.{Opens};

use basics::bits;

// Whether a packet may begin with `first`: every bit but PRI and ADR is fixed.
pub(crate) fn opens(first: u8) -> bool
    ensures { IsTrue result ↔ Opens first }
{
    first & 0x77 == 0x75
}

// The bit `k` of `byte`.
pub(crate) fn is_set(byte: u8, k: u8) -> bool
    ensures { bit result ≡ flag byte k }
{
    bits::is_set(u16::from(byte), k)
}

// VER of the second byte.
pub(crate) fn version(second: u8) -> u8
    ensures { result ≡ second / 8 % 4 }
{
    (second >> 3) & 0x03
}

// CIPH of the second byte.
pub(crate) fn cipher(second: u8) -> u8
    ensures { result ≡ second % 8 }
{
    second & 0x07
}

// How many of ADD, SSEG, DSEG and ADR are set.
pub(crate) fn optional_fields(first: u8, second: u8) -> usize
    ensures is { result ≡ flag second 7 + flag second 6 + flag second 5 + flag first 3 }
    ensures few { result ≤ 4 }
{
    ((second & 0xE0) | (first & 0x08)).count_ones() as usize
}

// The byte at `k`, or 0 where there is none, as the definitions count it: an Option would be made 0 at each use.
pub(crate) fn byte_at(bytes: &[u8], k: usize) -> u8
    ensures { result ≡ slice_index bytes.now k }
{
    bytes.get(k).copied().unwrap_or(0)
}
