// The header of a packet.
ghost use Rattle.std.specs.Prelude.{◌≡◌, ◌+◌};
ghost use Rattle.packet.specs.Raw.{flag};
ghost use Rattle.basics.specs.Bits.{bit, present};

use crate::flags::optional_fields;

// The header's fields but for the size, which the message and its check give. A field that does not stand in the packet
// is `None`, which is not the same as 0.
#[derive(Clone, Copy, PartialEq, Eq, Debug)]
pub struct Header {
    pub priority: bool,
    pub version: u8,
    pub cipher: u8,
    pub route: Option<u8>,
    pub source_segment: Option<u8>,
    pub source: u8,
    pub target_segment: Option<u8>,
    // none: the packet is a broadcast
    pub target: Option<u8>,
}

impl Header {
    pub fn is_broadcast(&self) -> bool
        ensures { bit result + present self.now.target ≡ 1 }
    {
        self.target.is_none()
    }
}

// The number of bytes of a header that begins with these two: four, and one more for each of the flags ADD, SSEG, DSEG
// and ADR that is set.
pub fn header_length(first: u8, second: u8) -> usize
    ensures { result ≡ 4 + flag second 7 + flag second 6 + flag second 5 + flag first 3 }
{
    4 + optional_fields(first, second)
}
