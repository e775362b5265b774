// Numbers as the wire has them: in bytes, the lowest first.
ghost use Rattle.std.specs.Prelude.{◌≡◌, ◌/◌, ◌%◌, ◌↔◌, length, IsTrue};
ghost use Rattle.basics.specs.Little.{little};

// Whether `bytes` are the lowest bytes of `number`, as many as there are. Beyond the four of `to_le_bytes` they are 0.
pub fn are_lowest_bytes(bytes: &[u8], number: u32) -> bool
    ensures { IsTrue result ↔ (bytes.now ≡ little (length bytes.now) number) }
{
    let mut rest = number;
    for byte in bytes {
        let (lowest, above) = split(rest);
        if *byte != lowest {
            return false;
        }
        rest = above;
    }
    true
}

// The lowest byte of a number, and the number above it.
fn split(number: u32) -> (u8, u32)
    ensures { (result.0 ≡ number % 256) × (result.1 ≡ number / 256) }
{
    ((number % 256) as u8, number / 256)
}
