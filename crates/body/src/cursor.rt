// What is left of a body.
ghost use Rattle.std.specs.Prelude.{◌≡◌, ◌+◌, length};

// The bytes that are left, and the place after the last of them.
#[derive(Clone, Copy)]
pub struct Body<'a> {
    pub rest: &'a [u8],
    pub end: usize,
}

impl<'a> Body<'a> {
    // The bytes whose first stands at the place `start`.
    pub fn new(bytes: &'a [u8], start: u8) -> Body<'a>
        ensures bytes { result.rest.now ≡ bytes.now }
        ensures end { result.end ≡ start + length bytes.now }
    {
        Body {
            rest: bytes,
            end: usize::from(start) + bytes.len(),
        }
    }
}
