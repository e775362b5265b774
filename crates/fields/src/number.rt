// Numbers at the front of bytes, the lowest byte first.
ghost use Rattle.std.specs.Prelude.{◌≡◌, ◌%◌, ◌^◌, ◌<◌, ◌≤◌, ℕ, length, MatchOption};
ghost use Rattle.std.proofs.Common.{arith};
ghost use Rattle.basics.specs.Little.{little};
ghost use Rattle.fields.specs.Numbers.{NumberFirst, complement};

// A number that stands in at most eight bytes.
pub trait Number: Copy {
    const WIDTH: usize;

    ghost WIDTH: { ℕ };

    // The number whose bytes, the lowest first, stand for this one: itself, or its two's complement.
    ghost written: { Self → ℕ };

    // The number that the lowest bytes of `bits` stand for.
    fn from_lowest(bits: u64) -> Self
        ensures { written result ≡ bits % 256 ^ WIDTH };

    // None has more bytes than a `u64`.
    ghost narrow: { WIDTH ≤ 8 };
}

// One impl for each type, since a rule of the project lets no macro write them.
impl Number for u8 {
    const WIDTH: usize = size_of::<u8>();

    ghost WIDTH = { 1 };

    ghost written = { λ n. n };

    fn from_lowest(bits: u64) -> u8 {
        (bits % 0x100) as u8
    }

    ghost narrow = { Prim.omega arith };
}

impl Number for u16 {
    const WIDTH: usize = size_of::<u16>();

    ghost WIDTH = { 2 };

    ghost written = { λ n. n };

    fn from_lowest(bits: u64) -> u16 {
        (bits % 0x1_0000) as u16
    }

    ghost narrow = { Prim.omega arith };
}

impl Number for u32 {
    const WIDTH: usize = size_of::<u32>();

    ghost WIDTH = { 4 };

    ghost written = { λ n. n };

    fn from_lowest(bits: u64) -> u32 {
        (bits % 0x1_0000_0000) as u32
    }

    ghost narrow = { Prim.omega arith };
}

impl Number for u64 {
    const WIDTH: usize = size_of::<u64>();

    ghost WIDTH = { 8 };

    ghost written = { λ n. n };

    fn from_lowest(bits: u64) -> u64 {
        bits
    }

    ghost narrow = { Prim.omega arith };
}

impl Number for i8 {
    const WIDTH: usize = size_of::<i8>();

    ghost WIDTH = { 1 };

    ghost written = { complement 1 };

    fn from_lowest(bits: u64) -> i8 {
        u8::from_lowest(bits).cast_signed()
    }

    ghost narrow = { Prim.omega arith };
}

impl Number for i16 {
    const WIDTH: usize = size_of::<i16>();

    ghost WIDTH = { 2 };

    ghost written = { complement 2 };

    fn from_lowest(bits: u64) -> i16 {
        u16::from_lowest(bits).cast_signed()
    }

    ghost narrow = { Prim.omega arith };
}

impl Number for i32 {
    const WIDTH: usize = size_of::<i32>();

    ghost WIDTH = { 4 };

    ghost written = { complement 4 };

    fn from_lowest(bits: u64) -> i32 {
        u32::from_lowest(bits).cast_signed()
    }

    ghost narrow = { Prim.omega arith };
}

impl Number for i64 {
    const WIDTH: usize = size_of::<i64>();

    ghost WIDTH = { 8 };

    ghost written = { complement 8 };

    fn from_lowest(bits: u64) -> i64 {
        bits.cast_signed()
    }

    ghost narrow = { Prim.omega arith };
}

// The number whose bytes these are, gathered from the last to the first: `from_le_bytes` wants an array, whose length a
// generic call can't take from `WIDTH`.
fn gathered<N: Number>(bytes: &[u8]) -> N
    requires { length bytes.now ≡ N.WIDTH }
    ensures below { N.written result < 256 ^ N.WIDTH }
    ensures bytes { bytes.now ≡ little N.WIDTH (N.written result) }
{
    let mut number: u64 = 0;
    for byte in bytes.iter().rev() {
        number = 256 * number + u64::from(*byte);
    }
    N::from_lowest(number)
}

// The number at the front of `bytes` and the bytes after it, or nothing where there are too few.
#[tactic(auto, using(crate::proofs::Numbers::front_bytes))]
pub fn take<N: Number>(bytes: &[u8]) -> Option<(N, &[u8])>
    ensures { MatchOption result (length bytes.now < N.WIDTH) (λ p. NumberFirst N.WIDTH (N.written p.0) p.1.now bytes.now) }
{
    let (front, rest) = bytes.split_at_checked(N::WIDTH)?;
    Some((gathered(front), rest))
}
