// What a check is.
ghost use Rattle.std.specs.Prelude.{◌≡◌, ℕ, ◌^◌, ◌<◌, ◌≤◌, List};
ghost use Rattle.basics.specs.Bytes.{Bytes};
ghost use Rattle.checks.specs.Check.{fed};

// A check gives each list of bytes a number of WIDTH bytes. It is computed byte by byte in a register.
pub trait Check {
    type Register: Copy;

    // the number of bytes in which the check is written
    const WIDTH: usize;

    ghost WIDTH: { ℕ };

    // the number that the check gives a list of bytes
    ghost meaning: { List ℕ → ℕ };

    // the register of the empty list, the register after one byte more, and a register's number
    ghost empty: { Self.Register };

    ghost after: { Self.Register → ℕ → Self.Register };

    ghost shows: { Self.Register → ℕ };

    fn start() -> Self::Register
        ensures { result ≡ empty };

    fn feed(register: Self::Register, byte: u8) -> Self::Register
        ensures { result ≡ after register byte };

    fn number(register: Self::Register) -> u32
        ensures { result ≡ shows register };

    ghost bounds: { (1 ≤ WIDTH) × (WIDTH ≤ 4) };

    ghost fits: { (bs : List ℕ) → Bytes bs → meaning bs < 256 ^ WIDTH };

    // feeding a list byte by byte gives a register whose number is the list's meaning
    ghost feeding: { (bs : List ℕ) → Bytes bs → shows (fed after empty bs) ≡ meaning bs };
}

// The check of `bytes`.
pub fn check_of<C: Check>(bytes: &[u8]) -> u32
    ensures is { result ≡ C.meaning bytes.now }
    ensures fits { result < 256 ^ C.WIDTH }
{
    C::number(register_of::<C>(bytes))
}

// The register after all of `bytes`.
fn register_of<C: Check>(bytes: &[u8]) -> C::Register
    ensures is { C.shows result ≡ C.meaning bytes.now }
    ensures fits { C.shows result < 256 ^ C.WIDTH }
{
    let mut register = C::start();
    for byte in bytes {
        register = C::feed(register, *byte);
    }
    register
}
