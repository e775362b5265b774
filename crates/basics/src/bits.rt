// Bits of numbers.
ghost use Rattle.std.specs.Prelude.{◌≡◌};
ghost use Rattle.basics.specs.Bits.{bits, bit};

// `count` bits of `word` from the bit `from` on, as a number. Above bit 15 all are 0.
pub fn bits_of(word: u16, from: u8, count: u8) -> u16
    ensures { result ≡ bits from count word }
{
    if from > 15 {
        return 0;
    }
    let above = word >> from;
    if count > 15 {
        return above;
    }
    above % (1 << count)
}

// Whether the bit `k` of `word` is set.
pub fn is_set(word: u16, k: u8) -> bool
    ensures { bit result ≡ bits k 1 word }
{
    bits_of(word, k, 1) == 1
}
