// The characters of UTF-8, by their first bytes.
ghost use Rattle.std.specs.Prelude.{IsTrue, ◌↔◌, MatchOption, true, false};
ghost use Rattle.text.specs.Characters.{Tail, Second};
ghost use Rattle.text.specs.Texts.{Absent, IfFirst, ByteFirst, CharacterFirst};

// Whether `byte` goes on with a character.
fn is_tail(byte: u8) -> bool
    ensures { IsTrue result ↔ Tail byte }
{
    matches!(byte, 0x80..=0xBF)
}

// Whether `second` may stand after `lead`. Inlined, so that each arm of `after_character` tests only what its leads may have.
#[inline(always)]
fn may_follow(lead: u8, second: u8) -> bool
    ensures { IsTrue result ↔ Second lead second }
{
    match lead {
        0xE0 => matches!(second, 0xA0..=0xBF),
        0xED => matches!(second, 0x80..=0x9F),
        0xF0 => matches!(second, 0x90..=0xBF),
        0xF4 => matches!(second, 0x80..=0x8F),
        _ => is_tail(second),
    }
}

// The bytes after the first of `bytes`, or nothing where there is none or `may` refuses it.
fn after_byte<F: Fn(u8) -> bool>(may: F, bytes: &[u8]) -> Option<&[u8]>
    requires { F.IsAlwaysCallable may }
    ensures { MatchOption result (IfFirst (λ b. F.post may b false) bytes.now) (λ rest. ByteFirst (λ b. F.post may b true) rest.now bytes.now) }
{
    match bytes {
        [byte, rest @ ..] if may(*byte) => Some(rest),
        _ => None,
    }
}

// The bytes after the character at the front of `bytes`, likewise.
pub(crate) fn after_character(bytes: &[u8]) -> Option<&[u8]>
    ensures { MatchOption result (Absent CharacterFirst bytes.now) (λ rest. CharacterFirst rest.now bytes.now) }
{
    let (lead, rest) = bytes.split_first()?;
    let follows = |second| may_follow(*lead, second);
    match *lead {
        0x00..=0x7F => Some(rest),
        0xC2..=0xDF => after_byte(follows, rest),
        0xE0..=0xEF => after_byte(is_tail, after_byte(follows, rest)?),
        // By a pattern: LLVM would keep a third call of `after_byte` apart, and such texts would take a third more instructions.
        0xF0..=0xF4 => match rest {
            [second, third, fourth, rest @ ..]
                if may_follow(*lead, *second) && is_tail(*third) && is_tail(*fourth) => {
                Some(rest)
            }
            _ => None,
        },
        _ => None,
    }
}
