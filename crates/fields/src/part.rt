// Parts at the front of bytes, with a length of two bytes before them.
ghost use Rattle.std.specs.Prelude.{length, MatchOption, MatchResult};
ghost use Rattle.fields.specs.Parts.{PartFirst, PartCut, TextFirst, TextWrong};

use crate::number::take;
use text::{Text, is_text};

// A part and the bytes after it, or nothing where the bytes end before it does.
pub fn take_part(bytes: &[u8]) -> Option<(&[u8], &[u8])>
    ensures { MatchOption result (PartCut bytes.now) (λ p. PartFirst p.0.now p.1.now bytes.now) }
{
    let (length, rest) = take::<u16>(bytes)?;
    rest.split_at_checked(usize::from(length))
}

// Why no text stands at the front: the bytes end before it does, or its bytes are no text.
#[derive(Clone, Copy, PartialEq, Eq, Debug)]
pub enum TextFault {
    Cut,
    NoText,
}

// A part that is a text, and the bytes after it.
pub fn take_text(bytes: &[u8]) -> Result<(Text<'_>, &[u8]), TextFault>
    ensures { MatchResult result (λ p. TextFirst p.0.bytes.now p.1.now bytes.now) (λ e. TextWrong e bytes.now) }
{
    let (bytes, rest) = take_part(bytes).ok_or(TextFault::Cut)?;
    if !is_text(bytes) {
        return Err(TextFault::NoText);
    }
    Ok((Text { bytes }, rest))
}
