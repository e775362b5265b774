// Reading values.
ghost use Rattle.std.specs.Prelude.{◌≡◌, ◌∷◌, MatchResult, MatchOption, IsOkAnd};
ghost use Rattle.std.specs.Option.{ForSome};
ghost use Rattle.value.specs.Kinds.{header_byte, val_of};
ghost use Rattle.value.specs.Readings.{Reads, Refused, HeaderWrong, DataWrong};
ghost use Rattle.value.specs.Values.{meaning};
ghost use Rattle.value.specs.Moments.{TimeFirst};

use crate::fault::ValueFault;
use crate::kind::Kind;
use crate::moment::time_of;
use crate::time::Time;
use crate::universal::Value;
use basics::refusal::Refusal;
use fields::number::take;
use fields::part::{take_part, take_text};

// The type that a header tells.
fn kind_of(header: u8) -> Result<Kind, ValueFault>
    ensures { MatchResult result (λ k. header ≡ header_byte (val_of header) k) (λ f. HeaderWrong f header) }
{
    let kind = Kind::try_from(header % 32)?;
    if header / 32 % 4 != 0 {
        return Err(ValueFault::Reserved);
    }
    Ok(kind)
}

// A time and the bytes after it.
fn take_time(bytes: &[u8]) -> Result<(Time, &[u8]), ValueFault>
    ensures { MatchResult result (λ p. TimeFirst p.0 p.1.now bytes.now) (λ f. DataWrong f Kind.Time bytes.now) }
{
    let (front, rest) = bytes.split_first_chunk::<8>().ok_or(ValueFault::Cut)?;
    Ok((time_of(front)?, rest))
}

// What was taken as the data of a value, as the value that it is, and the bytes after it.
fn data_of<'a, T, F: FnOnce(T) -> Value<'a>>(
    taken: Option<(T, &'a [u8])>,
    case: F,
) -> Result<(Value<'a>, &'a [u8]), ValueFault>
    requires { ForSome taken (λ p. F.pre case p.0) }
    ensures { MatchOption taken.entry (result ≡ Err ValueFault.Cut) (λ p. IsOkAnd result (λ q. F.post case p.0 q.0 × (q.1 ≡ p.1))) }
{
    let (content, rest) = taken.ok_or(ValueFault::Cut)?;
    Ok((case(content), rest))
}

// The data of a value of type `kind`, and the bytes after them.
fn read_data(kind: Kind, bytes: &[u8]) -> Result<(Value<'_>, &[u8]), ValueFault>
    ensures { MatchResult result (λ p. Reads (meaning p.0) p.1.now (header_byte 1 kind ∷ bytes.now)) (λ f. DataWrong f kind bytes.now) }
{
    match kind {
        Kind::I8 => data_of(take(bytes), Value::I8),
        Kind::U8 => data_of(take(bytes), Value::U8),
        Kind::I16 => data_of(take(bytes), Value::I16),
        Kind::U16 => data_of(take(bytes), Value::U16),
        Kind::I32 => data_of(take(bytes), Value::I32),
        Kind::U32 => data_of(take(bytes), Value::U32),
        Kind::F32 => data_of(take(bytes), Value::F32),
        Kind::I64 => data_of(take(bytes), Value::I64),
        Kind::U64 => data_of(take(bytes), Value::U64),
        Kind::F64 => data_of(take(bytes), Value::F64),
        Kind::Bytes => data_of(take_part(bytes), Value::Bytes),
        Kind::Text => {
            let (text, rest) = take_text(bytes)?;
            Ok((Value::Text(text), rest))
        }
        Kind::Time => {
            let (time, rest) = take_time(bytes)?;
            Ok((Value::Time(time), rest))
        }
    }
}

// The value at the front of `bytes`, and the bytes after it.
fn read_front(bytes: &[u8]) -> Result<(Value<'_>, &[u8]), ValueFault>
    ensures { MatchResult result (λ p. Reads (meaning p.0) p.1.now bytes.now) (λ f. Refused f bytes.now) }
{
    let (header, rest) = bytes.split_first().ok_or(ValueFault::Cut)?;
    let kind = kind_of(*header)?;
    if *header < 128 {
        return Ok((Value::Absent(kind), rest));
    }
    read_data(kind, rest)
}

// Reads a value whose first byte stands at `place`: the value and the bytes after it, or a refusal at `place`.
pub fn read_value_at(bytes: &[u8], place: usize) -> Result<(Value<'_>, &[u8]), Refusal<ValueFault>>
    ensures { MatchResult result (λ p. Reads (meaning p.0) p.1.now bytes.now) (λ e. Refused e.fault bytes.now × (e.place ≡ place)) }
{
    read_front(bytes).map_err(|fault| Refusal::at(place, fault))
}

// Reads a value that is given alone, so that places count from its first byte.
pub fn read_value(bytes: &[u8]) -> Result<(Value<'_>, &[u8]), Refusal<ValueFault>>
    ensures { MatchResult result (λ p. Reads (meaning p.0) p.1.now bytes.now) (λ e. Refused e.fault bytes.now × (e.place ≡ 0)) }
{
    read_value_at(bytes, 0)
}
