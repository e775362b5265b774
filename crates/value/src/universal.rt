// Universal values.
use crate::kind::Kind;
use crate::time::Time;
use text::Text;

// A value by its type. Floats are held as their bits; texts and byte arrays are parts of the bytes read.
#[derive(Clone, Copy, PartialEq, Eq, Debug)]
pub enum Value<'a> {
    Absent(Kind),
    I8(i8),
    U8(u8),
    I16(i16),
    U16(u16),
    I32(i32),
    U32(u32),
    F32(u32),
    I64(i64),
    U64(u64),
    F64(u64),
    Text(Text<'a>),
    Time(Time),
    Bytes(&'a [u8]),
}
