// Values that are read, and bytes that are refused.

#[cfg(test)]
mod tests {
    use basics::refusal::{Fault, Layer};
    use std::process::Abort;
    use std::test::Fail;
    use text::Text;
    use value::kind::Kind;
    use value::read::{read_value, read_value_at};
    use value::time::{Clock, Date, Time};
    use value::universal::Value;

    // The value that all of `bytes` are read as.
    fn whole<'a>(rt: &impl Abort, bytes: &'a [u8]) -> Result<Value<'a>, Fail> {
        let (value, rest) = read_value(bytes)?;
        assert!(rt; rest.is_empty());
        Ok(value)
    }

    // The number that `bytes` are read as, and its type.
    fn number_in(rt: &impl Abort, bytes: &[u8]) -> Result<(Kind, i128), Fail> {
        match whole(rt, bytes)? {
            Value::I8(n) => Ok((Kind::I8, i128::from(n))),
            Value::U8(n) => Ok((Kind::U8, i128::from(n))),
            Value::I16(n) => Ok((Kind::I16, i128::from(n))),
            Value::U16(n) => Ok((Kind::U16, i128::from(n))),
            Value::I32(n) => Ok((Kind::I32, i128::from(n))),
            Value::U32(n) => Ok((Kind::U32, i128::from(n))),
            Value::F32(bits) => Ok((Kind::F32, i128::from(bits))),
            Value::I64(n) => Ok((Kind::I64, i128::from(n))),
            Value::U64(n) => Ok((Kind::U64, i128::from(n))),
            Value::F64(bits) => Ok((Kind::F64, i128::from(bits))),
            _ => Err(Fail::new("it is no number")),
        }
    }

    // Numbers and the bits of floats, by their types.
    const NUMBERS: [(&[u8], Kind, i128); 13] = [
        (&[0x82, 0x80], Kind::I8, -128),
        (&[0x82, 0x7F], Kind::I8, 127),
        (&[0x82, 0xFF], Kind::I8, -1),
        (&[0x83, 0xFF], Kind::U8, 255),
        (&[0x84, 0xFE, 0xFF], Kind::I16, -2),
        (&[0x85, 0x34, 0x12], Kind::U16, 0x1234),
        (&[0x86, 0xFD, 0xFF, 0xFF, 0xFF], Kind::I32, -3),
        (&[0x87, 0x78, 0x56, 0x34, 0x12], Kind::U32, 0x12345678),
        (&[0x88, 0x00, 0x00, 0x80, 0x3F], Kind::F32, 0x3F800000),
        (
            &[0x89, 0xFC, 0xFF, 0xFF, 0xFF, 0xFF, 0xFF, 0xFF, 0xFF],
            Kind::I64,
            -4,
        ),
        (
            &[0x89, 0x00, 0x00, 0x00, 0x00, 0x00, 0x00, 0x00, 0x80],
            Kind::I64,
            -0x8000_0000_0000_0000,
        ),
        (
            &[0x8A, 0x08, 0x07, 0x06, 0x05, 0x04, 0x03, 0x02, 0x01],
            Kind::U64,
            0x0102030405060708,
        ),
        (
            &[0x8B, 0x00, 0x00, 0x00, 0x00, 0x00, 0x00, 0xF0, 0x3F],
            Kind::F64,
            0x3FF0000000000000,
        ),
    ];

    #[test]
    fn numbers(rt: HostRuntime) -> Result<(), Fail> {
        for (bytes, kind, number) in NUMBERS {
            assert_eq!(rt; number_in(&rt, bytes)?, (kind, number));
        }
        Ok(())
    }

    #[test]
    fn texts_and_arrays(rt: HostRuntime) -> Result<(), Fail> {
        assert_eq!(rt;
            whole(&rt, &[0x8C, 0x02, 0x00, 0xD0, 0x96])?,
            Value::Text(Text {
                bytes: &[0xD0, 0x96],
            })
        );
        assert_eq!(rt;
            whole(&rt, &[0x8C, 0x00, 0x00])?,
            Value::Text(Text { bytes: &[] })
        );
        assert_eq!(rt;
            whole(&rt, &[0x8F, 0x02, 0x00, 0xC0, 0x80])?,
            Value::Bytes(&[0xC0, 0x80])
        );
        assert_eq!(rt; whole(&rt, &[0x8F, 0x00, 0x00])?, Value::Bytes(&[]));
        Ok(())
    }

    // Times, with a date and a time of day or without.
    const TIMES: [(&[u8], Time); 6] = [
        (
            &[0x8E, 0xA3, 0x1F, 0xD2, 0x01, 0x33, 0xAF, 0xA5, 0x8F],
            Time {
                date: Some(Date {
                    year: 2024,
                    month: 2,
                    day: 29,
                    weekday: 4,
                }),
                clock: Some(Clock {
                    hour: 12,
                    minute: 30,
                    second: 45,
                    millisecond: 500,
                }),
            },
        ),
        (
            &[0x8E, 0x00, 0x00, 0x00, 0x00, 0x00, 0x00, 0x00, 0x00],
            Time {
                date: None,
                clock: None,
            },
        ),
        (
            &[0x8E, 0xFD, 0xFF, 0xFC, 0x01, 0x01, 0x00, 0x00, 0xC0],
            Time {
                date: Some(Date {
                    year: 16383,
                    month: 12,
                    day: 31,
                    weekday: 6,
                }),
                clock: None,
            },
        ),
        (
            &[0x8E, 0x01, 0x00, 0x11, 0x00, 0x01, 0x00, 0x00, 0x00],
            Time {
                date: Some(Date {
                    year: 0,
                    month: 1,
                    day: 1,
                    weekday: 0,
                }),
                clock: None,
            },
        ),
        (
            &[0x8E, 0x02, 0x00, 0x00, 0x00, 0xDE, 0x7D, 0x3F, 0x1F],
            Time {
                date: None,
                clock: Some(Clock {
                    hour: 23,
                    minute: 59,
                    second: 59,
                    millisecond: 999,
                }),
            },
        ),
        (
            &[0x8E, 0x02, 0x00, 0x00, 0x00, 0x02, 0x00, 0x00, 0x00],
            Time {
                date: None,
                clock: Some(Clock {
                    hour: 0,
                    minute: 0,
                    second: 0,
                    millisecond: 0,
                }),
            },
        ),
    ];

    #[test]
    fn times(rt: HostRuntime) -> Result<(), Fail> {
        for (bytes, time) in TIMES {
            match whole(&rt, bytes)? {
                Value::Time(read) => assert_eq!(rt; read, time),
                _ => return Err(Fail::new("it is no time")),
            }
        }
        Ok(())
    }

    // The types by their numbers.
    const KINDS: [(Kind, u8); 13] = [
        (Kind::I8, 2),
        (Kind::U8, 3),
        (Kind::I16, 4),
        (Kind::U16, 5),
        (Kind::I32, 6),
        (Kind::U32, 7),
        (Kind::F32, 8),
        (Kind::I64, 9),
        (Kind::U64, 10),
        (Kind::F64, 11),
        (Kind::Text, 12),
        (Kind::Time, 14),
        (Kind::Bytes, 15),
    ];

    #[test]
    fn absent_values_keep_their_type(rt: HostRuntime) -> Result<(), Fail> {
        for (kind, number) in KINDS {
            assert_eq!(rt; kind.number(), number);
            match whole(&rt, &[number])? {
                Value::Absent(kept) => assert_eq!(rt; kept, kind),
                _ => return Err(Fail::new("it is not absent")),
            }
        }
        Ok(())
    }

    #[test]
    fn what_follows_is_handed_back(rt: HostRuntime) -> Result<(), Fail> {
        let (_, rest) = read_value(&[0x83, 0xFF, 0x01, 0x02])?;
        assert_eq!(rt; rest, [0x01, 0x02].as_slice());
        let (_, rest) = read_value(&[0x0C, 0x8C])?;
        assert_eq!(rt; rest, [0x8C].as_slice());
        let (_, rest) = read_value(&[0x8C, 0x01, 0x00, 0x41, 0xFF])?;
        assert_eq!(rt; rest, [0xFF].as_slice());
        Ok(())
    }

    // Bytes that are refused, and the number of the fault.
    const REFUSED: [(&[u8], u8); 68] = [
        (&[0x90], 30),
        (&[0x10], 30),
        (&[0x9F, 0x00, 0x00], 30),
        (&[0x1F], 30),
        (&[0xFF], 30),
        (&[0x80], 31),
        (&[0x81], 31),
        (&[0x8D], 31),
        (&[0x00], 31),
        (&[0x01], 31),
        (&[0x0D], 31),
        (&[0xED], 31),
        (&[0xA3, 0xFF], 32),
        (&[0xC3, 0xFF], 32),
        (&[0x23], 32),
        (&[0x43], 32),
        (&[0xE3], 32),
        (&[], 33),
        (&[0x83], 33),
        (&[0x82], 33),
        (&[0x84, 0x00], 33),
        (&[0x85, 0x00], 33),
        (&[0x86, 0x00, 0x00, 0x00], 33),
        (&[0x87, 0x00, 0x00, 0x00], 33),
        (&[0x88, 0x00, 0x00, 0x00], 33),
        (&[0x89, 0x00, 0x00, 0x00, 0x00, 0x00, 0x00, 0x00], 33),
        (&[0x8A, 0x00, 0x00, 0x00, 0x00, 0x00, 0x00, 0x00], 33),
        (&[0x8B, 0x00, 0x00, 0x00, 0x00, 0x00, 0x00, 0x00], 33),
        (&[0x8E, 0x00, 0x00, 0x00, 0x00, 0x00, 0x00, 0x00], 33),
        (&[0x8C], 33),
        (&[0x8C, 0x02], 33),
        (&[0x8C, 0x02, 0x00], 33),
        (&[0x8C, 0x02, 0x00, 0xD0], 33),
        (&[0x8C, 0x00, 0x01, 0x41], 33),
        (&[0x8F], 33),
        (&[0x8F, 0x02], 33),
        (&[0x8F, 0x02, 0x00], 33),
        (&[0x8F, 0x02, 0x00, 0xD0], 33),
        (&[0x8F, 0x00, 0x01, 0x41], 33),
        (&[0x8C, 0x02, 0x00, 0xC0], 33),
        (&[0x8E, 0xFF, 0xFF, 0xFF, 0xFF, 0xFF, 0xFF, 0xFF], 33),
        (&[0x8C, 0x02, 0x00, 0xC0, 0x80], 34),
        (&[0x8C, 0x01, 0x00, 0x80], 34),
        (&[0x8C, 0x03, 0x00, 0xED, 0xA0, 0x80], 34),
        (&[0x8C, 0x04, 0x00, 0xF4, 0x90, 0x80, 0x80], 34),
        (&[0x8C, 0x01, 0x00, 0xD0, 0x96], 34),
        (&[0x8E, 0xA3, 0x1F, 0xDD, 0x01, 0x33, 0xAF, 0xA5, 0x8F], 35),
        (&[0x8E, 0xA3, 0x1F, 0xD0, 0x01, 0x33, 0xAF, 0xA5, 0x8F], 35),
        (&[0x8E, 0xA3, 0x1F, 0x02, 0x00, 0x33, 0xAF, 0xA5, 0x8F], 35),
        (&[0x8E, 0xA3, 0x1F, 0xD2, 0x01, 0x33, 0xAF, 0xA5, 0xEF], 35),
        (&[0x8E, 0xA3, 0x1F, 0xD2, 0x01, 0x63, 0xAF, 0xA5, 0x8F], 35),
        (&[0x8E, 0xA3, 0x1F, 0xD2, 0x01, 0x33, 0xBE, 0xA5, 0x8F], 35),
        (&[0x8E, 0xA3, 0x1F, 0xD2, 0x01, 0x33, 0x8F, 0xA7, 0x8F], 35),
        (&[0x8E, 0xA3, 0x1F, 0xD2, 0x01, 0x33, 0xAF, 0x45, 0x9F], 35),
        (&[0x8E, 0xA3, 0x1F, 0xD2, 0x03, 0x33, 0xAF, 0xA5, 0x8F], 35),
        (&[0x8E, 0xA3, 0x1F, 0xD2, 0x81, 0x33, 0xAF, 0xA5, 0x8F], 35),
        (&[0x8E, 0xA3, 0x1F, 0xD2, 0x01, 0x32, 0xAF, 0xA5, 0x8F], 35),
        (&[0x8E, 0xA3, 0x1F, 0xD2, 0x01, 0x31, 0xAF, 0xA5, 0x8F], 35),
        (&[0x8E, 0x02, 0x00, 0x00, 0x00, 0x33, 0xAF, 0xA5, 0x0F], 35),
        (&[0x8E, 0xA1, 0x1F, 0xD2, 0x01, 0x03, 0x00, 0x00, 0x80], 35),
        (&[0x8E, 0x06, 0x00, 0x00, 0x00, 0x32, 0xAF, 0xA5, 0x0F], 35),
        (&[0x8E, 0x02, 0x00, 0x01, 0x00, 0x32, 0xAF, 0xA5, 0x0F], 35),
        (&[0x8E, 0x02, 0x00, 0x10, 0x00, 0x32, 0xAF, 0xA5, 0x0F], 35),
        (&[0x8E, 0x02, 0x00, 0x00, 0x00, 0x32, 0xAF, 0xA5, 0x2F], 35),
        (&[0x8E, 0xA1, 0x1F, 0xD2, 0x01, 0x05, 0x00, 0x00, 0x80], 35),
        (&[0x8E, 0xA1, 0x1F, 0xD2, 0x01, 0x81, 0x00, 0x00, 0x80], 35),
        (&[0x8E, 0xA1, 0x1F, 0xD2, 0x01, 0x01, 0x20, 0x00, 0x80], 35),
        (&[0x8E, 0xA1, 0x1F, 0xD2, 0x01, 0x01, 0x00, 0x08, 0x80], 35),
    ];

    // `bytes` are refused at `place` with the fault `number`.
    fn refuses(rt: &impl Abort, bytes: &[u8], place: usize, number: u8) -> Result<(), Fail> {
        match read_value_at(bytes, place) {
            Ok(_) => Err(Fail::new("it is read")),
            Err(refusal) => {
                assert_eq!(rt; refusal.fault.number(), number);
                assert_eq!(rt; refusal.fault.layer(), Layer::Value);
                assert_eq!(rt; refusal.place, place);
                Ok(())
            }
        }
    }

    #[test]
    fn refusals(rt: HostRuntime) -> Result<(), Fail> {
        for (bytes, number) in REFUSED {
            refuses(&rt, bytes, 7, number)?;
        }
        Ok(())
    }

    #[test]
    fn a_value_alone_is_refused_at_its_first_byte(rt: HostRuntime) -> Result<(), Fail> {
        match read_value(&[0x83]) {
            Ok(_) => Err(Fail::new("it is read")),
            Err(refusal) => {
                assert_eq!(rt; refusal.place, 0);
                Ok(())
            },
        }
    }
}
