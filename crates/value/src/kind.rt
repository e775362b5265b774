// The types of values.
ghost use Rattle.std.specs.Prelude.{◌≡◌};
ghost use Rattle.value.specs.Kinds.{type_number, TypeTold};

#[derive(Clone, Copy, PartialEq, Eq, Debug)]
pub enum Kind {
    I8 = 2,
    U8 = 3,
    I16 = 4,
    U16 = 5,
    I32 = 6,
    U32 = 7,
    F32 = 8,
    I64 = 9,
    U64 = 10,
    F64 = 11,
    Text = 12,
    Time = 14,
    Bytes = 15,
}

impl Kind {
    // The number that stands for this type in a header.
    pub fn number(self) -> u8
        ensures { result ≡ type_number self }
    {
        self as u8
    }
}

// Why no type has a number: it is above those of all types, or no type uses it.
#[derive(Clone, Copy, PartialEq, Eq, Debug)]
pub enum KindFault {
    Above,
    Unused,
}

impl TryFrom<u8> for Kind {
    type Error = KindFault;

    ghost try_from_gives = { TypeTold };

    fn try_from(number: u8) -> Result<Kind, KindFault> {
        match number {
            2 => Ok(Kind::I8),
            3 => Ok(Kind::U8),
            4 => Ok(Kind::I16),
            5 => Ok(Kind::U16),
            6 => Ok(Kind::I32),
            7 => Ok(Kind::U32),
            8 => Ok(Kind::F32),
            9 => Ok(Kind::I64),
            10 => Ok(Kind::U64),
            11 => Ok(Kind::F64),
            12 => Ok(Kind::Text),
            14 => Ok(Kind::Time),
            15 => Ok(Kind::Bytes),
            0 | 1 | 13 => Err(KindFault::Unused),
            _ => Err(KindFault::Above),
        }
    }
}
