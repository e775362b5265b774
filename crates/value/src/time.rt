// Dates and times of day.
ghost use Rattle.std.specs.Prelude.{◌≡◌, ◌↔◌, IsTrue, Some};
ghost use Rattle.std.proofs.Common.{rules};
ghost use Rattle.value.specs.Printing.{date_text, clock_text};
ghost use Rattle.value.specs.Times.{no_date, no_clock, LawfulDate, LawfulClock};

use std::fmt;

#[derive(Clone, Copy, PartialEq, Eq, Debug)]
pub struct Date {
    pub year: u16,
    pub month: u8,
    pub day: u8,
    pub weekday: u8,
}

#[derive(Clone, Copy, PartialEq, Eq, Debug)]
pub struct Clock {
    pub hour: u8,
    pub minute: u8,
    pub second: u8,
    pub millisecond: u16,
}

// A date, a time of day, both or neither.
#[derive(Clone, Copy, PartialEq, Eq, Debug)]
pub struct Time {
    pub date: Option<Date>,
    pub clock: Option<Clock>,
}

// The date alone, as a year, a month and a day.
impl fmt::Display for Date {
    ghost output = { λ d. Some (date_text d) };

    #[tactic(auto, using(crate::proofs::Printed::padded_digits, crate::proofs::Printed::joined))]
    fn fmt<W: fmt::Write>(&self, f: &mut fmt::Formatter<W>) -> fmt::Result {
        let Date {
            year,
            month,
            day,
            ..
        } = *self;
        write!(f, "{year}-{month:02}-{day:02}")
    }
}

impl fmt::Display for Clock {
    ghost output = { λ c. Some (clock_text c) };

    #[tactic(auto, using(crate::proofs::Printed::padded_digits, crate::proofs::Printed::clock_joined))]
    fn fmt<W: fmt::Write>(&self, f: &mut fmt::Formatter<W>) -> fmt::Result {
        let Clock {
            hour,
            minute,
            second,
            millisecond,
        } = *self;
        write!(f, "{hour:02}:{minute:02}:{second:02}.{millisecond:03}")
    }
}

// A part of a time: a date or a time of day.
pub trait TimePart: Copy + PartialEq {
    // The fields of an absent part.
    const ZERO: Self;

    ghost ZERO: { Self };

    ghost lawful: { Self → Type 0 };

    // Whether a value may hold this part.
    fn is_lawful(self) -> bool
        ensures { IsTrue result ↔ lawful self };

    // Parts are equal exactly where they are the same.
    ghost same: { (x y : Self) → IsTrue (Self.eq x y) ↔ (x ≡ y) };
}

impl TimePart for Date {
    const ZERO: Date = Date {
        year: 0,
        month: 0,
        day: 0,
        weekday: 0,
    };

    ghost ZERO = { no_date };

    ghost lawful = { LawfulDate };

    fn is_lawful(self) -> bool {
        self.year < 16384
            && 1 <= self.month
            && self.month <= 12
            && 1 <= self.day
            && self.day <= 31
            && self.weekday <= 6
    }

    ghost same = { Prim.search rules };
}

impl TimePart for Clock {
    const ZERO: Clock = Clock {
        hour: 0,
        minute: 0,
        second: 0,
        millisecond: 0,
    };

    ghost ZERO = { no_clock };

    ghost lawful = { LawfulClock };

    fn is_lawful(self) -> bool {
        self.hour <= 23 && self.minute <= 59 && self.second <= 59 && self.millisecond <= 999
    }

    ghost same = { Prim.search rules };
}
