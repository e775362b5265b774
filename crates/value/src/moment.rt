// Times in eight bytes.
ghost use Rattle.std.specs.Prelude.{◌≡◌, MatchOption, MatchResult};
ghost use Rattle.value.specs.Moments.{LaidOut, NoLayout, PartTold, NoPart, TimeTold, NotTime};

use crate::fault::ValueFault;
use crate::time::{Clock, Date, Time, TimePart};

// The fields of a part of a time, with the flag that tells whether it is there. Bytes may have either without the other,
// which is a fault, so this is no Option.
#[derive(Clone, Copy)]
struct Flagged<P> {
    flag: bool,
    fields: P,
}

// What eight bytes hold, by their layout.
#[derive(Clone, Copy)]
struct Fields {
    date: Flagged<Date>,
    clock: Flagged<Clock>,
}

impl<P: TimePart> Flagged<P> {
    // The part that is told. Where the flag is not set, all fields are 0.
    fn part(self) -> Result<Option<P>, ValueFault>
        ensures { MatchResult result (λ o. PartTold P.lawful P.ZERO self o) (λ f. (f ≡ ValueFault.Time) × NoPart P.lawful P.ZERO self) }
    {
        match self.flag {
            true if self.fields.is_lawful() => Ok(Some(self.fields)),
            false if self.fields == P::ZERO => Ok(None),
            _ => Err(ValueFault::Time),
        }
    }
}

// The fields of eight bytes, or nothing where a reserved bit is set or two flags of one name differ.
fn fields_of(bytes: &[u8; 8]) -> Option<Fields>
    ensures { MatchOption result (NoLayout bytes.now) (λ f. LaidOut f bytes.now) }
{
    let [b0, b1, b2, b3, b4, b5, b6, b7] = *bytes;
    if b3 > 1 || b0 % 4 != b4 % 4 {
        return None;
    }
    let date = Date {
        year: u16::from(b0 / 4) + 64 * u16::from(b1),
        month: b2 % 16,
        day: b2 / 16 + 16 * b3,
        weekday: b7 / 32,
    };
    let clock = Clock {
        hour: b4 / 4 % 32,
        minute: b4 / 128 + 2 * (b5 % 32),
        second: b5 / 32 + 8 * (b6 % 8),
        millisecond: u16::from(b6 / 8) + 32 * u16::from(b7 % 32),
    };
    Some(Fields {
        date: Flagged {
            flag: b0 % 2 == 1,
            fields: date,
        },
        clock: Flagged {
            flag: b0 / 2 % 2 == 1,
            fields: clock,
        },
    })
}

// The time that eight bytes hold.
pub(crate) fn time_of(bytes: &[u8; 8]) -> Result<Time, ValueFault>
    ensures { MatchResult result (λ t. TimeTold t bytes.now) (λ f. (f ≡ ValueFault.Time) × NotTime bytes.now) }
{
    let fields = fields_of(bytes).ok_or(ValueFault::Time)?;
    let date = fields.date.part()?;
    let clock = fields.clock.part()?;
    Ok(Time { date, clock })
}
