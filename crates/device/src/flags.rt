// Bytes of flags, by name. Bits that no name has are reserved and must be 0.
ghost use Rattle.std.specs.Prelude.{◌≡◌, ℕ, [], ◌∷◌, MatchResult};
ghost use Rattle.basics.specs.Bits.{bits};
ghost use Rattle.body.specs.Fields.{word, whole};
ghost use Rattle.body.specs.Steps.{Took, Failed};
ghost use Rattle.device.specs.Flags.{groups_byte, device_byte, options_byte, groups_items, device_items, options_items};

use basics::bits::is_set;
use body::cursor::Body;
use body::fault::MessageRefusal;
use body::held::Held;

// Which devices are to answer a search.
#[derive(Clone, Copy, PartialEq, Eq, Debug)]
pub struct Groups {
    pub utility: bool,
    pub panel: bool,
    pub controller: bool,
    pub actuator: bool,
}

// What a device is and can do.
#[derive(Clone, Copy, PartialEq, Eq, Debug)]
pub struct DeviceFlags {
    pub groups: Groups,
    // it runs its boot loader
    pub booting: bool,
    // it can renew its own program
    pub updatable: bool,
    // it has a bus of its own
    pub gateway: bool,
}

// What the entries of a list are to hold.
#[derive(Clone, Copy, PartialEq, Eq, Debug)]
pub struct ListOptions {
    // a sub-device, a function and a group
    pub detailed: bool,
    // no name
    pub unnamed: bool,
}

// Flags in a byte, of which `RESERVED` bits from the bit `FROM` on are reserved.
trait Flags: Copy {
    const FROM: u8;

    ghost FROM: { ℕ };

    const RESERVED: u8;

    ghost RESERVED: { ℕ };

    // the byte as it is written
    ghost written: { Self → ℕ };

    // The flags in a byte.
    fn in_byte(byte: u8) -> Self
        ensures { bits FROM RESERVED byte ≡ 0 → written result ≡ byte };
}

impl Flags for Groups {
    const FROM: u8 = 4;

    ghost FROM = { 4 };

    const RESERVED: u8 = 4;

    ghost RESERVED = { 4 };

    ghost written = { groups_byte };

    fn in_byte(byte: u8) -> Groups {
        let byte = u16::from(byte);
        Groups {
            utility: is_set(byte, 0),
            panel: is_set(byte, 1),
            controller: is_set(byte, 2),
            actuator: is_set(byte, 3),
        }
    }
}

impl Flags for DeviceFlags {
    const FROM: u8 = 7;

    ghost FROM = { 7 };

    const RESERVED: u8 = 1;

    ghost RESERVED = { 1 };

    ghost written = { device_byte };

    fn in_byte(byte: u8) -> DeviceFlags {
        let groups = Groups::in_byte(byte % 16);
        let byte = u16::from(byte);
        DeviceFlags {
            groups,
            booting: is_set(byte, 4),
            updatable: is_set(byte, 5),
            gateway: is_set(byte, 6),
        }
    }
}

impl Flags for ListOptions {
    const FROM: u8 = 0;

    ghost FROM = { 0 };

    const RESERVED: u8 = 6;

    ghost RESERVED = { 6 };

    ghost written = { options_byte };

    fn in_byte(byte: u8) -> ListOptions {
        let byte = u16::from(byte);
        ListOptions {
            detailed: is_set(byte, 7),
            unnamed: is_set(byte, 6),
        }
    }
}

// Takes a byte of flags. `Held` has an impl for each kind: one for every kind would overlap with those of numbers.
fn take_flags<F: Flags>(body: Body<'_>) -> Result<(F, Body<'_>), MessageRefusal>
    ensures { MatchResult result (λ p. Took (word 1 F.FROM F.RESERVED ∷ []) (whole 1 (F.written p.0) ∷ []) body.entry p.1) (λ e. Failed (word 1 F.FROM F.RESERVED ∷ []) body.entry e) }
{
    let (byte, body) = body.take_word::<u8>(F::FROM, F::RESERVED)?;
    Ok((F::in_byte(byte), body))
}

impl<'a> Held<'a> for Groups {
    ghost fields = { word 1 4 4 ∷ [] };

    ghost items = { groups_items };

    fn take(body: Body<'a>) -> Result<(Groups, Body<'a>), MessageRefusal> {
        take_flags(body)
    }
}

impl<'a> Held<'a> for DeviceFlags {
    ghost fields = { word 1 7 1 ∷ [] };

    ghost items = { device_items };

    fn take(body: Body<'a>) -> Result<(DeviceFlags, Body<'a>), MessageRefusal> {
        take_flags(body)
    }
}

impl<'a> Held<'a> for ListOptions {
    ghost fields = { word 1 0 6 ∷ [] };

    ghost items = { options_items };

    fn take(body: Body<'a>) -> Result<(ListOptions, Body<'a>), MessageRefusal> {
        take_flags(body)
    }
}
