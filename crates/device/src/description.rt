// What devices tell of themselves.
use crate::flags::DeviceFlags;
use text::Text;

// What a device was last set to.
#[derive(Clone, Copy, PartialEq, Eq, Debug)]
pub struct Revision {
    pub user_id: u32,
    pub counter: u16,
}

// The answer to a search.
#[derive(Clone, Copy)]
pub struct Found<'a> {
    pub group: u8,
    pub unique_id: Text<'a>,
    pub event: u8,
    pub flags: DeviceFlags,
    pub revision: Revision,
}

// What a device is called.
#[derive(Clone, Copy)]
pub struct Names<'a> {
    pub name: Text<'a>,
    pub manufacturer: Text<'a>,
    pub model: Text<'a>,
    pub unique_id: Text<'a>,
}

// What a device is made of.
#[derive(Clone, Copy)]
pub struct Platform {
    pub class: u8,
    pub processor: u8,
    pub system: u8,
    pub flags: DeviceFlags,
}

// What a device is for.
#[derive(Clone, Copy)]
pub struct Product {
    pub profile: u16,
    pub version: u16,
    pub control_channels: u32,
    pub feedback_channels: u32,
}

// The description of a device.
#[derive(Clone, Copy)]
pub struct Info<'a> {
    pub group: u8,
    pub names: Names<'a>,
    pub platform: Platform,
    pub product: Product,
    pub revision: Revision,
}
