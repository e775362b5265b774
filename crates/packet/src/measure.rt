// How far a packet reaches, told from its header before its data are looked at.
ghost use Rattle.std.specs.Prelude.{◌≡◌, ◌<◌, ◌≤◌, ◌↔◌, length, IsTrue, MatchOption, MatchResult};
ghost use Rattle.packet.specs.Raw.{check_place, message, check_bytes};
ghost use Rattle.packet.specs.Measured.{Begun, RefusedInHeader, Measured, Measured-prop, Agrees};

use crate::fault::PacketFault;
use crate::flags::{byte_at, cipher, is_set, opens, version};
use crate::header::header_length;
use basics::number::are_lowest_bytes;
use basics::refusal::Refusal;
use checks::check::{Check, check_of};
use std::marker::PhantomData;

// The place after the header, and the place after the packet's last byte.
#[derive(Clone, Copy, PartialEq, Eq, Debug)]
pub struct Extent {
    pub header: usize,
    pub end: usize,
}

// Bytes that begin a packet as far as its size, with its extent.
#[derive(Drop)]
pub struct Front<'a, C: Check> {
    pub bytes: &'a [u8],
    pub extent: Extent,
    check: PhantomData<C>,
    pub ghost measured: { Measured C.WIDTH bytes.now extent.header extent.end } by { Measured-prop C.WIDTH bytes.now extent.header extent.end },
}

impl<'a, C: Check> Front<'a, C> {
    // The place after the message, where its check stands.
    pub fn check_place(&self) -> usize
        ensures { result ≡ check_place C.WIDTH self.now.bytes.now }
    {
        self.extent.end - C::WIDTH
    }

    // The message, where it is all there.
    pub fn message(&self) -> Option<&'a [u8]>
        ensures { MatchOption result (length self.now.bytes.now < check_place C.WIDTH self.now.bytes.now) (λ m. m.now ≡ message C.WIDTH self.now.bytes.now) }
    {
        self.bytes.get(self.extent.header..self.check_place())
    }

    // The bytes of the check that are there.
    pub fn found(&self) -> &'a [u8]
        ensures { result.now ≡ check_bytes C.WIDTH self.now.bytes.now }
    {
        let last = self.extent.end.min(self.bytes.len());
        self.bytes.get(self.check_place()..last).unwrap_or(&[])
    }

    // Whether those are the lowest bytes of the message's check, which is computed only once its first byte is there.
    pub fn agrees(&self) -> bool
        ensures { IsTrue result ↔ Agrees C.WIDTH C.meaning self.now.bytes.now }
    {
        let place = self.check_place();
        let given = self.bytes.len();
        if given <= place {
            return true;
        }
        let number = check_of::<C>(&self.bytes[self.extent.header..place]);
        are_lowest_bytes(&self.bytes[place..given.min(self.extent.end)], number)
    }
}

// Measures the bytes, and keeps them beside their extent.
pub fn front_of<C: Check>(bytes: &[u8]) -> Result<Front<'_, C>, Refusal<PacketFault>>
    ensures { MatchResult result (λ f. f.bytes.now ≡ bytes.now) (λ e. RefusedInHeader C.WIDTH C.meaning bytes.now e.fault e.place) }
{
    Ok(Front {
        bytes,
        extent: measure::<C>(bytes)?,
        check: PhantomData,
    })
}

// Reads the header as far as its size. What it refuses stands there, or the size is cut off; whether the data are there
// and agree with their check is not looked at.
pub fn measure<C: Check>(bytes: &[u8]) -> Result<Extent, Refusal<PacketFault>>
    ensures { MatchResult result (λ x. Measured C.WIDTH bytes.now x.header x.end) (λ e. RefusedInHeader C.WIDTH C.meaning bytes.now e.fault e.place) }
{
    judge_start::<C>(bytes)?;
    let first = byte_at(bytes, 0);
    let second = byte_at(bytes, 1);
    let size_place = if is_set(second, 7) { 3 } else { 2 };
    // no `ok_or`, which would make the refusal for every byte: 5 instructions more for each byte of noise
    let Some(size) = bytes.get(size_place) else {
        return Err(Refusal::at(bytes.len(), PacketFault::CutShort));
    };
    let size = usize::from(*size);
    if size < C::WIDTH + 2 {
        return Err(Refusal::at(size_place, PacketFault::Size));
    }
    let header = header_length(first, second);
    Ok(Extent {
        header,
        end: header + size,
    })
}

// Judges those of the two flag bytes and the route that are there.
fn judge_start<C: Check>(bytes: &[u8]) -> Result<(), Refusal<PacketFault>>
    ensures { MatchResult result (λ _. Begun bytes.now) (λ e. RefusedInHeader C.WIDTH C.meaning bytes.now e.fault e.place) }
{
    let given = bytes.len();
    let second = byte_at(bytes, 1);
    if given > 0 && !opens(byte_at(bytes, 0)) {
        return Err(Refusal::at(0, PacketFault::FirstByte));
    }
    if given > 1 && version(second) == 0 {
        return Err(Refusal::at(1, PacketFault::Version));
    }
    if given > 1 && cipher(second) > 3 {
        return Err(Refusal::at(1, PacketFault::Cipher));
    }
    if given > 2 && is_set(second, 7) && byte_at(bytes, 2) > 15 {
        return Err(Refusal::at(2, PacketFault::Route));
    }
    Ok(())
}
