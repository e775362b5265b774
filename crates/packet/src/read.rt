// Reading a packet.
ghost use Rattle.std.specs.Prelude.{◌≡◌, ◌+◌, ◌≤◌, ◌++◌, length, drop, MatchResult};
ghost use Rattle.packet.specs.Raw.{header_length, size};
ghost use Rattle.basics.specs.Bits.{bit};
ghost use Rattle.basics.specs.Bytes.{Bytes};
ghost use Rattle.packet.specs.Header.{Lawful, header_bytes};
ghost use Rattle.packet.specs.Fields.{FieldAt};
ghost use Rattle.packet.specs.Packet.{Reads};
ghost use Rattle.packet.specs.Faults.{Refused};
ghost use Rattle.packet.specs.Measured.{LawfulStart, Complete};

use crate::fault::PacketFault;
use crate::flags::{cipher, is_set, version};
use crate::header::Header;
use crate::measure::{Front, front_of};
use basics::refusal::Refusal;
use checks::check::Check;

// A packet that was read: its header, and its message, which is a part of the bytes given.
#[derive(Clone, Copy)]
pub struct Packet<'a> {
    pub header: Header,
    pub message: &'a [u8],
}

// An optional field at the place `at`, and the place after it.
fn optional(bytes: &[u8], at: usize, there: bool) -> (Option<u8>, usize)
    requires { at + bit there ≤ length bytes.now }
    ensures { FieldAt bytes.now at there result.0 result.1 }
{
    if there {
        (Some(bytes[at]), at + 1)
    } else {
        (None, at)
    }
}

// The header that stands at the front of `bytes`.
fn read_header(bytes: &[u8]) -> Header
    requires start { LawfulStart bytes.now }
    requires there { header_length bytes.now ≤ length bytes.now }
    ensures bytes { Bytes bytes.now }
    ensures lawful { Lawful result }
    ensures written { bytes.now ≡ header_bytes result (size bytes.now) ++ drop (header_length bytes.now) bytes.now }
{
    let first = bytes[0];
    let second = bytes[1];
    let (route, size_place) = optional(bytes, 2, is_set(second, 7));
    let (source_segment, at) = optional(bytes, size_place + 1, is_set(second, 6));
    let source = bytes[at];
    let (target_segment, at) = optional(bytes, at + 1, is_set(second, 5));
    let (target, _) = optional(bytes, at, is_set(first, 3));
    Header {
        priority: is_set(first, 7),
        version: version(second),
        cipher: cipher(second),
        route,
        source_segment,
        source,
        target_segment,
        target,
    }
}

// Whether the data are all there, agree with their check, and end the bytes given.
fn judge<C: Check>(front: &Front<'_, C>) -> Result<(), Refusal<PacketFault>>
    ensures { MatchResult result (λ _. Complete C.WIDTH C.meaning front.now.bytes.now) (λ e. Refused C.WIDTH C.meaning front.now.bytes.now e.fault e.place) }
{
    let given = front.bytes.len();
    let end = front.extent.end;
    if given < end {
        return Err(Refusal::at(given, PacketFault::CutShort));
    }
    if !front.agrees() {
        return Err(Refusal::at(front.check_place(), PacketFault::Check));
    }
    if given > end {
        return Err(Refusal::at(end, PacketFault::LeftOver));
    }
    Ok(())
}

// The parts of bytes that were judged.
fn take_apart<'a, C: Check>(front: &Front<'a, C>) -> Packet<'a>
    requires { Complete C.WIDTH C.meaning front.now.bytes.now }
    ensures { Reads C.WIDTH C.meaning front.now.bytes.now result.header result.message.now }
{
    Packet {
        header: read_header(front.bytes),
        message: &front.bytes[front.extent.header..front.check_place()],
    }
}

// Reads a packet: its header and its message, or what is wrong with the bytes and where.
pub fn read_packet<'a, C: Check>(bytes: &'a [u8]) -> Result<Packet<'a>, Refusal<PacketFault>>
    ensures { MatchResult result (λ k. Reads C.WIDTH C.meaning bytes.now k.header k.message.now) (λ e. Refused C.WIDTH C.meaning bytes.now e.fault e.place) }
{
    let front = front_of::<C>(bytes)?;
    judge(&front)?;
    Ok(take_apart(&front))
}
