// Follows one recorded packet from the wire to its verdict, then the same packet damaged, and then behind a disturbance,
// in words for those who answer installers' calls.
#![tactic(auto)]

mod receiving;
mod report;
mod values;

use checks::check::Check;
use checks::crc16::Crc16;
use packet::measure::front_of;
use packet::read::read_packet;
use show::RECORDED;
use std::io;

const DAMAGED: [u8; 12] = [
    0x75, 0x08, 0x08, 0x05, 0x11, 0x11, 0x07, 0x00, 0x02, 0x01, 0x3E, 0x8C,
];

// What the library makes of these bytes.
fn follow(rt: &impl Print, bytes: &[u8]) -> io::Result<()> {
    report::bytes(rt, bytes)?;
    let reading = read_packet::<Crc16>(bytes);
    if let Ok(packet) = reading {
        report::header(rt, packet.header)?;
    }
    if let Ok(front) = front_of::<Crc16>(bytes) {
        report::extent(rt, front.extent)?;
        report::data(rt, &front)?;
    }
    match reading {
        Ok(_) => report::accepted(rt),
        Err(refusal) => report::refused(rt, refusal),
    }
}

fn main(rt: HostRuntime) -> io::Result<()> {
    println!(rt; "A packet as it was recorded on the wire")?;
    follow(&rt, &RECORDED)?;
    println!(rt; "")?;
    println!(rt; "The same packet with one bit of its last byte turned over")?;
    follow(&rt, &DAMAGED)?;
    println!(rt; "")?;
    println!(rt; "The packet on the wire, behind the header of one that was cut off")?;
    receiving::follow(&rt, &RECORDED)?;
    println!(rt; "")?;
    println!(rt; "Universal values, as messages carry them")?;
    values::follow(&rt)
}
