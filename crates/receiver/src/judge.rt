// What the held bytes can become.
ghost use Rattle.packet.specs.Packet.{Packet};
ghost use Rattle.receiver.specs.Judging.{Judged};

use checks::check::Check;
use packet::fault::PacketFault;
use packet::measure::front_of;

// The three cases that the rules of next tell apart.
#[derive(Clone, Copy)]
pub enum Verdict {
    // the first bytes, as many as this, are a packet
    Whole(usize),
    Possible,
    Impossible,
}

// Whether the bytes begin with a packet, or could. The check is computed at most as often for a packet as it has bytes,
// since it is looked at only once its first byte is there.
pub fn judge<C: Check>(held: &[u8]) -> Verdict
    ensures { Judged (Packet C.WIDTH C.meaning) held.now result }
{
    match front_of::<C>(held) {
        Ok(front) if held.len() <= front.check_place() => Verdict::Possible,
        Ok(front) if !front.agrees() => Verdict::Impossible,
        Ok(front) if held.len() < front.extent.end => Verdict::Possible,
        Ok(front) => Verdict::Whole(front.extent.end),
        Err(refusal) => match refusal.fault {
            PacketFault::CutShort => Verdict::Possible,
            _ => Verdict::Impossible,
        },
    }
}
