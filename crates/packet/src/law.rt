// What holds of all packets under a check. The statement is proved apart from the public call, so that an edit of the
// call is refused in it.
ghost use Rattle.std.specs.Prelude.{◌≡◌, true};
ghost use Rattle.packet.specs.Packet.{OneReading};

use checks::check::Check;

// Whether bytes begin with at most one packet, and a packet has one reading. They do: the contract says so for every check.
pub fn has_one_reading<C: Check>() -> bool
    ensures { (result ≡ true) × OneReading C.WIDTH C.meaning }
{
    one_reading::<C>();
    true
}

fn one_reading<C: Check>()
    ensures { OneReading C.WIDTH C.meaning }
{}
