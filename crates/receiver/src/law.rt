// What holds of every use of a receiver, for every check. Each call answers whether a statement holds; it does, and the
// contract says so. Each statement is proved apart, so that an edit of its call is refused in it; a statement is no type,
// so that the calls can't be one generic function.
ghost use Rattle.std.specs.Prelude.{◌≡◌, true};
ghost use Rattle.packet.specs.Packet.{Packet};
ghost use Rattle.receiver.specs.Examples.{FalseStart};
ghost use Rattle.receiver.specs.Law.{Law, Lively, NoChoice};

use checks::check::Check;

// Whether, for every list of calls of next and gap on a new receiver, what it took and answered is what came, in its order;
// no packet is lost in the noise; and two receivers that go on from the same point agree.
pub fn law_holds<C: Check>() -> bool
    ensures { (result ≡ true) × Law (Packet C.WIDTH C.meaning) }
{
    law::<C>();
    true
}

// Whether the same receiver, line and buffer always give the same answer.
pub fn leaves_no_choice<C: Check>() -> bool
    ensures { (result ≡ true) × NoChoice (Packet C.WIDTH C.meaning) }
{
    no_choice::<C>();
    true
}

// Whether a packet that comes is answered, what can become one is waited for, and each part of a packet that has come can.
pub fn answers_packets<C: Check>() -> bool
    ensures { (result ≡ true) × Lively (Packet C.WIDTH C.meaning) }
{
    lively::<C>();
    true
}

// Whether a packet behind a false start is found after a gap.
pub fn finds_behind_false_start() -> bool
    ensures { (result ≡ true) × FalseStart }
{
    false_start();
    true
}

fn law<C: Check>()
    ensures { Law (Packet C.WIDTH C.meaning) }
{}

fn no_choice<C: Check>()
    ensures { NoChoice (Packet C.WIDTH C.meaning) }
{}

fn lively<C: Check>()
    ensures { Lively (Packet C.WIDTH C.meaning) }
{}

fn false_start()
    ensures { FalseStart }
{}
