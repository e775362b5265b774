// Says what the message of one recorded packet tells, in words for those who answer installers' calls.
#![tactic(auto)]

mod messages;

use show::RECORDED;
use std::io;

fn main(rt: HostRuntime) -> io::Result<()> {
    println!(rt; "What the packet's message says")?;
    messages::follow(&rt, &RECORDED)
}
