// What the speed comparison links: one receiver over a whole slice. What is exported has a name for each check, and takes
// and gives what C can.
#![tactic(auto)]

use checks::check::Check;
use checks::crc16::Crc16;
use checks::xor::Xor;
use lines::memory::Memory;
use receiver::LONGEST;
use receiver::answer::Answer;
use receiver::receiver::Receiver;

#[unsafe(no_mangle)]
pub extern "C" fn receive_crc16(bytes: &[u8]) -> u64 {
    receive_all::<Crc16>(bytes)
}

#[unsafe(no_mangle)]
pub extern "C" fn receive_xor(bytes: &[u8]) -> u64 {
    receive_all::<Xor>(bytes)
}

// Calls next until it waits. What comes out tells the answers and their order apart.
fn receive_all<C: Check>(bytes: &[u8]) -> u64 {
    let mut receiver = Receiver::<C>::new();
    let mut line = Memory::new(bytes);
    let mut buffer = [0u8; LONGEST];
    let mut told: u64 = 0;
    for _ in 0..bytes.len() {
        match receiver.next(&mut line, &mut buffer) {
            Ok(Answer::Packet(length)) => told = told.wrapping_mul(31).wrapping_add(length as u64),
            Ok(Answer::Noise(count)) => told = told.wrapping_mul(37).wrapping_add(count as u64),
            Ok(Answer::Waiting) => return told,
            // a number, since what is called from outside hands out no Result
            Err(_) => return 0,
        }
    }
    told
}
