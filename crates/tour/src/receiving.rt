// The packet on the wire, behind a false start.
use basics::refusal::Fault;
use checks::check::Check;
use checks::crc16::Crc16;
use lines::memory::Memory;
use receiver::LONGEST;
use receiver::answer::Answer;
use receiver::receiver::Receiver;
use show::Hex;
use std::io;

// The header of a packet of which nothing more came.
const FALSE_START: [u8; 4] = [0x75, 0x08, 0xFF, 0x05];

pub(crate) fn follow(rt: &impl Print, packet: &[u8]) -> io::Result<()> {
    let mut receiver = Receiver::<Crc16>::new();
    arrive(rt, &mut receiver, &FALSE_START)?;
    arrive(rt, &mut receiver, packet)?;
    println!(rt; "  the wire falls silent")?;
    receiver.gap();
    arrive(rt, &mut receiver, &[])?;
    arrive(rt, &mut receiver, &[])?;
    arrive(rt, &mut receiver, &[])
}

// These bytes come, and the receiver is asked once.
fn arrive(rt: &impl Print, receiver: &mut Receiver<Crc16>, bytes: &[u8]) -> io::Result<()> {
    if bytes.len() > 0 {
        println!(rt; "  these bytes come  {}", Hex(bytes))?;
    }
    let mut buffer = [0u8; LONGEST];
    let answer = receiver.next(&mut Memory::new(bytes), &mut buffer);
    match answer {
        Ok(answer) => told(rt, answer, &buffer, receiver.held()),
        Err(fault) => println!(rt; "  refused           number {}", fault.number()),
    }
}

fn told(rt: &impl Print, answer: Answer, buffer: &[u8], held: usize) -> io::Result<()> {
    match answer {
        Answer::Packet(length) => {
            let packet = buffer.get(..length).unwrap_or(buffer);
            println!(rt; "  packet            {}", Hex(packet))
        }
        Answer::Noise(count) => println!(rt;
            "  noise             {count} bytes, which begin no packet"
        ),
        Answer::Waiting => println!(rt; "  waiting           {held} bytes held"),
    }
}
