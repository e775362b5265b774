// What a receiver answers.

#[derive(Clone, Copy, PartialEq, Eq, Debug)]
pub enum Answer {
    // a packet of this length stands at the front of the buffer: a length, and no slice, since a board in C keeps the buffer
    Packet(usize),
    // this many bytes are noise
    Noise(usize),
    // more bytes are needed
    Waiting,
}
