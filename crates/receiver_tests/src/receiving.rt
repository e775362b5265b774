use basics::refusal::Fault;
use checks::check::Check;
use checks::crc16::Crc16;
use lines::memory::Memory;
use receiver::LONGEST;
use receiver::answer::Answer;
use receiver::fault::ReceiverFault;
use receiver::receiver::Receiver;
use std::process::Abort;

const PACKET: [u8; 12] = [
    0x75, 0x08, 0x08, 0x05, 0x11, 0x11, 0x07, 0x00, 0x02, 0x01, 0x3E, 0x8D,
];

// The next answer over a line.
fn expect_on(
    rt: &impl Abort,
    receiver: &mut Receiver<Crc16>,
    line: &mut Memory<'_>,
    answer: Answer,
) {
    let mut buffer = [0u8; LONGEST];
    assert_eq!(rt; receiver.next(line, &mut buffer), Ok(answer));
}

// The next answer over `bytes`; what the call does not take of them is lost.
fn expect(rt: &impl Abort, receiver: &mut Receiver<Crc16>, bytes: &[u8], answer: Answer) {
    expect_on(rt, receiver, &mut Memory::new(bytes), answer);
}

#[test]
fn a_packet_goes_to_the_front_of_the_buffer(rt: HostRuntime) {
    let mut receiver = Receiver::<Crc16>::new();
    let bytes = PACKET;
    let mut buffer = [0xAAu8; 300];
    assert_eq!(rt;
        receiver.next(&mut Memory::new(&bytes), &mut buffer),
        Ok(Answer::Packet(12))
    );
    assert_eq!(rt; &buffer[0..12], &bytes[0..12]);
    assert_eq!(rt; buffer[12], 0xAA);
    assert_eq!(rt; buffer[299], 0xAA);
    assert_eq!(rt; receiver.held(), 0);
}

#[test]
fn a_false_start_waits_until_a_gap(rt: HostRuntime) {
    let mut receiver = Receiver::<Crc16>::new();
    expect(
        &rt,
        &mut receiver,
        &[0x75, 0x08, 0xFF, 0x05],
        Answer::Waiting,
    );
    expect(&rt, &mut receiver, &PACKET, Answer::Waiting);
    receiver.gap();
    assert_eq!(rt; receiver.held(), 16);
    expect(&rt, &mut receiver, &[], Answer::Noise(4));
    expect(&rt, &mut receiver, &[], Answer::Packet(12));
    expect(&rt, &mut receiver, &PACKET, Answer::Packet(12));
}

#[test]
fn a_packet_inside_a_false_start_is_found(rt: HostRuntime) {
    let bytes = [
        0x75, 0x08, 0x20, 0x05, 0x75, 0x08, 0x08, 0x05, 0x11, 0x11, 0x07, 0x00, 0x02, 0x01, 0x3E,
        0x8D, 0, 0, 0, 0, 0, 0, 0, 0, 0, 0, 0, 0, 0, 0, 0, 0, 0, 0, 0, 0,
    ];
    let mut receiver = Receiver::<Crc16>::new();
    let mut line = Memory::new(&bytes);
    expect_on(&rt, &mut receiver, &mut line, Answer::Noise(4));
    expect_on(&rt, &mut receiver, &mut line, Answer::Packet(12));
    expect_on(&rt, &mut receiver, &mut line, Answer::Noise(20));
    expect_on(&rt, &mut receiver, &mut line, Answer::Waiting);
}

#[test]
fn noise_is_told_in_answers_of_at_most_1024(rt: HostRuntime) {
    let bytes = [0u8; 1025];
    let mut receiver = Receiver::<Crc16>::new();
    let mut line = Memory::new(&bytes[0..1023]);
    expect_on(&rt, &mut receiver, &mut line, Answer::Noise(1023));
    expect_on(&rt, &mut receiver, &mut line, Answer::Waiting);
    let mut line = Memory::new(&bytes[0..1024]);
    expect_on(&rt, &mut receiver, &mut line, Answer::Noise(1024));
    expect_on(&rt, &mut receiver, &mut line, Answer::Waiting);
    let mut line = Memory::new(&bytes);
    expect_on(&rt, &mut receiver, &mut line, Answer::Noise(1024));
    expect_on(&rt, &mut receiver, &mut line, Answer::Noise(1));
    expect_on(&rt, &mut receiver, &mut line, Answer::Waiting);
}

#[test]
fn a_wrong_first_check_byte_is_noticed_at_once(rt: HostRuntime) {
    let mut bytes = PACKET;
    let mut receiver = Receiver::<Crc16>::new();
    expect(&rt, &mut receiver, &bytes[0..11], Answer::Waiting);
    assert_eq!(rt; receiver.held(), 11);
    bytes[10] = 0x3F;
    let mut receiver = Receiver::<Crc16>::new();
    expect(&rt, &mut receiver, &bytes[0..11], Answer::Noise(11));
}

#[test]
fn a_gap_inside_makes_a_packet_noise(rt: HostRuntime) {
    let bytes = PACKET;
    let mut receiver = Receiver::<Crc16>::new();
    expect(&rt, &mut receiver, &bytes[0..6], Answer::Waiting);
    receiver.gap();
    receiver.gap();
    expect(&rt, &mut receiver, &bytes[6..12], Answer::Noise(6));
    assert_eq!(rt; receiver.held(), 0);
    expect(&rt, &mut receiver, &bytes[6..12], Answer::Noise(6));
    expect(&rt, &mut receiver, &bytes, Answer::Packet(12));
}

#[test]
fn a_gap_with_nothing_held_changes_no_answer(rt: HostRuntime) {
    let mut receiver = Receiver::<Crc16>::new();
    receiver.gap();
    expect(&rt, &mut receiver, &[], Answer::Waiting);
    receiver.gap();
    expect(&rt, &mut receiver, &PACKET, Answer::Packet(12));
}

#[test]
fn a_short_buffer_is_refused_first(rt: HostRuntime) {
    let bytes = PACKET;
    let mut receiver = Receiver::<Crc16>::new();
    let mut line = Memory::new(&bytes);
    let mut short = [0xAAu8; 262];
    assert_eq!(rt;
        receiver.next(&mut line, &mut short),
        Err(ReceiverFault::ShortBuffer)
    );
    assert_eq!(rt; ReceiverFault::ShortBuffer.number(), 1);
    assert_eq!(rt; short[0], 0xAA);
    assert_eq!(rt; receiver.held(), 0);
    expect_on(&rt, &mut receiver, &mut line, Answer::Packet(12));
}
