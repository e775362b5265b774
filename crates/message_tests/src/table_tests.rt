// Each row of the table read and refused, and each number with its place.
use basics::refusal::{Fault, Layer};
use body::fault::MessageRefusal;
use checks::check::Check;
use checks::crc16::Crc16;
use content::message::Message;
use message::frame::read;
use message::header::Direction;
use message::read::{Received, read_message};
use packet::header::Header;
use packet::read::Packet;
use std::test::Fail;

const PLAIN: Header = Header {
    priority: false,
    version: 1,
    cipher: 0,
    route: None,
    source_segment: None,
    source: 5,
    target_segment: None,
    target: None,
};

// Whether a message is read, or the number and the place of the refusal.
fn outcome(reading: Result<Received<'_>, MessageRefusal>) -> Result<(), (u8, usize)> {
    reading
        .map(|_| ())
        .map_err(|refusal| (refusal.fault.number(), refusal.place))
}

// In a broadcast, whose header has four bytes.
fn all(message: &[u8]) -> Result<(), (u8, usize)> {
    outcome(read_message(Packet {
        header: PLAIN,
        message,
    }))
}

// In a packet with a target address, whose header has five.
fn one(message: &[u8]) -> Result<(), (u8, usize)> {
    outcome(read_message(Packet {
        header: Header {
            target: Some(9),
            ..PLAIN
        },
        message,
    }))
}

#[test]
fn headers(rt: HostRuntime) {
    let enciphered = Packet {
        header: Header { cipher: 1, ..PLAIN },
        message: &[0x32, 0x03],
    };
    assert_eq!(rt; outcome(read_message(enciphered)), Err((20, 1)));
    assert_eq!(rt; all(&[0x32, 0x03]), Err((21, 4)));
    assert_eq!(rt; all(&[0x72, 0x03]), Err((21, 4)));
    assert_eq!(rt; all(&[0x71, 0x03]), Err((22, 4)));
    assert_eq!(rt; one(&[0x71, 0x03]), Err((22, 5)));
    assert_eq!(rt; all(&[0x11, 0x03, 0x07]), Err((23, 6)));
    assert_eq!(rt; all(&[0x31]), Err((24, 5)));
    assert_eq!(rt; all(&[]), Err((24, 4)));
}

#[test]
fn parts_errors_and_others(rt: HostRuntime) {
    assert_eq!(rt; all(&[0x21, 0x03, 0xAA]), Ok(()));
    assert_eq!(rt; all(&[0xE1, 0x03]), Ok(()));
    assert_eq!(rt; all(&[0xF1, 0x03, 0x07]), Ok(()));
    assert_eq!(rt; all(&[0xF1, 0x03]), Err((24, 6)));
    assert_eq!(rt; all(&[0xF1, 0x03, 0x07, 0x08]), Err((26, 7)));
    assert_eq!(rt; all(&[0x31, 0x05, 0xAA]), Ok(()));
}

#[test]
fn searches(rt: HostRuntime) {
    assert_eq!(rt; all(&[0x31, 0x03, 0x0F]), Ok(()));
    assert_eq!(rt; all(&[0x31, 0x03, 0x1F]), Err((25, 6)));
    assert_eq!(rt; all(&[0x31, 0x03]), Err((24, 6)));
    let found = [
        0xB1, 0x03, 0x01, 0x02, 0x00, 0x41, 0x42, 0x01, 0x7F, 1, 0, 0, 0, 5, 0,
    ];
    assert_eq!(rt; all(&found), Ok(()));
    assert_eq!(rt;
        all(&[0xB1, 0x03, 0x01, 0x01, 0x00, 0xFF, 0x01, 0x80]),
        Err((27, 7))
    );
    assert_eq!(rt; all(&[0xB1, 0x03, 0x01, 0x05, 0x00, 0x41]), Err((24, 7)));
}

#[test]
fn infos(rt: HostRuntime) {
    assert_eq!(rt; one(&[0x31, 0x04]), Ok(()));
    assert_eq!(rt; one(&[0x31, 0x04, 0x01, 0x00, 0x41]), Err((26, 7)));
    assert_eq!(rt; all(&[0x31, 0x04, 0x01, 0x00, 0x41]), Ok(()));
    assert_eq!(rt; all(&[0x31, 0x04]), Err((24, 6)));
    let mut info = [
        0xB1, 0x04, 1, 1, 0, 0x41, 1, 0, 0x42, 1, 0, 0x43, 1, 0, 0x44, 1, 2, 3, 0x7F, 1, 0, 2, 0,
        1, 0, 0, 0, 2, 0, 0, 0, 7, 0, 0, 0, 9, 0,
    ];
    assert_eq!(rt; all(&info), Ok(()));
    info[18] = 0xFF;
    assert_eq!(rt; all(&info), Err((25, 22)));
}

#[test]
fn variables(rt: HostRuntime) {
    assert_eq!(rt; all(&[0x31, 0x10, 0x83, 0xFF, 0x02, 0x01]), Ok(()));
    assert_eq!(rt; all(&[0x31, 0x10, 0x83, 0xFF, 0x02]), Err((24, 8)));
    assert_eq!(rt; all(&[0xB1, 0x10]), Ok(()));
    assert_eq!(rt; all(&[0xB1, 0x10, 0x00]), Err((26, 6)));
    assert_eq!(rt; all(&[0x31, 0x11, 0x02, 0x01]), Ok(()));
    assert_eq!(rt; all(&[0x31, 0x11, 0x02]), Err((24, 6)));
    assert_eq!(rt; all(&[0xB1, 0x11, 0x02, 0x01, 0x03]), Ok(()));
    assert_eq!(rt; all(&[0xB1, 0x11, 0x02, 0x01, 0x03, 0x00]), Err((26, 9)));
}

#[test]
fn values(rt: HostRuntime) -> Result<(), Fail> {
    assert_eq!(rt; all(&[0xB1, 0x11, 0x02, 0x01, 0x90]), Err((30, 8)));
    assert_eq!(rt; all(&[0xB1, 0x11, 0x02, 0x01, 0x81]), Err((31, 8)));
    assert_eq!(rt; all(&[0xB1, 0x11, 0x02, 0x01, 0xA3]), Err((32, 8)));
    assert_eq!(rt; all(&[0xB1, 0x11, 0x02, 0x01, 0x83]), Err((33, 8)));
    assert_eq!(rt;
        all(&[0xB1, 0x11, 0x02, 0x01, 0x8C, 1, 0, 0xFF]),
        Err((34, 8))
    );
    assert_eq!(rt;
        all(&[0xB1, 0x11, 0x02, 0x01, 0x8E, 0, 0, 0, 2, 0, 0, 0, 0]),
        Err((35, 8))
    );
    let packet = Packet {
        header: PLAIN,
        message: &[0xB1, 0x11, 0x02, 0x01, 0x83],
    };
    match read_message(packet) {
        Ok(_) => Err(Fail::new("read")),
        Err(refusal) => {
            assert_eq!(rt; refusal.fault.layer(), Layer::Value);
            Ok(())
        },
    }
}

#[test]
fn channels(rt: HostRuntime) {
    assert_eq!(rt; all(&[0x31, 0x33, 1, 0, 0, 0, 0x83, 7, 4, 0, 0, 0]), Ok(()));
    assert_eq!(rt; all(&[0x31, 0x33, 1, 0, 0, 0, 0x83, 7, 4]), Err((24, 12)));
    assert_eq!(rt; all(&[0xB1, 0x33]), Ok(()));
    assert_eq!(rt; all(&[0xB1, 0x33, 0x01]), Err((26, 6)));
    assert_eq!(rt; all(&[0x31, 0x34, 1, 0, 0, 0, 2, 1, 4, 3]), Ok(()));
    assert_eq!(rt; all(&[0x31, 0x34, 1, 0, 0, 0, 2]), Err((28, 10)));
    let mut many = [0; 40];
    many[0] = 0x31;
    many[1] = 0x34;
    assert_eq!(rt; all(&many), Err((28, 10)));
    assert_eq!(rt; all(&[0xB1, 0x34]), Ok(()));
    assert_eq!(rt; all(&[0xB1, 0x34, 0x01]), Err((26, 6)));
}

#[test]
fn a_recorded_packet(rt: HostRuntime) -> Result<(), Fail> {
    let bytes = [
        0x75, 0x08, 0x08, 0x05, 0x11, 0x11, 0x07, 0x00, 0x02, 0x01, 0x3E, 0x8D,
    ];
    let frame = read::<Crc16>(&bytes)?;
    assert_eq!(rt; frame.header.source, 5);
    assert!(rt; frame.header.is_broadcast());
    assert_eq!(rt; frame.received.header.direction, Direction::Request);
    assert_eq!(rt; frame.received.header.transaction, Some(7));
    match frame.received.message {
        Message::GetVariable { variable } => {
            assert_eq!(rt; variable, 258);
            Ok(())
        },
        _ => Err(Fail::new("another message")),
    }
}

#[test]
fn the_packet_goes_first(rt: HostRuntime) -> Result<(), Fail> {
    let bytes = [
        0x75, 0x08, 0x08, 0x05, 0x11, 0x11, 0x07, 0x00, 0x02, 0x01, 0x3E, 0x8C,
    ];
    match read::<Crc16>(&bytes) {
        Ok(_) => Err(Fail::new("read")),
        Err(refusal) => {
            assert_eq!(rt; refusal.number(), 16);
            assert_eq!(rt; refusal.layer(), Layer::Packet);
            assert_eq!(rt; refusal.place(), 10);
            Ok(())
        }
    }
}
