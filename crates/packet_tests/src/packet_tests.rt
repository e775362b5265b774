// Packets that are read, and bytes that are refused: the fault's number and its place.
use basics::refusal::Fault;
use checks::check::Check;
use checks::crc16::Crc16;
use checks::xor::Xor;
use packet::header::{Header, header_length};
use packet::measure::measure;
use packet::read::read_packet;
use std::test::Fail;

// The message's length, or the number and the place of a refusal.
fn told<C: Check>(bytes: &[u8]) -> Result<usize, (u8, usize)> {
    read_packet::<C>(bytes)
        .map(|packet| packet.message.len())
        .map_err(|refusal| (refusal.fault.number(), refusal.place))
}

const PLAIN: Header = Header {
    priority: false,
    version: 1,
    cipher: 0,
    route: None,
    source_segment: None,
    source: 5,
    target_segment: None,
    target: None,
};

#[test]
fn a_recorded_packet(rt: HostRuntime) -> Result<(), Fail> {
    let bytes = [
        0x75, 0x08, 0x08, 0x05, 0x11, 0x11, 0x07, 0x00, 0x02, 0x01, 0x3E, 0x8D,
    ];
    let packet = read_packet::<Crc16>(&bytes)?;
    assert_eq!(rt; packet.header, PLAIN);
    assert_eq!(rt; packet.message.len(), 6);
    assert!(rt; packet.header.is_broadcast());
    Ok(())
}

#[test]
fn every_optional_field(rt: HostRuntime) -> Result<(), Fail> {
    let bytes = [
        0xFD, 0xFB, 0x0F, 0x03, 0x00, 0x05, 0xFF, 0x07, 0xAA, 0x55, 0xFF,
    ];
    let header = Header {
        priority: true,
        version: 3,
        cipher: 3,
        route: Some(15),
        source_segment: Some(0),
        source: 5,
        target_segment: Some(255),
        target: Some(7),
    };
    let packet = read_packet::<Xor>(&bytes)?;
    assert_eq!(rt; packet.header, header);
    assert!(rt; !packet.header.is_broadcast());
    Ok(())
}

// A field that is 0 is there; one whose flag is not set is not.
#[test]
fn fields_that_are_zero(rt: HostRuntime) -> Result<(), Fail> {
    let broadcast = read_packet::<Xor>(&[0x75, 0x28, 0x03, 0x05, 0x00, 0xAA, 0x55, 0xFF])?;
    assert_eq!(rt;
        broadcast.header,
        Header {
            target_segment: Some(0),
            ..PLAIN
        }
    );
    let addressed = read_packet::<Xor>(&[0x7D, 0x08, 0x03, 0x05, 0x00, 0xAA, 0x55, 0xFF])?;
    assert_eq!(rt;
        addressed.header,
        Header {
            target: Some(0),
            ..PLAIN
        }
    );
    Ok(())
}

#[test]
fn a_recorded_packet_damaged(rt: HostRuntime) {
    assert_eq!(rt;
        told::<Crc16>(&[
            0x75, 0x08, 0x08, 0x05, 0x11, 0x11, 0x07, 0x00, 0x02, 0x01, 0x3E, 0x8C,
        ],),
        Err((16, 10))
    );
    assert_eq!(rt;
        told::<Crc16>(&[
            0x75, 0x08, 0x08, 0x05, 0x11, 0x11, 0x07, 0x00, 0x02, 0x01, 0x3E, 0x8D, 0x00,
        ],),
        Err((17, 12))
    );
    assert_eq!(rt;
        told::<Crc16>(&[
            0x75, 0x08, 0x08, 0x05, 0x11, 0x11, 0x07, 0x00, 0x02, 0x01, 0x3E,
        ],),
        Err((10, 11))
    );
    assert_eq!(rt;
        told::<Crc16>(&[
            0x75, 0x08, 0x03, 0x05, 0x11, 0x11, 0x07, 0x00, 0x02, 0x01, 0x3E, 0x8D,
        ],),
        Err((15, 2))
    );
    // the check is judged before the bytes left over, and not in data that are cut short
    assert_eq!(rt;
        told::<Crc16>(&[
            0x75, 0x08, 0x08, 0x05, 0x11, 0x11, 0x07, 0x00, 0x02, 0x01, 0x3E, 0x8C, 0x00,
        ],),
        Err((16, 10))
    );
    assert_eq!(rt;
        told::<Crc16>(&[
            0x75, 0x08, 0x08, 0x05, 0x11, 0x11, 0x07, 0x00, 0x02, 0x01, 0x00,
        ],),
        Err((10, 11))
    );
}

#[test]
fn cut_short(rt: HostRuntime) {
    assert_eq!(rt; told::<Xor>(&[]), Err((10, 0)));
    assert_eq!(rt; told::<Xor>(&[0x75]), Err((10, 1)));
    assert_eq!(rt; told::<Xor>(&[0x75, 0x08]), Err((10, 2)));
    assert_eq!(rt; told::<Xor>(&[0x75, 0x88]), Err((10, 2)));
    assert_eq!(rt; told::<Xor>(&[0x75, 0x88, 0x0F]), Err((10, 3)));
    assert_eq!(rt; told::<Xor>(&[0x75, 0x08, 0x03]), Err((10, 3)));
    assert_eq!(rt;
        told::<Xor>(&[0x75, 0x08, 0x03, 0x05, 0xAA, 0x55]),
        Err((10, 6))
    );
    assert_eq!(rt;
        told::<Xor>(&[0x75, 0x08, 0x03, 0x05, 0xAA, 0x55, 0xFF]),
        Ok(2)
    );
}

#[test]
fn first_byte(rt: HostRuntime) {
    assert_eq!(rt; told::<Xor>(&[0x00]), Err((11, 0)));
    assert_eq!(rt;
        told::<Xor>(&[0x74, 0x08, 0x03, 0x05, 0xAA, 0x55, 0xFF]),
        Err((11, 0))
    );
    assert_eq!(rt;
        told::<Xor>(&[0x77, 0x08, 0x03, 0x05, 0xAA, 0x55, 0xFF]),
        Err((11, 0))
    );
    assert_eq!(rt;
        told::<Xor>(&[0x65, 0x08, 0x03, 0x05, 0xAA, 0x55, 0xFF]),
        Err((11, 0))
    );
    assert_eq!(rt;
        told::<Xor>(&[0xF5, 0x08, 0x03, 0x05, 0xAA, 0x55, 0xFF]),
        Ok(2)
    );
    assert_eq!(rt;
        told::<Xor>(&[0x7D, 0x08, 0x03, 0x05, 0x00, 0xAA, 0x55, 0xFF]),
        Ok(2)
    );
}

// Of two faults of one byte the lower number is told; of two bytes, the earlier.
#[test]
fn version_and_cipher(rt: HostRuntime) {
    assert_eq!(rt;
        told::<Xor>(&[0x75, 0x00, 0x03, 0x05, 0xAA, 0x55, 0xFF]),
        Err((12, 1))
    );
    assert_eq!(rt;
        told::<Xor>(&[0x75, 0x0C, 0x03, 0x05, 0xAA, 0x55, 0xFF]),
        Err((13, 1))
    );
    assert_eq!(rt; told::<Xor>(&[0x75, 0x04]), Err((12, 1)));
    assert_eq!(rt;
        told::<Xor>(&[0x75, 0x0B, 0x03, 0x05, 0xAA, 0x55, 0xFF]),
        Ok(2)
    );
    assert_eq!(rt;
        told::<Xor>(&[0x75, 0x18, 0x03, 0x05, 0xAA, 0x55, 0xFF]),
        Ok(2)
    );
}

#[test]
fn route_and_size(rt: HostRuntime) {
    assert_eq!(rt;
        told::<Xor>(&[0x75, 0x88, 0x10, 0x03, 0x05, 0xAA, 0x55, 0xFF]),
        Err((14, 2))
    );
    assert_eq!(rt; told::<Xor>(&[0x75, 0x88, 0x10]), Err((14, 2)));
    assert_eq!(rt;
        told::<Xor>(&[0x75, 0x88, 0x0F, 0x03, 0x05, 0xAA, 0x55, 0xFF]),
        Ok(2)
    );
    assert_eq!(rt;
        told::<Xor>(&[0x75, 0x88, 0x0F, 0x02, 0x05, 0xAA, 0x55, 0xFF]),
        Err((15, 3))
    );
    assert_eq!(rt; told::<Xor>(&[0x75, 0x08, 0x02]), Err((15, 2)));
    assert_eq!(rt; told::<Crc16>(&[0x75, 0x08, 0x03]), Err((15, 2)));
    assert_eq!(rt; told::<Crc16>(&[0x75, 0x08, 0x04]), Err((10, 3)));
}

#[test]
fn lengths(rt: HostRuntime) -> Result<(), Fail> {
    assert_eq!(rt; header_length(0x75, 0x08), 4);
    assert_eq!(rt; header_length(0x7D, 0x08), 5);
    assert_eq!(rt; header_length(0x75, 0xE8), 7);
    assert_eq!(rt; header_length(0xFD, 0xFF), 8);
    let extent = measure::<Xor>(&[0x7D, 0xE8, 0x00, 0xFF])?;
    assert_eq!(rt; (extent.header, extent.end), (8, 263));
    Ok(())
}
