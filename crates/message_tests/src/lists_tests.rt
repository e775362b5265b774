// Lists of three entries, in each layout, and the variables of a link.
use basics::refusal::Fault;
use body::cursor::Body;
use body::tail::Variables;
use channels::entry::Entry;
use channels::list::{Channels, read_channels};
use std::process::Abort;
use std::test::Fail;

// The id, the length of the name and the sub-device of an entry.
fn told(entry: Entry<'_>) -> (u32, Option<usize>, Option<u16>) {
    (
        entry.id,
        entry.name.map(|text| text.bytes.len()),
        entry.detail.map(|detail| detail.sub_device),
    )
}

// Whether the body is a list of the entries 1, 2 and 3, all with such a name and sub-device.
fn three(
    rt: &impl Abort,
    valued: bool,
    bytes: &[u8],
    name: Option<usize>,
    sub_device: Option<u16>,
) -> Result<(), Fail> {
    let list = read_channels(valued, Body::new(bytes, 0))?;
    let (first, list) = list.first().ok_or("no first")?;
    assert_eq!(rt; told(first), (1, name, sub_device));
    assert_eq!(rt; first.value.is_some(), valued);
    let (second, list) = list.first().ok_or("no second")?;
    assert_eq!(rt; told(second), (2, name, sub_device));
    let (third, list) = list.first().ok_or("no third")?;
    assert_eq!(rt; told(third), (3, name, sub_device));
    assert!(rt; list.first().is_none());
    Ok(())
}

#[test]
fn each_layout(rt: HostRuntime) -> Result<(), Fail> {
    three(
        &rt,
        false,
        &[3, 0x40, 1, 0, 0, 0, 2, 0, 0, 0, 3, 0, 0, 0],
        None,
        None,
    )?;
    three(
        &rt,
        false,
        &[
            3, 0, 1, 0, 0, 0, 1, 0, 0x41, 2, 0, 0, 0, 1, 0, 0x42, 3, 0, 0, 0, 1, 0, 0x43,
        ],
        Some(1),
        None,
    )?;
    three(
        &rt,
        false,
        &[
            3, 0xC0, 1, 0, 0, 0, 9, 0, 4, 5, 2, 0, 0, 0, 9, 0, 4, 5, 3, 0, 0, 0, 9, 0, 4, 5,
        ],
        None,
        Some(9),
    )?;
    three(
        &rt,
        false,
        &[
            3, 0x80, 1, 0, 0, 0, 1, 0, 0x41, 9, 0, 4, 5, 2, 0, 0, 0, 1, 0, 0x42, 9, 0, 4, 5, 3, 0,
            0, 0, 1, 0, 0x43, 9, 0, 4, 5,
        ],
        Some(1),
        Some(9),
    )
}

#[test]
fn with_values(rt: HostRuntime) -> Result<(), Fail> {
    three(
        &rt,
        true,
        &[
            3, 0x40, 1, 0, 0, 0, 0x83, 7, 2, 0, 0, 0, 0x03, 3, 0, 0, 0, 0x83, 8,
        ],
        None,
        None,
    )
}

// Whether a list is read, or the number and the place of the refusal.
fn outcome(valued: bool, bytes: &[u8]) -> Result<(), (u8, usize)> {
    read_channels(valued, Body::new(bytes, 0))
        .map(|_| ())
        .map_err(|refusal| (refusal.fault.number(), refusal.place))
}

#[test]
fn refused_lists(rt: HostRuntime) {
    assert_eq!(rt; outcome(false, &[0, 0]), Ok(()));
    assert_eq!(rt; outcome(false, &[3]), Err((24, 0)));
    assert_eq!(rt; outcome(false, &[0, 0x10]), Err((25, 0)));
    assert_eq!(rt; outcome(false, &[0, 0, 7]), Err((26, 2)));
    assert_eq!(rt; outcome(false, &[2, 0x40, 1, 0, 0, 0, 2, 0]), Err((24, 6)));
    assert_eq!(rt;
        outcome(false, &[1, 0, 1, 0, 0, 0, 1, 0, 0xFF]),
        Err((27, 6))
    );
    assert_eq!(rt; outcome(true, &[1, 0x40, 1, 0, 0, 0, 0x83]), Err((33, 6)));
}

#[test]
fn linked_variables(rt: HostRuntime) -> Result<(), Fail> {
    let variables = Variables {
        bytes: &[2, 1, 4, 3],
    };
    let (first, others) = variables.first().ok_or("no first")?;
    assert_eq!(rt; first, 258);
    let (second, others) = others.first().ok_or("no second")?;
    assert_eq!(rt; second, 772);
    assert!(rt; others.first().is_none());
    Ok(())
}
