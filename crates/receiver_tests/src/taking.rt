use lines::hex::Hex;
use lines::line::Line;
use lines::memory::Memory;

#[test]
fn memory_gives_its_bytes_in_order(rt: HostRuntime) {
    let bytes = [7, 0, 255];
    let mut line = Memory::new(&bytes);
    assert_eq!(rt; line.take(), Some(7));
    assert_eq!(rt; line.take(), Some(0));
    assert_eq!(rt; line.take(), Some(255));
    assert_eq!(rt; line.take(), None);
    assert_eq!(rt; line.take(), None);
}

#[test]
fn a_digit_is_dropped_with_the_character_after_it(rt: HostRuntime) {
    let mut line = Hex::new(Memory::new(b"7 508"));
    assert_eq!(rt; line.take(), Some(0x50));
    assert_eq!(rt; line.take(), None);
}

#[test]
fn both_cases_of_letters_are_digits(rt: HostRuntime) {
    let mut line = Hex::new(Memory::new(b"\tfF,0a\n"));
    assert_eq!(rt; line.take(), Some(0xFF));
    assert_eq!(rt; line.take(), Some(0x0A));
    assert_eq!(rt; line.take(), None);
}
