use super::*;
use file_rows::{Path, PinRow};

// A key set of these keys.
fn keys(list: &[u8]) -> KeySet {
    let mut set = KeySet::none();
    for key in list {
        set.add(*key);
    }
    set
}

const READ: Mode = Mode::Bit(0x01);

const UPDATE: Mode = Mode::Bit(0x02);

#[test]
fn key_sets_hold_what_was_added(rt: HostRuntime) {
    let set = keys(&[0x01, 0x88, 0xFF]);
    assert!(rt; set.has(0x01) && set.has(0x88) && set.has(0xFF));
    assert!(rt; !set.has(0x00) && !set.has(0x0A));
    assert!(rt; !KeySet::none().has(0x01));
}

#[test]
fn refuses_a_malformed_record(rt: HostRuntime) {
    let malformed: [&[u8]; 21] = [
        b"\x90\x00",
        b"\x80\x01\x01",
        b"\x80\x00\x90\x00",
        b"\x80\x02\x01\x01\x90\x00",
        b"\x84\x00\x90\x00",
        b"\x80\x01\x01\x90\x01\x00",
        b"\x80\x01\x01\x97\x01\x00",
        b"\x80\x01\x01\x91\x00",
        b"\x80\x01\x01\xA4\x00",
        b"\x80\x01\x01\xA4\x03\x83\x01\x01",
        b"\x80\x01\x01\xA4\x06\x95\x01\x08\x83\x01\x01",
        b"\x80\x01\x01\xA4\x06\x83\x01\x01\x95\x01\x80",
        b"\x80\x01\x01\xA4\x07\x83\x02\x01\x02\x95\x01\x08",
        b"\x80\x01\x01\xA4\x09\x83\x01\x01\x95\x01\x08\x83\x01\x02",
        b"\x80\x01\x01\xA0\x02\x90",
        b"\x80\x01\x01\xAF\x03\x90\x00\xFF",
        b"\x80\x01\x01\xA0\x04\x90\x00\xFF\xFF",
        b"\x80\x01\x01\xFF\xFF",
        b"\x80\x01\x01\x90\x00\x80\x01\x02",
        b"\x80\x80\x01\x90\x00",
        b"\x80\x01\x01\x90\x00\x00",
    ];
    for record in malformed {
        assert!(rt;
            read_rules(record) == Err(RuleFault::Malformed),
            "{record:?}"
        );
        assert!(rt; !record_allows(record, READ, &keys(&[0x01])), "{record:?}");
    }
    assert_eq!(rt; RuleFault::Malformed.number(), 1);
}

#[test]
fn answers_by_the_first_rule_that_covers(rt: HostRuntime) {
    let cases: [(&[u8], Mode, bool); 20] = [
        (b"", READ, false),
        (b"\xFF\x00\x12", READ, false),
        (b"\x80\x01\x01\x90\x00", READ, true),
        (b"\x80\x01\x01\x90\x00", UPDATE, false),
        (b"\x80\x01\x01\x90\x00\xFF\x80", READ, true),
        (b"\x80\x01\x03\x90\x00\x80\x01\x02\x97\x00", UPDATE, true),
        (b"\x80\x01\x02\x97\x00\x80\x01\x03\x90\x00", UPDATE, false),
        (b"\x84\x02\x32\xD4\x90\x00", Mode::Ins(0xD4), true),
        (b"\x84\x02\x32\xD4\x90\x00", Mode::Ins(0xD6), false),
        (b"\x84\x01\x01\x90\x00", READ, false),
        (b"\x80\x01\x01\xA4\x06\x83\x01\x01\x95\x01\x08", READ, true),
        (b"\x80\x01\x01\xA4\x06\x83\x01\x0A\x95\x01\x08", READ, false),
        (b"\x80\x01\x01\xA4\x06\x83\x01\x7E\x95\x01\x08", READ, false),
        (b"\x80\x01\x01\xA0\x00", READ, false),
        (b"\x80\x01\x01\xAF\x00", READ, true),
        (b"\x80\x01\x01\xA0\x04\x97\x00\x90\x00", READ, true),
        (b"\x80\x01\x01\xAF\x04\x90\x00\x97\x00", READ, false),
        (b"\x80\x81\x01\x01\x90\x82\x00\x00", READ, true),
        (b"\x80\x01\x01\xA0\x81\x03\x90\x81\x00", READ, true),
        (b"\x80\x01\x01\x90\x00\x80\x01\x02\x91\x00", READ, false),
    ];
    for (record, mode, expected) in cases {
        assert!(rt;
            record_allows(record, mode, &keys(&[0x01])) == expected,
            "{record:?}"
        );
    }
}

#[test]
fn a_condition_nests_at_most_eight_deep(rt: HostRuntime) {
    let eight: &[u8] =
        b"\x80\x01\x01\xA0\x0E\xAF\x0C\xA0\x0A\xAF\x08\xA0\x06\xAF\x04\xA0\x02\x90\x00";
    let nine: &[u8] =
        b"\x80\x01\x01\xA0\x10\xA0\x0E\xAF\x0C\xA0\x0A\xAF\x08\xA0\x06\xAF\x04\xA0\x02\x90\x00";
    assert!(rt; record_allows(eight, READ, &KeySet::none()));
    assert!(rt; read_rules(eight).is_ok());
    assert!(rt; !record_allows(nine, READ, &KeySet::none()));
    assert!(rt; read_rules(nine) == Err(RuleFault::Malformed));
}

#[test]
fn a_record_is_asked_again_without_a_refusal(rt: HostRuntime) {
    let record: &[u8] = b"\x80\x01\x01\x90\x00\x80\x01\x02\xA4\x06\x83\x01\x0A\x95\x01\x08\xFF\xFF";
    let read = read_rules(record);
    assert!(rt; read.is_ok());
    if let Ok(rules) = read {
        assert!(rt; rules.allows(READ, &KeySet::none()));
        assert!(rt; !rules.allows(UPDATE, &KeySet::none()));
        assert!(rt; rules.allows(UPDATE, &keys(&[0x0A])));
    }
}

// The first record is filled up with FF to the length of the records of its file.
#[test]
fn the_records_of_the_sample_card_answer(rt: HostRuntime) {
    let first: &[u8] =
        b"\x80\x01\x01\x90\x00\x80\x01\x02\xA4\x06\x83\x01\x0A\x95\x01\x08\xFF\xFF\xFF\xFF\
          \xFF\xFF\xFF\xFF\xFF\xFF";
    let second: &[u8] = b"\x80\x01\x03\x90\x00";
    let third: &[u8] = b"\x80\x01\x03\xA4\x06\x83\x01\x01\x95\x01\x08";
    let none = KeySet::none();
    assert!(rt; record_allows(first, READ, &none) && !record_allows(first, UPDATE, &none));
    assert!(rt; record_allows(first, UPDATE, &keys(&[0x0A])));
    assert!(rt; record_allows(second, READ, &none) && record_allows(second, UPDATE, &none));
    assert!(rt; !record_allows(third, READ, &none) && record_allows(third, READ, &keys(&[0x01])));
    assert!(rt; !record_allows(second, Mode::Bit(0x08), &keys(&[0x01])));
}

fn pin(number: u8, home: Path, key: u8, enabled: bool) -> PinRow {
    PinRow {
        number,
        home,
        key,
        value: *b"1234\xFF\xFF\xFF\xFF",
        max: 3,
        left: 3,
        enabled,
        puk: None,
    }
}

#[test]
fn keys_are_met_from_the_directory_upwards(rt: HostRuntime) {
    let pins = [
        pin(1, Path::new(), 0x01, true),
        pin(2, Path::from_slice(&[0x7F10]), 0x81, true),
        pin(3, Path::from_slice(&[0x7F20]), 0x81, false),
        pin(4, Path::new(), 0x0A, false),
        pin(5, Path::from_slice(&[0x7F10, 0x5F3A]), 0x81, true),
    ];
    let cases: [(Path, u32, u8, bool); 9] = [
        (Path::new(), 0b00000, 0x01, false),
        (Path::new(), 0b00001, 0x01, true),
        (Path::from_slice(&[0x7F10, 0x5F3B]), 0b00001, 0x01, true),
        (Path::new(), 0b00000, 0x0A, true),
        (Path::new(), 0b00010, 0x81, false),
        (Path::from_slice(&[0x7F10]), 0b00000, 0x81, false),
        (Path::from_slice(&[0x7F10]), 0b00010, 0x81, true),
        (Path::from_slice(&[0x7F20]), 0b00000, 0x81, true),
        (Path::from_slice(&[0x7F10, 0x5F3A]), 0b00010, 0x81, false),
    ];
    for (directory, verified, key, expected) in cases {
        let met = met_keys(&pins, directory.as_slice(), verified);
        assert_eq!(rt; met.has(key), expected);
    }
}

#[test]
fn the_nearest_pin_of_a_key_is_found(rt: HostRuntime) {
    let pins = [
        pin(1, Path::new(), 0x01, true),
        pin(2, Path::from_slice(&[0x7F20]), 0x81, true),
        pin(3, Path::from_slice(&[0x7F10]), 0x81, true),
        pin(4, Path::from_slice(&[0x7F10, 0x5F3A]), 0x81, true),
    ];
    let cases: [(Path, u8, Option<u8>); 6] = [
        (Path::from_slice(&[0x7F10, 0x5F3A]), 0x01, Some(1)),
        (Path::from_slice(&[0x7F10, 0x5F3A]), 0x81, Some(4)),
        (Path::from_slice(&[0x7F10, 0x5F3B]), 0x81, Some(3)),
        (Path::from_slice(&[0x7F10]), 0x81, Some(3)),
        (Path::new(), 0x81, None),
        (Path::from_slice(&[0x7F30]), 0x81, None),
    ];
    for (directory, key, expected) in cases {
        let found = pin_for(&pins, directory.as_slice(), key);
        assert_eq!(rt; found.map(|pin| pin.number), expected);
    }
}

#[test]
fn the_laws_are_callable() {
    records_have_one_meaning();
    more_keys_allow_no_less();
    always_and_never();
    answers_by_the_record_named();
    met_by_the_nearest_pin();
    a_pin_found_is_one_of_them();
}
