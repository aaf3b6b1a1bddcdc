use super::*;

const STANDARD: [u8; 17] = [
    0xA4, 0xB0, 0xD6, 0xB2, 0xDC, 0xA2, 0x20, 0x24, 0x26, 0x28, 0x2C, 0x70, 0xE0, 0xE4, 0xE8, 0x04,
    0x44,
];

const SPECIAL: [u8; 11] = [
    0xF2, 0x32, 0x10, 0xAA, 0x12, 0x14, 0xD4, 0xE2, 0xCB, 0xDB, 0x7A,
];

const WHOLE_WORDS: [u16; 29] = [
    0x9000, 0x910B, 0x6282, 0x6283, 0x6285, 0x6581, 0x6700, 0x6881, 0x6882, 0x6981, 0x6982, 0x6983,
    0x6984, 0x6985, 0x6986, 0x6A80, 0x6A81, 0x6A82, 0x6A83, 0x6A84, 0x6A86, 0x6A88, 0x6A89, 0x6A8A,
    0x6B00, 0x6D00, 0x6E00, 0x6F00, 0x9850,
];

#[test]
fn finds_the_first_row_of_a_key(rt: HostRuntime) {
    let twice = CaseRows {
        keys: [7, 8, 7],
        values: [1, 2, 3],
    };
    assert_eq!(rt; twice.find(7), Some(1));
    assert_eq!(rt; twice.find(8), Some(2));
    assert_eq!(rt; twice.find(9), None);
    assert!(rt; !twice.keys_differ());
}

#[test]
fn each_instruction_has_its_class(rt: HostRuntime) {
    assert!(rt; INS_ROWS.keys_differ());
    for ins in STANDARD {
        assert_eq!(rt; ins_class(ins), Some(0), "{ins:02X}");
    }
    for ins in SPECIAL {
        assert_eq!(rt; ins_class(ins), Some(1), "{ins:02X}");
    }
    assert_eq!(rt; INS_ROWS.find(0xC0), Some(2));
    assert_eq!(rt; ins_class(0x84), None);
}

#[test]
fn each_status_word_has_its_free_digits(rt: HostRuntime) {
    assert!(rt; STATUS_ROWS.keys_differ());
    for word in WHOLE_WORDS {
        assert_eq!(rt; free_digits(word), Some(0), "{word:04X}");
    }
    for (word, digits) in [(0x6100, 0x00FF), (0x6C00, 0x00FF), (0x63C0, 0x000F)] {
        assert_eq!(rt; STATUS_ROWS.find(word), Some(digits), "{word:04X}");
    }
    assert_eq!(rt; free_digits(0x6101), None);
}

#[test]
fn the_law_of_the_tables_is_callable() {
    one_row_for_each_key();
}
