// Access rules and PINs: the worked examples on the sample card, and a card of three levels with
// access rules and PINs of its own directories.
use super::*;

// A command of the sample card, and its answer.
const PIN_ROWS: [Case; 22] = [
    (b"\x00\xA4\x00\x0C\x02\x2F\x08", b"", 0x9000),
    (b"\x00\xB0\x00\x00\x05", b"", 0x6982),
    (b"\x00\x20\x00\x01", b"", 0x63C3),
    (b"\x00\x20\x00\x01\x080000\xFF\xFF\xFF\xFF", b"", 0x63C2),
    (b"\x00\x20\x00\x01\x081234\xFF\xFF\xFF\xFF", b"", 0x9000),
    (b"\x00\x20\x00\x01", b"", 0x63C3),
    (b"\x00\xB0\x00\x00\x05", b"\xFF\xFF\xFF\xFF\xFF", 0x9000),
    (b"\x00\x20\x01\x01", b"", 0x6A86),
    (b"\x80\x20\x00\x01", b"", 0x6E00),
    (b"\x00\x24\x00\x01", b"", 0x6700),
    (b"\x00\x20\x00\x02", b"", 0x6A88),
    (b"\x00\x24\x00\x02\x01\x31", b"", 0x6A88),
    (b"\x00\x24\x00\x01\x01\x31", b"", 0x6700),
    (
        b"\x00\x24\x00\x01\x101234\xFF\xFF\xFF\xFF4321\xFF\xFF\xFF\xFF",
        b"",
        0x9000,
    ),
    (b"\x00\x26\x00\x01\x084321\xFF\xFF\xFF\xFF", b"", 0x9000),
    (b"\x00\x20\x00\x01", b"", 0x6984),
    (b"\x00\x28\x00\x01\x084321\xFF\xFF\xFF\xFF", b"", 0x9000),
    (b"\x00\x2C\x00\x01", b"", 0x6A88),
    (b"\x00\xB0\x00\x00\x05", b"\xFF\xFF\xFF\xFF\xFF", 0x9000),
    (b"\x00\xD6\x00\x01\x02\xAB\xCD", b"", 0x9000),
    (b"\x00\xB0\x00\x00\x05", b"\xFF\xAB\xCD\xFF\xFF", 0x9000),
    (b"\x00\xB0\x88\x01\x02", b"\xAB\xCD", 0x9000),
];

const BLOCKED_ROWS: [Case; 6] = [
    (b"\x00\x20\x00\x01", b"", 0x63C3),
    (b"\x00\x20\x00\x01\x080000\xFF\xFF\xFF\xFF", b"", 0x63C2),
    (b"\x00\x20\x00\x01\x080000\xFF\xFF\xFF\xFF", b"", 0x63C1),
    (b"\x00\x20\x00\x01\x080000\xFF\xFF\xFF\xFF", b"", 0x63C0),
    (b"\x00\x20\x00\x01\x081234\xFF\xFF\xFF\xFF", b"", 0x6983),
    (b"\x00\x20\x00\x01\x04\x30\x30\x30\x30", b"", 0x6700),
];

#[test]
fn a_pin_opens_a_file_of_the_sample_card(rt: HostRuntime) -> Result<(), Fail> {
    let mut card = sample_card(rt.alloc())?;
    assert_eq!(rt; first_other(&mut card, &PIN_ROWS)?, None);
    card.reset(false, None);
    assert_eq!(rt; ask(&mut card, b"\x00\xA4\x00\x0C\x02\x2F\x08")?.sw, Sw::OK);
    assert_eq!(rt; ask(&mut card, b"\x00\xB0\x00\x00\x05")?.sw, Sw(0x6982));
    Ok(())
}

#[test]
fn three_wrong_values_block_a_pin(rt: HostRuntime) -> Result<(), Fail> {
    let mut card = sample_card(rt.alloc())?;
    assert_eq!(rt; first_other(&mut card, &BLOCKED_ROWS)?, None);
    Ok(())
}

// Records of 11 bytes: reading is always allowed; with key 81; a malformed record.
const MASTER_RULES: &[u8] = b"\x80\x01\x01\x90\x00\xFF\xFF\xFF\xFF\xFF\xFF\
    \x80\x01\x01\xA4\x06\x83\x01\x81\x95\x01\x08\
    \x80\x01\x01\x90\x00\x80\x01\x01\xFF\xFF\xFF";

// Never; with key 81.
const DIRECTORY_RULES: &[u8] = b"\x80\x01\x01\x97\x00\xFF\xFF\xFF\xFF\xFF\xFF\
    \x80\x01\x01\xA4\x06\x83\x01\x81\x95\x01\x08";

const KEY_01: &[u8] = b"\x80\x01\x01\xA4\x06\x83\x01\x01\x95\x01\x08";

// A file: its path and kind, the EF ARR and the record of its rule, and its body.
struct Entry(&'static [u16], Kind, u16, u8, &'static [u8]);

const EF: Kind = Kind::Transparent;

const DIRECTORY: Kind = Kind::Directory;

// The MF, 7F10 with 5F3A in it, and 7F20. The MF and 7F10 have an EF ARR 2F06, and 5F3A has 6F06.
const LEVELS: [Entry; 15] = [
    Entry(&[], Kind::Master, 0x2F06, 1, &[]),
    Entry(&[0x2F06], Kind::Linear, 0x2F06, 1, MASTER_RULES),
    Entry(&[0x6F01], EF, 0x2F06, 1, &[0xAB]),
    Entry(&[0x6F02], EF, 0x2F06, 3, &[0xAB]),
    Entry(&[0x6F03], EF, 0x2F06, 4, &[0xAB]),
    Entry(&[0x7F10], DIRECTORY, 0x2F06, 1, &[]),
    Entry(&[0x7F10, 0x2F06], Kind::Linear, 0x2F06, 1, DIRECTORY_RULES),
    Entry(&[0x7F10, 0x6F01], EF, 0x2F06, 1, &[0xAB]),
    Entry(&[0x7F10, 0x5F3A], DIRECTORY, 0x2F06, 1, &[]),
    Entry(&[0x7F10, 0x5F3A, 0x6F06], Kind::Linear, 0x2F06, 1, KEY_01),
    Entry(&[0x7F10, 0x5F3A, 0x6F01], EF, 0x2F06, 2, &[0xAB]),
    Entry(&[0x7F10, 0x5F3A, 0x6F02], EF, 0x6F06, 1, &[0xAB]),
    Entry(&[0x7F20], DIRECTORY, 0x2F06, 1, &[]),
    Entry(&[0x7F20, 0x6F01], EF, 0x2F06, 2, &[0xAB]),
    Entry(&[0x7F20, 0x6F02], EF, 0x6F06, 1, &[0xAB]),
];

fn file_of(alloc: Global, entry: &Entry) -> Result<FileRow, Fail> {
    if entry.0.len() > 4 || entry.4.len() > 65535 {
        return Err(Fail::from("no file has this path or size"));
    }
    let mut file = make_row(alloc, entry.0, entry.1, Life::Active, b"", entry.4)?;
    file.head.rule = Some(Rule {
        file: entry.2,
        row: entry.3,
    });
    if entry.1 == Kind::Linear {
        file.head.record_len = 11;
    }
    Ok(file)
}

fn files_of(alloc: Global, entries: &[Entry]) -> Result<Vec<FileRow>, Fail> {
    let mut files = Vec::new(alloc);
    for entry in entries {
        files.push(file_of(alloc, entry)?)?;
    }
    Ok(files)
}

// A PIN of this key at home in a directory under the MF.
fn local_pin(number: u8, key: u8, directory: u16) -> PinRow {
    PinRow {
        home: Path::from_slice(&[directory]),
        ..make_pin(number, key)
    }
}

fn three_levels(alloc: Global) -> Result<Content, Fail> {
    let files = files_of(alloc, &LEVELS)?;
    let pins = [
        make_pin(1, 0x01),
        local_pin(2, 0x81, 0x7F10),
        local_pin(3, 0x81, 0x7F20),
    ];
    Ok(Content {
        rows: LongList::from(files),
        pins: LongList::from(Vec::from_array(alloc, pins)?),
    })
}

const LEVEL_ROWS: [Case; 24] = [
    (b"\x00\xA4\x08\x0C\x02\x6F\x01", b"", 0x9000),
    (b"\x00\xB0\x00\x00\x01", b"\xAB", 0x9000),
    (b"\x00\xA4\x08\x0C\x02\x6F\x02", b"", 0x9000),
    (b"\x00\xB0\x00\x00\x01", b"", 0x6982),
    (b"\x00\xA4\x08\x0C\x02\x6F\x03", b"", 0x9000),
    (b"\x00\xB0\x00\x00\x01", b"", 0x6982),
    (b"\x00\x20\x00\x81", b"", 0x6A88),
    (b"\x00\xA4\x08\x0C\x04\x7F\x10\x6F\x01", b"", 0x9000),
    (b"\x00\xB0\x00\x00\x01", b"", 0x6982),
    (b"\x00\xA4\x08\x0C\x06\x7F\x10\x5F\x3A\x6F\x01", b"", 0x9000),
    (b"\x00\xB0\x00\x00\x01", b"", 0x6982),
    (b"\x00\x20\x00\x81\x0888888888", b"", 0x9000),
    (b"\x00\xB0\x00\x00\x01", b"\xAB", 0x9000),
    (b"\x00\xA4\x08\x0C\x06\x7F\x10\x5F\x3A\x6F\x02", b"", 0x9000),
    (b"\x00\xB0\x00\x00\x01", b"", 0x6982),
    (b"\x00\x20\x00\x01\x0888888888", b"", 0x9000),
    (b"\x00\xB0\x00\x00\x01", b"\xAB", 0x9000),
    (b"\x00\xA4\x08\x0C\x04\x7F\x20\x6F\x01", b"", 0x9000),
    (b"\x00\xB0\x00\x00\x01", b"", 0x6982),
    (b"\x00\x20\x00\x81", b"", 0x63C3),
    (b"\x00\x20\x00\x81\x0888888888", b"", 0x9000),
    (b"\x00\xB0\x00\x00\x01", b"\xAB", 0x9000),
    (b"\x00\xA4\x08\x0C\x04\x7F\x20\x6F\x02", b"", 0x9000),
    (b"\x00\xB0\x00\x00\x01", b"", 0x6982),
];

#[test]
fn rules_and_pins_are_found_from_the_directory_upwards(rt: HostRuntime) -> Result<(), Fail> {
    let content = three_levels(rt.alloc())?;
    if !content.is_valid() {
        return Err(Fail::from("no card may hold this content"));
    }
    let mut card = start(rt.alloc(), &content)?;
    assert_eq!(rt; first_other(&mut card, &LEVEL_ROWS)?, None);
    Ok(())
}
