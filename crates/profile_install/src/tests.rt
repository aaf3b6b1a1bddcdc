mod cuttings;
mod large;
mod packages;
mod refused_elements;
mod refused_files;
mod refused_pins;
mod refused_steps;
mod refused_templates;
mod samples;
mod taken;
mod templates;

use super::*;
use fcp_codec::{InUse, read_fcp};
use file_rows::{Content, FileHead, FileRow, Kind, Life, Name, Path, PinRow, Rule};
use file_templates::row;
use std::alloc::Global;

const USIM_NAME: [u8; 16] = *b"\xA0\x00\x00\x00\x87\x10\x02\xFF\xFF\xFF\xFF\x89\x00\x00\x01\x00";

const FREE: InUse = InUse {
    id: false,
    sfi: false,
    name: false,
    bytes: 32,
};

// The file at a template's position with this descriptor.
fn made(
    place: (u8, u8),
    directory: &Path,
    descriptor: &[u8],
    in_use: &InUse,
) -> Result<FileHead, ElementFault> {
    let row = row(place.0, place.1).ok_or(ElementFault::WrongTemplate)?;
    let given = read_fcp(descriptor).map_err(|_| ElementFault::Malformed)?;
    let parameters = file_parameters(&row, given)?;
    file_head(directory, &parameters, in_use)
}

// The MF of the first template with this descriptor.
fn master(descriptor: &[u8]) -> Result<FileHead, ElementFault> {
    let row = row(1, 2).ok_or(ElementFault::WrongTemplate)?;
    let given = read_fcp(descriptor).map_err(|_| ElementFault::Malformed)?;
    master_head(&row, &given)
}

fn file(path: Path, kind: Kind, sfi: u8, rule: Rule, record_len: u8, size: u16) -> FileHead {
    FileHead {
        path,
        kind,
        life: Life::Active,
        sfi,
        name: Name::new(),
        rule: Some(rule),
        record_len,
        size,
    }
}

// A rule of the EF ARR directly under the MF.
fn rule(row: u8) -> Rule {
    Rule { file: 0x2F06, row }
}

fn at(id: u16) -> Path {
    Path::from_slice(&[id])
}

#[test]
fn the_files_of_the_mf_are_as_their_template_says(rt: HostRuntime) {
    let root = Path::new();
    assert_eq!(rt;
        master(b""),
        Ok(file(Path::new(), Kind::Master, 0, rule(1), 0, 0))
    );
    let files = [
        (3, 0x2F05, Kind::Transparent, 5, 2, 0, 2),
        (4, 0x2FE2, Kind::Transparent, 2, 1, 0, 10),
        (5, 0x2F00, Kind::Linear, 30, 1, 38, 152),
        (6, 0x2F06, Kind::Linear, 6, 1, 42, 420),
        (7, 0x2F08, Kind::Transparent, 8, 3, 0, 5),
    ];
    for (position, id, kind, sfi, record, record_len, size) in files {
        let expected = file(at(id), kind, sfi, rule(record), record_len, size);
        assert_eq!(rt;
            made((1, position), &root, b"", &FREE),
            Ok(expected),
            "{position}"
        );
    }
}

#[test]
fn files_below_stand_under_the_rules_of_their_directory(rt: HostRuntime) {
    let usim = Path::from_slice(&[0x7FD0]);
    let below = Rule {
        file: 0x6F06,
        row: 1,
    };
    let path = Path::from_slice(&[0x7FD0, 0x6FAD]);
    let status = file(path, Kind::Transparent, 3, below, 0, 4);
    assert_eq!(rt; made((4, 12), &usim, b"", &FREE), Ok(status));
    let mut application = file(at(0x7FD0), Kind::Application, 0, rule(1), 0, 0);
    application.name = Name::from_slice(&USIM_NAME);
    let root = Path::new();
    let name = b"\x84\x10\xA0\x00\x00\x00\x87\x10\x02\xFF\xFF\xFF\xFF\x89\x00\x00\x01\x00";
    assert_eq!(rt; made((4, 2), &root, name, &FREE), Ok(application));
}

#[test]
fn a_descriptor_takes_the_place_of_what_the_template_says(rt: HostRuntime) {
    let root = Path::new();
    let mut other = file(at(0x2F05), Kind::Transparent, 0, rule(7), 0, 16);
    other.life = Life::Deactivated;
    let given = b"\x80\x01\x10\x88\x00\x8A\x01\x04\x8B\x01\x07\x83\x02\x2F\x77";
    assert_eq!(rt; made((1, 3), &root, given, &FREE), Ok(other));
    let records = file(at(0x2F00), Kind::Linear, 30, rule(1), 19, 152);
    assert_eq!(rt;
        made((1, 5), &root, b"\x82\x04\x42\x21\x00\x13", &FREE),
        Ok(records)
    );
    let mut mf = file(Path::new(), Kind::Master, 0, rule(2), 0, 0);
    mf.life = Life::Terminated;
    let given = b"\x82\x02\x78\x21\x80\x01\x10\x88\x01\x28\x8A\x01\x0C\x8B\x01\x02";
    assert_eq!(rt; master(given), Ok(mf));
}

#[test]
fn what_cannot_be_is_6(rt: HostRuntime) {
    let root = Path::new();
    let refused: [(u8, u8, &[u8]); 9] = [
        (1, 3, b"\x82\x02\x78\x21"),
        (1, 5, b"\x82\x04\x46\x21\x00\x26"),
        (1, 5, b"\x82\x04\x42\x21\x00\x25"),
        (1, 3, b"\x80\x01\x00"),
        (1, 3, b"\x80\x03\x01\x00\x00"),
        (1, 3, b"\x84\x05\xA0\x00\x00\x00\x87"),
        (3, 2, b"\x84\x05\xA0\x00\x00\x00\x87"),
        (4, 2, b""),
        (4, 2, b"\x84\x04\xA0\x00\x00\x00"),
    ];
    for (template, position, given) in refused {
        let answer = made((template, position), &root, given, &FREE);
        assert_eq!(rt;
            answer,
            Err(ElementFault::BadParameter),
            "{template} {position}"
        );
    }
    assert_eq!(rt;
        master(b"\x84\x05\xA0\x00\x00\x00\x87"),
        Err(ElementFault::BadParameter)
    );
    assert_eq!(rt;
        master(b"\x82\x02\x41\x21"),
        Err(ElementFault::BadParameter)
    );
}

#[test]
fn what_is_in_use_is_6_and_the_quota_4(rt: HostRuntime) {
    let root = Path::new();
    let in_use = [
        InUse { id: true, ..FREE },
        InUse { sfi: true, ..FREE },
        InUse { name: true, ..FREE },
    ];
    for used in in_use {
        let answer = made((1, 3), &root, b"", &used);
        assert_eq!(rt; answer, Err(ElementFault::BadParameter));
    }
    let last = InUse {
        bytes: 65_502,
        ..FREE
    };
    assert!(rt; made((1, 3), &root, b"", &last).is_ok());
    let full = InUse {
        bytes: 65_503,
        ..FREE
    };
    assert_eq!(rt; made((1, 3), &root, b"", &full), Err(ElementFault::NoRoom));
    assert_eq!(rt;
        made((1, 3), &root, b"\x80\x03\x01\x00\x00", &full),
        Err(ElementFault::BadParameter)
    );
}

#[test]
fn each_fault_has_its_result(rt: HostRuntime) {
    let faults = [
        (ElementFault::NoRoom, 4),
        (ElementFault::Malformed, 5),
        (ElementFault::BadParameter, 6),
        (ElementFault::WrongTemplate, 9),
        (ElementFault::WrongVersion, 31),
    ];
    for (fault, result) in faults {
        assert_eq!(rt; fault.result(), result);
    }
    template_files_fit();
}
