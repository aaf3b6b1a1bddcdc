use super::*;
use file_rows::{FileHead, Kind, Life, Name, Path, PinRow, Rule};
use plain_lists::ShortList;
use std::test::Fail;

const MASTER: &[u8] =
    b"\x62\x20\x82\x02\x78\x21\x83\x02\x3F\x00\xA5\x03\x80\x01\x71\x8A\x01\x05\x8B\x03\x2F\x06\
    \x01\xC6\x09\x90\x01\xC0\x83\x01\x01\x83\x01\x0A";

const ICCID: &[u8] =
    b"\x62\x17\x82\x02\x41\x21\x83\x02\x2F\xE2\x8A\x01\x05\x8B\x03\x2F\x06\x01\x80\x02\x00\x0A\
    \x88\x01\x10";

const USIM: &[u8] =
    b"\x62\x32\x82\x02\x78\x21\x83\x02\x7F\xD0\x84\x10\xA0\x00\x00\x00\x87\x10\x02\xFF\xFF\xFF\
    \xFF\x89\x00\x00\x01\x00\xA5\x03\x80\x01\x71\x8A\x01\x05\x8B\x03\x2F\x06\x01\xC6\x09\x90\x01\
    \xC0\x83\x01\x01\x83\x01\x0A";

const USIM_NAME: &[u8; 16] = b"\xA0\x00\x00\x00\x87\x10\x02\xFF\xFF\xFF\xFF\x89\x00\x00\x01\x00";

const RULE_1: Rule = Rule {
    file: 0x2F06,
    row: 1,
};

fn head(path: &[u16; 1], kind: Kind) -> FileHead {
    FileHead {
        path: Path::from_slice(path),
        kind,
        life: Life::Active,
        sfi: 0,
        name: Name::new(),
        rule: Some(RULE_1),
        record_len: 0,
        size: 0,
    }
}

fn pin(number: u8, key: u8) -> PinRow {
    PinRow {
        number,
        home: Path::new(),
        key,
        value: [0x31; 8],
        max: 3,
        left: 3,
        enabled: true,
        puk: None,
    }
}

#[test]
fn writes_what_a_card_answers(rt: HostRuntime) {
    let pins = [pin(2, 0x0A), pin(1, 0x01)];

    let mut master = head(&[0], Kind::Master);
    master.path = Path::new();
    assert!(rt; master.is_file());
    assert_eq!(rt; put_fcp(&master, &pins).as_slice(), MASTER);

    let mut iccid = head(&[0x2FE2], Kind::Transparent);
    iccid.size = 10;
    iccid.sfi = 2;
    assert!(rt; iccid.is_file());
    assert_eq!(rt; put_fcp(&iccid, &pins).as_slice(), ICCID);

    let mut usim = head(&[0x7FD0], Kind::Application);
    usim.name = Name::from_slice(USIM_NAME);
    assert!(rt; usim.is_file());
    assert_eq!(rt; put_fcp(&usim, &pins).as_slice(), USIM);
}

#[test]
fn writes_records(rt: HostRuntime) {
    let records = FileHead {
        path: Path::from_slice(&[0x6F3C]),
        kind: Kind::Linear,
        life: Life::Active,
        sfi: 0,
        name: Name::new(),
        rule: Some(RULE_1),
        record_len: 28,
        size: 140,
    };
    let expected: &[u8] =
        b"\x62\x17\x82\x05\x42\x21\x00\x1C\x05\x83\x02\x6F\x3C\x8A\x01\x05\x8B\x03\x2F\x06\x01\
        \x80\x02\x00\x8C";
    assert!(rt; records.is_file());
    assert_eq!(rt; put_fcp(&records, &[]).as_slice(), expected);
}

#[test]
fn reads_what_a_card_answers(rt: HostRuntime) -> Result<(), Fail> {
    let master = read_fcp(&MASTER[2..])?;
    assert_eq!(rt; master.form(), Some(FileForm::Directory));
    assert_eq!(rt; master.id, Some(0x3F00));
    assert_eq!(rt; master.rule, Some(RuleRef::Whole(RULE_1)));
    assert!(rt; master.name.is_none() && master.size.is_none() && master.sfi.is_none());

    let iccid = read_fcp(&ICCID[2..])?;
    assert_eq!(rt; iccid.form(), Some(FileForm::Transparent));
    assert_eq!(rt; iccid.id, Some(0x2FE2));
    assert_eq!(rt; iccid.size, Some(10));
    assert_eq!(rt; iccid.sfi, Some(2));
    assert_eq!(rt; iccid.life, Some(Life::Active));

    let usim = read_fcp(&USIM[2..])?;
    assert_eq!(rt; usim.id, Some(0x7FD0));
    assert!(rt; usim.name == Some(ShortList::from_slice(USIM_NAME)));
    Ok(())
}

#[test]
fn refuses_the_first_bad_field(rt: HostRuntime) {
    let cases: [(&[u8], u32); 9] = [
        (b"\x83\x02\x6F\x07\x83\x02\x6F\x07", 0x83),
        (b"\xA5\x00\xA5\x00", 0xA5),
        (b"\x82\x02\x42\x21", 0x82),
        (b"\x8A\x01\x06", 0x8A),
        (b"\x88\x01\xF8", 0x88),
        (b"\x80\x00", 0x80),
        (b"\x8B\x02\x6F\x06", 0x8B),
        (b"\x83\x01\x6F\x82\x00", 0x83),
        (b"\x83\x02\x6F\x07\x80\x05", 0),
    ];
    for (value, tag) in cases {
        assert!(rt;
            read_fcp(value) == Err(FcpFault::BadField { tag }),
            "{value:?}"
        );
    }
    assert_eq!(rt; FcpFault::BadField { tag: 0 }.number(), 1);
}

#[test]
fn takes_other_spellings(rt: HostRuntime) -> Result<(), Fail> {
    let value: &[u8] =
        b"\x88\x00\x8B\x01\x03\x99\x01\x00\x82\x05\x46\x21\x00\x0D\x09\x80\x03\x00\x01\x00\x8A\
        \x01\x0C\x99\x00";
    let fcp = read_fcp(value)?;
    assert_eq!(rt; fcp.form(), Some(FileForm::Cyclic { record_len: 13 }));
    assert_eq!(rt; fcp.sfi, Some(0));
    assert_eq!(rt; fcp.size, Some(256));
    assert_eq!(rt; fcp.life, Some(Life::Terminated));
    let rule = fcp.rule.ok_or("a rule")?;
    assert_eq!(rt; rule.rule(&Path::from_slice(&[0x6F07])).file, 0x2F06);
    assert_eq!(rt;
        rule.rule(&Path::from_slice(&[0x7F10, 0x6F07])).file,
        0x6F06
    );
    let pairs = read_fcp(b"\x8B\x06\x6F\x06\x01\x02\x00\x03")?;
    assert_eq!(rt;
        pairs.rule,
        Some(RuleRef::Whole(Rule {
            file: 0x6F06,
            row: 2
        }))
    );
    Ok(())
}

const FREE: InUse = InUse {
    id: false,
    sfi: false,
    name: false,
    bytes: 32,
};

// Ten bytes of two records, with identifier 6F3A and a rule in the EF ARR of its place.
const RECORDS: &[u8] = b"\x82\x04\x42\x21\x00\x05\x83\x02\x6F\x3A\x80\x01\x0A\x8B\x01\x03";

#[test]
fn makes_the_head_of_a_new_file(rt: HostRuntime) -> Result<(), Fail> {
    let directory = Path::from_slice(&[0x7F10]);
    let head = FileHead {
        path: Path::from_slice(&[0x7F10, 0x6F3A]),
        kind: Kind::Linear,
        life: Life::Active,
        sfi: 0x1A,
        name: Name::new(),
        rule: Some(Rule {
            file: 0x6F06,
            row: 3,
        }),
        record_len: 5,
        size: 10,
    };
    let fcp = read_fcp(RECORDS)?;
    assert!(rt; new_head(&directory, &fcp, &FREE) == Ok(head));
    Ok(())
}

#[test]
fn refuses_a_new_file(rt: HostRuntime) -> Result<(), Fail> {
    let directory = Path::from_slice(&[0x7F10]);
    let fcp = read_fcp(RECORDS)?;
    let mut used = FREE;
    used.bytes = 65_495;
    let full = new_head(&directory, &fcp, &used);
    assert!(rt; full == Err(CreationFault::QuotaExceeded));
    used.name = true;
    let named = new_head(&directory, &fcp, &used);
    assert!(rt; named == Err(CreationFault::NameInUse));
    used.id = true;
    let there = new_head(&directory, &fcp, &used);
    assert!(rt; there == Err(CreationFault::IdInUse));
    let unnamed = read_fcp(b"\x82\x02\x78\x21")?;
    let lacking = new_head(&directory, &unnamed, &used);
    assert!(rt; lacking == Err(CreationFault::BadParameters));
    Ok(())
}
