//! The content of the sample card.
ghost use Rattle.std.specs.Prelude.{◌≡◌, ◌≤◌, length, IfOk};
ghost use Rattle.file_rows.specs.Content.{use_of};
ghost use Rattle.profile_card.specs.CardState.{card_of};
ghost use Rattle.profile_card.specs.Sample.{sample, sample_card, sample_file, sample_head};
ghost use Rattle.profile_card.specs.Sample.{sample_pin};

use crate::{Card1, Place};
use file_rows::{Content, FileHead, FileRow, Kind, Life, Name, NoMemory, Path, PinRow, Rule};
use plain_lists::LongList;
use port_table::PortMode;
use std::alloc::Global;
use uicc_channels::fresh;

const ICCID: [u8; 10] = [0x98, 0x94, 0, 0, 0, 0, 0, 0, 0, 0xF1];

// The records of the EF ARR, of 42 bytes each: read always and update with key 0A; read and update
// always; read and update with key 01.
const RULES: [u8; 95] = [
    0x80, 1, 1, 0x90, 0, 0x80, 1, 2, 0xA4, 6, 0x83, 1, 0x0A, 0x95, 1, 8, 0xFF, 0xFF, 0xFF, 0xFF,
    0xFF, 0xFF, 0xFF, 0xFF, 0xFF, 0xFF, 0xFF, 0xFF, 0xFF, 0xFF, 0xFF, 0xFF, 0xFF, 0xFF, 0xFF, 0xFF,
    0xFF, 0xFF, 0xFF, 0xFF, 0xFF, 0xFF, 0x80, 1, 3, 0x90, 0, 0xFF, 0xFF, 0xFF, 0xFF, 0xFF, 0xFF,
    0xFF, 0xFF, 0xFF, 0xFF, 0xFF, 0xFF, 0xFF, 0xFF, 0xFF, 0xFF, 0xFF, 0xFF, 0xFF, 0xFF, 0xFF, 0xFF,
    0xFF, 0xFF, 0xFF, 0xFF, 0xFF, 0xFF, 0xFF, 0xFF, 0xFF, 0xFF, 0xFF, 0xFF, 0xFF, 0xFF, 0xFF, 0x80,
    1, 3, 0xA4, 6, 0x83, 1, 1, 0x95, 1, 8,
];

// An active file with a rule of the EF ARR 2F06.
fn sample_head(path: &[u16], kind: Kind, sfi: u8, rule: u8, record_len: u8, size: u16) -> FileHead
    requires { length path.now ≤ 4 }
    ensures { result ≡ sample_head path.now kind sfi rule record_len size }
{
    FileHead {
        path: Path::from_slice(path),
        kind,
        life: Life::Active,
        sfi,
        name: Name::new(),
        rule: Some(Rule {
            file: 0x2F06,
            row: rule,
        }),
        record_len,
        size,
    }
}

// A file whose body begins so and goes on with FF.
#[tactic(auto, unfolding(crate::specs::Sample::sample_file))]
fn sample_file(alloc: Global, head: FileHead, prefix: &[u8]) -> Result<FileRow, NoMemory>
    requires { length prefix.now ≤ head.size }
    ensures { IfOk result (λ row. row ≡ sample_file head prefix.now) }
{
    let size = usize::from(head.size);
    let mut body = Vec::with_capacity(alloc, size)?;
    body.extend_from_slice(prefix)?;
    body.resize(size, 0xFF)?;
    Ok(FileRow {
        head,
        body: LongList::from(body),
    })
}

// An enabled PIN of the MF, with three tries of three and no PUK.
fn sample_pin(number: u8, key: u8, value: [u8; 8]) -> PinRow
    ensures { result ≡ sample_pin number key value }
{
    PinRow {
        number,
        home: Path::new(),
        key,
        value,
        max: 3,
        left: 3,
        enabled: true,
        puk: None,
    }
}

// The MF with five files.
fn sample_rows(alloc: Global) -> Result<Vec<FileRow>, NoMemory>
    ensures { IfOk result (λ rows. rows.items ≡ sample.rows) }
{
    let rows = [
        sample_file(alloc, sample_head(&[], Kind::Master, 0, 1, 0, 0), &[])?,
        sample_file(
            alloc,
            sample_head(&[0x2F05], Kind::Transparent, 0x05, 2, 0, 2),
            &[],
        )?,
        sample_file(
            alloc,
            sample_head(&[0x2FE2], Kind::Transparent, 0x02, 1, 0, 10),
            &ICCID,
        )?,
        sample_file(
            alloc,
            sample_head(&[0x2F00], Kind::Linear, 0x1E, 1, 38, 152),
            &[],
        )?,
        sample_file(
            alloc,
            sample_head(&[0x2F06], Kind::Linear, 0x06, 1, 42, 420),
            &RULES,
        )?,
        sample_file(
            alloc,
            sample_head(&[0x2F08], Kind::Transparent, 0x08, 3, 0, 5),
            &[],
        )?,
    ];
    Ok(Vec::from_array(alloc, rows)?)
}

fn sample_pins(alloc: Global) -> Result<Vec<PinRow>, NoMemory>
    ensures { IfOk result (λ pins. pins.items ≡ sample.pins) }
{
    let pins = [
        sample_pin(1, 0x01, [0x31, 0x32, 0x33, 0x34, 0xFF, 0xFF, 0xFF, 0xFF]),
        sample_pin(2, 0x0A, [0x38; 8]),
    ];
    Ok(Vec::from_array(alloc, pins)?)
}

/// The content of the sample card: the MF with five files, and two PINs.
pub fn sample_content(alloc: Global) -> Result<Content, NoMemory>
    ensures content { IfOk result (λ content. content ≡ sample) }
    ensures quota { IfOk result (λ content. use_of content.rows ≡ 781) }
{
    let rows = sample_rows(alloc)?;
    let pins = sample_pins(alloc)?;
    Ok(Content {
        rows: LongList::from(rows),
        pins: LongList::from(pins),
    })
}

/// The sample card: on port 1 of a card in MEP-A1, with a fresh session.
pub fn sample_card(alloc: Global) -> Result<Card1, NoMemory>
    ensures { IfOk result (λ card. card_of card ≡ sample_card) }
{
    let content = sample_content(alloc)?;
    let place = Place {
        port: 1,
        mode: PortMode::A1,
    };
    Card1::start(alloc, &content, fresh(false, None), place)
}
