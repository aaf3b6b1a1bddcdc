//! What no clause says: the sample card and a card with an application as the worked examples have
//! them, and each call once.
ghost use Rattle.std.specs.Prelude.{◌≡◌, ◌≤◌, false, None, Some, IfOk, length};
ghost use Rattle.file_rows.specs.Content.{IsValid};
ghost use Rattle.port_table.specs.declared.port_mode.PortMode.TheVariants.{A1};
ghost use Rattle.uicc_channels.specs.Session.{fresh_session};
ghost use Rattle.profile_card.specs.Card.{MayFollow, outcome_at};
ghost use Rattle.profile_card.specs.CardState.{card_of};

use super::*;
use apdu_codec::{Answer, Sw, read_command};
use file_rows::{
    Change, Content, FileHead, FileRow, Kind, Life, Name, Path, Piece, PinRow, Rule, used,
};
use plain_lists::LongList;
use port_table::PortMode;
use std::alloc::Global;
use std::test::Fail;
use uicc_channels::{Decided, SessionChange, fresh};

mod access;
mod long_file;
mod sessions;

const PORT_1_OF_A1: Place = Place {
    port: 1,
    mode: PortMode::A1,
};

const PORT_1_OF_B: Place = Place {
    port: 1,
    mode: PortMode::B,
};

const SELECT_ISDR: &[u8] =
    b"\x00\xA4\x04\x00\x10\xA0\x00\x00\x05\x59\x10\x10\xFF\xFF\xFF\xFF\x89\x00\x00\x01\x00";

const USIM_NAME: &[u8; 16] = b"\xA0\x00\x00\x00\x87\x10\x02\xFF\xFF\xFF\xFF\x89\x00\x00\x01\x00";

// A command, and the answer to it: its body and its status word.
type Case = (&'static [u8], &'static [u8], u16);

// Reserves memory where there is a change, and carries out what was decided.
fn carry_out(card: &mut Card1, decided: &Decided) -> Result<(), NoMemory>
    requires { MayFollow (card_of card.old) (outcome_at (card_of card.old) decided.now) }
{
    match &decided.change {
        None => card.settle(decided),
        Some(change) => {
            card.reserve(change)?;
            card.settle(decided);
        }
    }
    Ok(())
}

// The answer to a command, which is carried out.
fn ask(card: &mut Card1, bytes: &[u8]) -> Result<Answer, Fail> {
    let command = match read_command(bytes) {
        Ok(command) => command,
        Err(sw) => return Ok(Answer::status(sw)),
    };
    let decided = card.decide(&command);
    carry_out(card, &decided)?;
    Ok(decided.answer)
}

// Whether the card gives these answers, one after another; if not, the number of the first that it
// doesn't give.
fn first_other(card: &mut Card1, rows: &[Case]) -> Result<Option<usize>, Fail> {
    for (index, (bytes, body, sw)) in rows.iter().enumerate() {
        let answer = ask(card, bytes)?;
        if answer.body.as_slice() != *body || answer.sw != Sw(*sw) {
            return Ok(Some(index));
        }
    }
    Ok(None)
}

const MASTER_PARAMETERS: &[u8] =
    b"\x62\x20\x82\x02\x78\x21\x83\x02\x3F\x00\xA5\x03\x80\x01\x71\x8A\x01\x05\x8B\x03\
      \x2F\x06\x01\xC6\x09\x90\x01\xC0\x83\x01\x01\x83\x01\x0A";

const ICCID_PARAMETERS: &[u8] =
    b"\x62\x17\x82\x02\x41\x21\x83\x02\x2F\xE2\x8A\x01\x05\x8B\x03\x2F\x06\x01\x80\x02\
      \x00\x0A\x88\x01\x10";

const USIM_PARAMETERS: &[u8] =
    b"\x62\x32\x82\x02\x78\x21\x83\x02\x7F\xD0\x84\x10\xA0\x00\x00\x00\x87\x10\x02\xFF\
      \xFF\xFF\xFF\x89\x00\x00\x01\x00\xA5\x03\x80\x01\x71\x8A\x01\x05\x8B\x03\x2F\x06\
      \x01\xC6\x09\x90\x01\xC0\x83\x01\x01\x83\x01\x0A";

#[test]
fn the_sample_card_uses_781_bytes_of_its_quota(rt: HostRuntime) -> Result<(), Fail> {
    let content = sample_content(rt.alloc())?;
    assert_eq!(rt; content.rows.len(), 6);
    assert_eq!(rt; content.pins.len(), 2);
    assert_eq!(rt; used(&content), 781);
    Ok(())
}

#[test]
fn the_sample_card_answers(rt: HostRuntime) -> Result<(), Fail> {
    let mut card = sample_card(rt.alloc())?;
    let rows: [Case; 13] = [
        (b"\x00\xB0\x00\x00\x05", b"", 0x6986),
        (b"\x00\xA4\x00\x0C\x02\x2F\x00", b"", 0x9000),
        (b"\x00\xB0\x00\x00\x05", b"", 0x6981),
        (b"\x00\xA4\x00\x0C\x02\x2F\x08", b"", 0x9000),
        (b"\x00\xB0\x00\x00\x05", b"", 0x6982),
        (b"\x00\xA4\x00\x0C\x02\x6F\x07", b"", 0x6A82),
        (b"\x01\xA4\x00\x0C\x02\x3F\x00", b"", 0x6881),
        (
            b"\x00\xA4\x00\x04\x02\x3F\x00\x00",
            MASTER_PARAMETERS,
            0x9000,
        ),
        (b"\x00\xA4\x00\x04\x02\x3F\x00", b"", 0x6122),
        (b"\x00\xA4\x00\x0C\x02\x2F\x05", b"", 0x9000),
        (b"\x00\xB0\x00\x00\x00", b"\xFF\xFF", 0x9000),
        (b"\x80\x7A\x00\x00\x03", b"", 0x6D00),
        (SELECT_ISDR, b"", 0x6A82),
    ];
    assert_eq!(rt; first_other(&mut card, &rows)?, None);
    Ok(())
}

#[test]
fn a_reset_puts_the_card_back_to_the_mf(rt: HostRuntime) -> Result<(), Fail> {
    let mut card = sample_card(rt.alloc())?;
    let selected = ask(&mut card, b"\x00\xA4\x00\x0C\x02\x2F\x05")?;
    assert_eq!(rt; selected.sw, Sw::OK);
    card.reset(false, None);
    assert_eq!(rt; ask(&mut card, b"\x00\xB0\x00\x00\x00")?.sw, Sw(0x6986));
    Ok(())
}

fn make_row(
    alloc: Global,
    path: &[u16],
    kind: Kind,
    life: Life,
    name: &[u8],
    body: &[u8],
) -> Result<FileRow, NoMemory>
    requires path { length path.now ≤ 4 }
    requires name { length name.now ≤ 16 }
    requires body { length body.now ≤ 65535 }
{
    Ok(FileRow {
        head: FileHead {
            path: Path::from_slice(path),
            kind,
            life,
            sfi: 0,
            name: Name::from_slice(name),
            rule: Some(Rule {
                file: 0x2F06,
                row: 1,
            }),
            record_len: 0,
            size: body.len() as u16,
        },
        body: LongList::from(Vec::from_slice(alloc, body)?),
    })
}

fn make_pin(number: u8, key: u8) -> PinRow {
    PinRow {
        number,
        home: Path::new(),
        key,
        value: [0x38; 8],
        max: 3,
        left: 3,
        enabled: true,
        puk: None,
    }
}

// Reading is always allowed; with key 01.
const RULES: &[u8] = b"\x80\x01\x01\x90\x00\xFF\xFF\xFF\xFF\xFF\xFF\
    \x80\x01\x01\xA4\x06\x83\x01\x01\x95\x01\x08";

const IMSI: &[u8] = b"\x08\x09\x10\x10\x00\x00\x00\x00\x10";

// EF IMSI in the application, which is read with key 01.
fn imsi(alloc: Global) -> Result<FileRow, NoMemory> {
    let mut file = make_row(
        alloc,
        &[0x7FD0, 0x6F07],
        Kind::Transparent,
        Life::Active,
        b"",
        IMSI,
    )?;
    file.head.sfi = 7;
    file.head.rule = Some(Rule {
        file: 0x2F06,
        row: 2,
    });
    Ok(file)
}

// An MF with an EF ARR and three EFs, of which one is deactivated and one terminated, and an
// application that has an EF too.
fn content_with_application(alloc: Global) -> Result<Content, NoMemory> {
    let ef = Kind::Transparent;
    let number = b"\x98\x94\x00\x00\x00\x00\x00\x00\x00\xF2";
    let mut iccid = make_row(alloc, &[0x2FE2], ef, Life::Active, b"", number)?;
    iccid.head.sfi = 2;
    let mut rules = make_row(alloc, &[0x2F06], Kind::Linear, Life::Active, b"", RULES)?;
    rules.head.record_len = 11;
    let rows = [
        make_row(alloc, &[], Kind::Master, Life::Active, b"", b"")?,
        rules,
        iccid,
        make_row(alloc, &[0x6F3A], ef, Life::Deactivated, b"", b"\x01")?,
        make_row(alloc, &[0x6F3B], ef, Life::Terminated, b"", b"\x02")?,
        make_row(
            alloc,
            &[0x7FD0],
            Kind::Application,
            Life::Active,
            USIM_NAME,
            b"",
        )?,
        imsi(alloc)?,
    ];
    let pin = PinRow {
        value: [0x31, 0x32, 0x33, 0x34, 0xFF, 0xFF, 0xFF, 0xFF],
        ..make_pin(1, 0x01)
    };
    let pins = [pin, make_pin(2, 0x0A)];
    Ok(Content {
        rows: LongList::from(Vec::from_array(alloc, rows)?),
        pins: LongList::from(Vec::from_array(alloc, pins)?),
    })
}

// A card with this content, with a fresh session.
fn start(alloc: Global, content: &Content) -> Result<Card1, NoMemory>
    requires { IsValid content.now }
    ensures { IfOk result (λ card. card_of card
        ≡ record {
          content = content.now;
          session = fresh_session false None;
          mode = A1;
          port = Some 1;
        }) }
{
    Card1::start(alloc, content, fresh(false, None), PORT_1_OF_A1)
}

#[test]
fn a_modem_finds_the_application(rt: HostRuntime) -> Result<(), Fail> {
    let content = content_with_application(rt.alloc())?;
    if !content.is_valid() {
        return Err(Fail::from("no card may hold this content"));
    }
    let mut card = start(rt.alloc(), &content)?;
    let rows: [Case; 17] = [
        (
            b"\x00\xA4\x00\x04\x02\x3F\x00\x00",
            MASTER_PARAMETERS,
            0x9000,
        ),
        (b"\x80\xAA\x00\x00\x05\xA9\x03\x83\x01\x07", b"", 0x9000),
        (b"\x80\xF2\x00\x01\x00", b"", 0x6A88),
        (
            b"\x00\xA4\x00\x04\x02\x2F\xE2\x00",
            ICCID_PARAMETERS,
            0x9000,
        ),
        (
            b"\x00\xB0\x00\x00\x0A",
            b"\x98\x94\x00\x00\x00\x00\x00\x00\x00\xF2",
            0x9000,
        ),
        (b"\x00\xA4\x00\x0C\x02\x6F\x3A", b"", 0x6283),
        (b"\x00\xB0\x00\x00\x01", b"", 0x6984),
        (b"\x00\xA4\x00\x0C\x02\x6F\x3B", b"", 0x6285),
        (b"\x00\xB0\x00\x00\x01", b"", 0x6985),
        (
            b"\x00\xA4\x04\x04\x10\xA0\x00\x00\x00\x87\x10\x02\xFF\xFF\xFF\xFF\x89\x00\x00\x01\
              \x00\x00",
            USIM_PARAMETERS,
            0x9000,
        ),
        (b"\x00\xB0\x87\x00\x09", b"", 0x6982),
        (b"\x00\x20\x00\x01\x081234\xFF\xFF\xFF\xFF", b"", 0x9000),
        (b"\x00\xB0\x87\x00\x09", IMSI, 0x9000),
        (b"\x80\xF2\x00\x00\x00", USIM_PARAMETERS, 0x9000),
        (
            b"\x80\xF2\x00\x01\x12",
            b"\x84\x10\xA0\x00\x00\x00\x87\x10\x02\xFF\xFF\xFF\xFF\x89\x00\x00\x01\x00",
            0x9000,
        ),
        (b"\x00\xA4\x08\x0C\x04\x7F\xFF\x6F\x07", b"", 0x9000),
        (b"\x80\xF2\x00\x0C", b"", 0x9000),
    ];
    assert_eq!(rt; first_other(&mut card, &rows)?, None);
    Ok(())
}

#[test]
fn a_blank_card_has_no_file(rt: HostRuntime) -> Result<(), Fail> {
    let mut card = blank(rt.alloc(), PORT_1_OF_B);
    let rows: [Case; 9] = [
        (b"\x00\xA4\x00\x0C\x02\x3F\x00", b"", 0x6A82),
        (b"\x80\xF2\x00\x00\x00", b"", 0x6A82),
        (b"\x80\xF2\x00\x01\x00", b"", 0x6A88),
        (b"\x80\xF2\x00\x0C", b"", 0x9000),
        (SELECT_ISDR, b"", 0x9000),
        (b"\x80\xF2\x00\x0C", b"", 0x6D00),
        (b"\x00\xB0\x00\x00\x00", b"", 0x6D00),
        (b"\x00\xA4\x00\x0C\x02\x3F\x00", b"", 0x6A82),
        (b"\x80\xF2\x00\x0C", b"", 0x6D00),
    ];
    assert_eq!(rt; first_other(&mut card, &rows)?, None);
    let mut other = blank(rt.alloc(), PORT_1_OF_A1);
    assert_eq!(rt; ask(&mut other, SELECT_ISDR)?.sw, Sw(0x6A82));
    Ok(())
}

fn blank(alloc: Global, place: Place) -> Card1 {
    Card1::blank(alloc, fresh(false, None), place)
}

// Carries out a change that fits the content of a card in its fresh session.
fn change(card: &mut Card1, content: &Content, change: Change) -> Result<(), Fail>
    requires valid { IsValid content.now }
    requires card { card_of card.old
        ≡ record {
          content = content.now;
          session = fresh_session false None;
          mode = A1;
          port = Some 1;
        } }
{
    if !content.fits(&change) {
        return Err(Fail::from("the change doesn't fit the content"));
    }
    let decided = Decided {
        answer: Answer::status(Sw::OK),
        session: SessionChange::none(),
        change: Some(change),
    };
    Ok(carry_out(card, &decided)?)
}

#[test]
fn memory_is_reserved_and_a_change_made(rt: HostRuntime) -> Result<(), Fail> {
    let content = content_with_application(rt.alloc())?;
    if !content.is_valid() {
        return Err(Fail::from("no card may hold this content"));
    }
    let mut card = start(rt.alloc(), &content)?;
    let write = Change::WriteRange {
        path: Path::from_slice(&[0x2FE2]),
        offset: 8,
        bytes: Piece::from_slice(&[0xAB, 0xCD]),
    };
    change(&mut card, &content, write)?;
    let rows: [Case; 2] = [
        (b"\x00\xA4\x00\x0C\x02\x2F\xE2", b"", 0x9000),
        (b"\x00\xB0\x00\x07\x00", b"\x00\xAB\xCD", 0x9000),
    ];
    assert_eq!(rt; first_other(&mut card, &rows)?, None);
    Ok(())
}

#[test]
fn the_laws_are_callable() {
    cards_stay_sound();
    commands_change_the_file_they_work_on();
    commands_have_one_run();
    commands_stay_on_their_channel();
    common_commands_are_unknown_to_the_card();
    events_have_one_outcome();
    no_command_fails_by_itself();
    refused_commands_change_nothing();
    the_table_of_instructions_has_their_classes();
    the_table_of_status_words_has_each();
    verification_ends_with_the_session();
}
