//! What no clause says: the worked rows of the commands on data, each command's refusals in their
//! order, and each call once.
ghost use Rattle.std.specs.Prelude.{List, OnOk, IsTrue};
ghost use Rattle.file_rows.specs.Content.{IsValid};
ghost use Rattle.file_rows.specs.declared.pin.PinRow.{PinRow};
ghost use Rattle.uicc_channels.specs.CommandOutcome.{outcome_of};
ghost use Rattle.uicc_channels.specs.Session.{Suits};
ghost use Rattle.uicc_channels.specs.CarriesOut.{CanCarryOut, IsOfCard};
ghost use Rattle.uicc_data.specs.Data.{IsOnData};
ghost use Rattle.uicc_tree.specs.Files.{rows_of};

mod sample;

use super::*;
use apdu_codec::{Answer, Sw, read_command};
use file_rows::{Mode, NoMemory};
use sample::sample_tree;
use std::alloc::Global;
use std::test::Fail;
use uicc_channels::{Decided, Guard, Session, fresh};
use uicc_tree::Tree;

// Access rules that allow everything, or nothing.
struct Allows(bool);

impl Guard for Allows {
    ghost use Rattle.std.specs.Prelude.{⊤};

    ghost knows = { λ guard node. ⊤ };

    ghost answer = { λ guard node mode session. guard.0 };

    fn allows(&self, _node: u32, _mode: Mode, _session: &Session) -> bool {
        self.0
    }
}

// Carries out what was decided.
fn carry_out(tree: &mut Tree, session: &mut Session, decided: &Decided) -> Result<(), NoMemory>
    requires { (pins : List PinRow) × CanCarryOut (record { rows = rows_of tree.old; pins = pins })
        (outcome_of session.old decided.now)
        × IsValid (record { rows = rows_of tree.old; pins = pins }) }
    ensures { OnOk result (IsOfCard (rows_of tree.new) session.new) }
{
    if let Some(change) = &decided.change {
        tree.reserve(change)?;
        tree.apply(change);
        session.apply(&decided.session);
        return Ok(());
    }
    session.apply(&decided.session);
    Ok(())
}

fn is_on_data(ins: u8) -> bool
    ensures { IsTrue result → IsOnData ins }
{
    matches!(ins, 0xB0 | 0xD6 | 0xB2 | 0xDC | 0xA2 | 0x32)
}

// The answer to a command, which is carried out.
fn ask(tree: &mut Tree, guard: &Allows, session: &mut Session, bytes: &[u8]) -> Result<Answer, Fail>
    requires { IsOfCard (rows_of tree.old) session.old }
    ensures { OnOk result (IsOfCard (rows_of tree.new) session.new) }
{
    let command = read_command(bytes).map_err(|_| Fail::from("a command"))?;
    session
        .channel_at(command.channel)
        .ok_or("an open channel")?;
    let mut decided = Decided::new();
    if !is_on_data(command.ins) {
        return Err(Fail::from("a command on data"));
    }
    data_command(tree, guard, session, &command, &mut decided);
    carry_out(tree, session, &decided)?;
    Ok(decided.answer)
}

// A command, and the answer to it: its body and its status word.
type Case = (&'static [u8], &'static [u8], u16);

// Whether the card gives these answers, one after another; if not, the number of the first that it
// doesn't give.
fn first_other(
    tree: &mut Tree,
    guard: &Allows,
    session: &mut Session,
    cases: &[Case],
) -> Result<Option<usize>, Fail>
    requires { IsOfCard (rows_of tree.old) session.old }
    ensures { OnOk result (IsOfCard (rows_of tree.new) session.new) }
{
    for (index, (bytes, body, sw)) in cases.iter().enumerate() {
        let answer = ask(tree, guard, session, bytes)?;
        if answer.body.as_slice() != *body || answer.sw != Sw(*sw) {
            return Ok(Some(index));
        }
    }
    Ok(None)
}

// The same on the card of the tests, from a fresh session on.
fn first_other_of(alloc: Global, guard: &Allows, cases: &[Case]) -> Result<Option<usize>, Fail> {
    let mut tree = sample_tree(alloc)?;
    let mut session = fresh(false, None);
    first_other(&mut tree, guard, &mut session, cases)
}

#[test]
fn binary_commands_answer_by_offset_and_sfi(rt: HostRuntime) -> Result<(), Fail> {
    let cases: [Case; 12] = [
        (b"\x00\xB0\x00\x00\x01", b"", 0x6986),
        (b"\x00\xB0\x81\xFF\x02", b"\xFF\x00", 0x9000),
        (b"\x00\xB0\x01\x2B\x01", b"\x2B", 0x9000),
        (b"\x00\xB0\x01\x2C\x01", b"", 0x6B00),
        (b"\x00\xB0\x01\x2A\x00", b"\x2A\x2B", 0x9000),
        (b"\x00\xB0\x01\x00\x2D", b"", 0x6C2C),
        (b"\x00\xD6\x01\x2B\x01\x65", b"", 0x9000),
        (b"\x00\xD6\x01\x2B\x02\x66\x66", b"", 0x6700),
        (b"\x00\xD6\x01\x2C\x01\x66", b"", 0x6B00),
        (b"\x00\xD6\x81\x00\x02\x67\x68", b"", 0x9000),
        (b"\x00\xB0\x01\x2A\x00", b"\x2A\x65", 0x9000),
        (b"\x00\xB0\x00\x00\x03", b"\x67\x68\x02", 0x9000),
    ];
    assert_eq!(rt; first_other_of(rt.alloc(), &Allows(true), &cases)?, None);
    Ok(())
}

#[test]
fn a_linear_file_ends_at_its_last_record(rt: HostRuntime) -> Result<(), Fail> {
    let cases: [Case; 17] = [
        (b"\x00\xB2\x00\x14\x00", b"", 0x6A83),
        (b"\x00\xB2\x00\x12\x00", b"aa", 0x9000),
        (b"\x00\xB2\x00\x02\x02", b"bb", 0x9000),
        (b"\x00\xB2\x00\x02\x03", b"", 0x6C02),
        (b"\x00\xB2\x00\x04\x00", b"bb", 0x9000),
        (b"\x00\xB2\x00\x02\x00", b"ba", 0x9000),
        (b"\x00\xB2\x00\x02\x00", b"", 0x6A83),
        (b"\x00\xB2\x01\x04\x00", b"aa", 0x9000),
        (b"\x00\xB2\x00\x04\x00", b"ba", 0x9000),
        (b"\x00\xB2\x00\x03\x00", b"bb", 0x9000),
        (b"\x00\xB2\x04\x04\x00", b"", 0x6A83),
        (b"\x00\xDC\x04\x04\x01\x63", b"", 0x6A83),
        (b"\x00\xDC\x01\x04\x01\x63", b"", 0x6700),
        (b"\x00\xDC\x00\x02\x02cc", b"", 0x9000),
        (b"\x00\xB2\x00\x04\x00", b"cc", 0x9000),
        (b"\x00\xB2\x00\x13\x00", b"cc", 0x9000),
        (b"\x00\xDC\x00\x12\x02dd", b"", 0x9000),
    ];
    assert_eq!(rt; first_other_of(rt.alloc(), &Allows(true), &cases)?, None);
    Ok(())
}

#[test]
fn a_cyclic_file_goes_round_and_takes_new_records(rt: HostRuntime) -> Result<(), Fail> {
    let cases: [Case; 10] = [
        (b"\x00\xB2\x00\x1B\x00", b"\x00\x00\x00", 0x9000),
        (b"\x00\xB2\x00\x02\x00", b"\x00\x00\x0A", 0x9000),
        (b"\x00\xB2\x00\x03\x00", b"\x00\x00\x00", 0x9000),
        (b"\x00\xDC\x00\x02\x03\x01\x02\x03", b"", 0x6981),
        (b"\x00\xDC\x01\x04\x03\x01\x02\x03", b"", 0x6981),
        (b"\x00\xDC\x00\x03\x02\x01\x02", b"", 0x6700),
        (b"\x00\xDC\x00\x03\x03\x01\x02\x03", b"", 0x9000),
        (b"\x00\xB2\x00\x04\x00", b"\x01\x02\x03", 0x9000),
        (b"\x00\xB2\x00\x02\x00", b"\x00\x00\x0A", 0x9000),
        (b"\x00\xB2\x00\x02\x00", b"\x01\x02\x03", 0x9000),
    ];
    assert_eq!(rt; first_other_of(rt.alloc(), &Allows(true), &cases)?, None);
    Ok(())
}

#[test]
fn increase_adds_to_the_newest_record(rt: HostRuntime) -> Result<(), Fail> {
    let cases: [Case; 9] = [
        (b"\x80\x32\x83\x00\x01\x00\x00", b"\x00\x00\x0A\x00", 0x9000),
        (b"\x80\x32\x00\x00\x01\x05\x00", b"\x00\x00\x0F\x05", 0x9000),
        (b"\x00\xB2\x01\x04\x00", b"\x00\x00\x0F", 0x9000),
        (b"\x00\xB2\x02\x04\x00", b"\x00\x00\x0A", 0x9000),
        (
            b"\x80\x32\x00\x00\x03\x01\x00\xF2\x06",
            b"\x01\x01\x01\x01\x00\xF2",
            0x9000,
        ),
        (b"\x80\x32\x00\x00\x01\x05\x03", b"", 0x6C04),
        (b"\x80\x32\x00\x00\x04\x00\x00\x00\x01\x00", b"", 0x6700),
        (b"\x80\x32\x84\x00\x01\x02\x00", b"", 0x9850),
        (b"\x80\x32\x84\x00\x01\x01\x00", b"\xFF\xFF\xFF\x01", 0x9000),
    ];
    assert_eq!(rt; first_other_of(rt.alloc(), &Allows(true), &cases)?, None);
    Ok(())
}

#[test]
fn search_lists_the_records_in_the_order_of_its_walk(rt: HostRuntime) -> Result<(), Fail> {
    let cases: [Case; 11] = [
        (b"\x00\xA2\x01\x14\x01a\x00", b"\x01\x03", 0x9000),
        (b"\x00\xB2\x00\x04\x00", b"aa", 0x9000),
        (b"\x00\xA2\x00\x15\x01b\x00", b"\x03\x02", 0x9000),
        (b"\x00\xB2\x00\x04\x00", b"ba", 0x9000),
        (b"\x00\xA2\x00\x04\x01b\x00", b"\x03", 0x9000),
        (b"\x00\xA2\x00\x05\x01b\x02", b"\x03\x02", 0x9000),
        (b"\x00\xA2\x00\x05\x01b\x01", b"", 0x6C02),
        (b"\x00\xA2\x01\x04\x02ab\x00", b"", 0x6282),
        (b"\x00\xA2\x01\x04\x03aaa\x00", b"", 0x6282),
        (b"\x00\xA2\x04\x04\x01a\x00", b"", 0x6A83),
        (b"\x00\xA2\x01\x04\x01a", b"", 0x6102),
    ];
    assert_eq!(rt; first_other_of(rt.alloc(), &Allows(true), &cases)?, None);
    Ok(())
}

// The refusals of each command in their order, from a command that is wrong in all respects on:
// each next one mends the first.
fn refusals() -> [Case; 47] {
    [
        (b"\x80\xB0\xA0\x00", b"", 0x6E00),
        (b"\x00\xB0\xA0\x00", b"", 0x6A86),
        (b"\x00\xB0\x80\x00", b"", 0x6A86),
        (b"\x00\xB0\x9F\x00", b"", 0x6A86),
        (b"\x00\xB0\x88\x00", b"", 0x6700),
        (b"\x00\xB0\x88\x00\x01\x00\x00", b"", 0x6700),
        (b"\x00\xB0\x00\x00\x00", b"", 0x6986),
        (b"\x00\xB0\x88\x00\x00", b"", 0x6A82),
        (b"\x00\xB0\x86\x00\x00", b"", 0x6981),
        (b"\x00\xB0\x85\x00\x00", b"", 0x6984),
        (b"\x80\xD6\xA0\x00", b"", 0x6E00),
        (b"\x00\xD6\xA0\x00", b"", 0x6A86),
        (b"\x00\xD6\x88\x00\x00", b"", 0x6700),
        (b"\x00\xD6\x00\x00\x01\x00", b"", 0x6986),
        (b"\x00\xD6\x88\x00\x01\x00", b"", 0x6A82),
        (b"\x00\xD6\x86\x00\x01\x00", b"", 0x6981),
        (b"\x00\xD6\x85\x00\x01\x00", b"", 0x6984),
        (b"\x80\xB2\x00\x01", b"", 0x6E00),
        (b"\x00\xB2\x00\x01", b"", 0x6A86),
        (b"\x00\xB2\x00\x05", b"", 0x6A86),
        (b"\x00\xB2\x00\xFA", b"", 0x6A86),
        (b"\x00\xB2\x00\x02", b"", 0x6700),
        (b"\x00\xB2\x00\x02\x01\x00\x00", b"", 0x6700),
        (b"\x00\xB2\x00\x02\x00", b"", 0x6986),
        (b"\x00\xB2\x00\x42\x00", b"", 0x6A82),
        (b"\x00\xB2\x00\x2A\x00", b"", 0x6981),
        (b"\x00\xB2\x00\x32\x00", b"", 0x6985),
        (b"\x00\xB2\x00\x3A\x00", b"", 0x6984),
        (b"\x80\xDC\x00\x05", b"", 0x6E00),
        (b"\x00\xDC\x00\x05", b"", 0x6A86),
        (b"\x00\xDC\x00\x02\x00", b"", 0x6700),
        (b"\x00\xDC\x00\x02\x01\x00", b"", 0x6986),
        (b"\x00\xDC\x00\x42\x01\x00", b"", 0x6A82),
        (b"\x00\xDC\x00\x3A\x01\x00", b"", 0x6981),
        (b"\x00\xDC\x00\x3B\x01\x00", b"", 0x6984),
        (b"\x80\xA2\x00\x02", b"", 0x6E00),
        (b"\x00\xA2\x00\x02", b"", 0x6A86),
        (b"\x00\xA2\x00\x04\x00", b"", 0x6700),
        (b"\x00\xA2\x00\x04\x01\x00", b"", 0x6986),
        (b"\x00\xA2\x00\x2C\x01\x00", b"", 0x6981),
        (b"\x00\xA2\x00\x34\x01\x00", b"", 0x6985),
        (b"\x00\x32\x80\x00", b"", 0x6E00),
        (b"\x80\x32\x80\x00", b"", 0x6A86),
        (b"\x80\x32\x83\x01", b"", 0x6A86),
        (b"\x80\x32\x83\x00\x00", b"", 0x6700),
        (b"\x80\x32\x82\x00\x01\x00", b"", 0x6981),
        (b"\x80\x32\x87\x00\x01\x00", b"", 0x6984),
    ]
}

// What access rules refuse comes before what a command alone asks.
fn refusals_of_access() -> [Case; 6] {
    [
        (b"\x00\xB0\x81\x00\x00", b"", 0x6982),
        (b"\x00\xD6\x81\x00\x01\x00", b"", 0x6982),
        (b"\x00\xB2\x09\x14\x00", b"", 0x6982),
        (b"\x00\xDC\x09\x14\x01\x00", b"", 0x6982),
        (b"\x00\xA2\x09\x14\x01\x00", b"", 0x6982),
        (
            b"\x80\x32\x84\x00\x09\x00\x00\x00\x00\x00\x00\x00\x00\x00",
            b"",
            0x6982,
        ),
    ]
}

#[test]
fn each_refusal_comes_in_its_order(rt: HostRuntime) -> Result<(), Fail> {
    let refusals = refusals();
    assert_eq!(rt; first_other_of(rt.alloc(), &Allows(true), &refusals)?, None);
    assert_eq!(rt;
        first_other_of(rt.alloc(), &Allows(false), &refusals)?,
        None
    );
    assert_eq!(rt;
        first_other_of(rt.alloc(), &Allows(false), &refusals_of_access())?,
        None
    );
    Ok(())
}
