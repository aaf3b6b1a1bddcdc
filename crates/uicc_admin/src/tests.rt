//! What no clause says: each command's refusals in their order, and each call once.
ghost use Rattle.std.specs.Prelude.{IsTrue};
ghost use Rattle.uicc_channels.specs.CarriesOut.{IsOfCard};
ghost use Rattle.uicc_admin.specs.Administration.{IsAdministration};
ghost use Rattle.uicc_tree.specs.Files.{rows_of};

mod sample;

use super::*;
use apdu_codec::read_command;
use file_rows::{Change, Life, Mode, Path};
use sample::{sample_tree, session_of};
use std::alloc::Global;
use std::test::Fail;
use uicc_channels::{Decided, Guard, Session};
use uicc_tree::Tree;

// Access rules that allow everything, or nothing.
#[derive(Drop)]
struct Allows(bool);

impl Guard for Allows {
    ghost use Rattle.std.specs.Prelude.{⊤};

    ghost knows = { λ guard node. ⊤ };

    ghost answer = { λ guard node mode session. guard.0 };

    fn allows(&self, _node: u32, _mode: Mode, _session: &Session) -> bool {
        self.0
    }
}

fn is_administration(ins: u8) -> bool
    ensures { IsTrue result → IsAdministration ins }
{
    matches!(ins, 0xE0 | 0xE4 | 0xD4 | 0x44 | 0x04 | 0xE8)
}

// What is decided on a command.
fn decide(tree: &Tree, guard: &Allows, session: &Session, bytes: &[u8]) -> Result<Decided, Fail>
    requires { IsOfCard (rows_of tree.now) session.now }
{
    let command = read_command(bytes).map_err(|_| Fail::from("a command"))?;
    session
        .channel_at(command.channel)
        .ok_or("an open channel")?;
    let mut decided = Decided::new();
    if !is_administration(command.ins) {
        return Err(Fail::from("a command of administration"));
    }
    admin_command(tree, guard, session, &command, &mut decided);
    Ok(decided)
}

// A command, and the status word with which it is answered.
type Case = (&'static [u8], u16);

// Whether these commands are answered so while channel 1 stands at the directory 7F10; if not, the
// number of the first that isn't.
fn first_other(alloc: Global, guard: &Allows, cases: &[Case]) -> Result<Option<usize>, Fail> {
    let tree = sample_tree(alloc)?;
    let session = session_of(&tree, 1)?;
    for (index, (bytes, sw)) in cases.iter().enumerate() {
        let decided = decide(&tree, guard, &session, bytes)?;
        if decided.answer.sw.0 != *sw {
            return Ok(Some(index));
        }
    }
    Ok(None)
}

// What a command changes while channel 0 stands at the directory 7F10.
fn change_by(alloc: Global, bytes: &[u8]) -> Result<Option<Change>, Fail> {
    let tree = sample_tree(alloc)?;
    let session = session_of(&tree, 0)?;
    Ok(decide(&tree, &Allows(true), &session, bytes)?.change)
}

fn refusals() -> [Case; 40] {
    [
        (b"\x80\x44\x01\x00\x01\x00", 0x6E00),
        (b"\x00\x44\x01\x00\x01\x00", 0x6A86),
        (b"\x00\x44\x00\x01\x01\x00", 0x6A86),
        (b"\x00\x44\x00\x00\x01\x00", 0x6700),
        (b"\x00\x44\x00\x00", 0x6986),
        (b"\x00\x44\x00\x00\x02\x2F\x09", 0x6A82),
        (b"\x00\x44\x00\x00\x02\x7F\x10", 0x6A82),
        (b"\x00\x44\x00\x00\x02\x2F\x06", 0x6985),
        (b"\x80\x04\x01\x00", 0x6E00),
        (b"\x00\x04\x01\x00", 0x6A86),
        (b"\x00\x04\x00\x00\x02\x2F\x06", 0x6985),
        (b"\x80\xE8\x01\x00", 0x6E00),
        (b"\x00\xE8\x00\x00\x02\x2F\x06", 0x6985),
        (b"\x80\xE4\x01\x00", 0x6E00),
        (b"\x00\xE4\x01\x00", 0x6A86),
        (b"\x00\xE4\x00\x00", 0x6700),
        (b"\x00\xE4\x00\x00\x03\x2F\x01\x00", 0x6700),
        (b"\x00\xE4\x00\x00\x02\x2F\x09", 0x6A82),
        (b"\x00\xE4\x00\x00\x02\x3F\x00", 0x6A82),
        (b"\x00\xE4\x00\x00\x02\x7F\xD0", 0x6A82),
        (b"\x00\xE4\x00\x00\x02\x2F\x05", 0x6984),
        (b"\x00\xE4\x00\x00\x02\x2F\x06", 0x6985),
        (b"\x00\xD4\x01\x00", 0x6E00),
        (b"\x80\xD4\x01\x00", 0x6A86),
        (b"\x80\xD4\x00\x00", 0x6700),
        (b"\x80\xD4\x00\x00\x02\x62\x00", 0x6A80),
        (b"\x80\xD4\x00\x00\x02\x63\x00", 0x6A80),
        (b"\x80\xD4\x00\x00\x06\x62\x04\x83\x02\x2F\x09", 0x6A80),
        (b"\x80\xD4\x00\x00\x05\x62\x03\x80\x01\x05", 0x6A80),
        (
            b"\x80\xD4\x00\x00\x0A\x62\x07\x83\x02\x2F\x02\x80\x01\x04\x00",
            0x6A80,
        ),
        (
            b"\x80\xD4\x00\x00\x09\x62\x07\x83\x02\x2F\x09\x80\x01\x05",
            0x6A82,
        ),
        (
            b"\x80\xD4\x00\x00\x09\x62\x07\x83\x02\x7F\x10\x80\x01\x05",
            0x6A82,
        ),
        (
            b"\x80\xD4\x00\x00\x09\x62\x07\x83\x02\x2F\x03\x80\x01\x05",
            0x6981,
        ),
        (
            b"\x80\xD4\x00\x00\x09\x62\x07\x83\x02\x2F\x05\x80\x01\x00",
            0x6984,
        ),
        (
            b"\x80\xD4\x00\x00\x09\x62\x07\x83\x02\x2F\x06\x80\x01\x00",
            0x6985,
        ),
        (b"\x80\xD4\x00\x00\x02\x62\x80", 0x6A80),
        (b"\x80\xE0\x01\x00", 0x6E00),
        (b"\x00\xE0\x01\x00", 0x6A86),
        (b"\x00\xE0\x00\x00", 0x6700),
        (b"\x00\xE0\x00\x00\x02\x62\x00", 0x6A80),
    ]
}

// What access rules refuse comes before what a command alone asks.
fn refusals_of_access() -> [Case; 4] {
    [
        (b"\x00\x44\x00\x00\x02\x2F\x01", 0x6982),
        (b"\x00\xE4\x00\x00\x02\x7F\x10", 0x6982),
        (
            b"\x80\xD4\x00\x00\x09\x62\x07\x83\x02\x2F\x02\x80\x01\x05",
            0x6982,
        ),
        (b"\x00\xE0\x00\x00\x06\x62\x04\x82\x02\x41\x21", 0x6982),
    ]
}

// What a command alone refuses, and what it takes.
fn own_answers() -> [Case; 9] {
    [
        (b"\x00\xE4\x00\x00\x02\x7F\x10", 0x6985),
        (b"\x00\xE4\x00\x00\x02\x2F\x02", 0x9000),
        (
            b"\x80\xD4\x00\x00\x09\x62\x07\x83\x02\x2F\x02\x80\x01\x05",
            0x6A80,
        ),
        (
            b"\x80\xD4\x00\x00\x09\x62\x07\x83\x02\x2F\x02\x80\x01\x00",
            0x6A80,
        ),
        (
            b"\x80\xD4\x00\x00\x0A\x62\x08\x83\x02\x2F\x01\x80\x02\xFF\xE1",
            0x6A80,
        ),
        (
            b"\x80\xD4\x00\x00\x0A\x62\x08\x83\x02\x2F\x01\x80\x02\xFF\xE0",
            0x6A84,
        ),
        (
            b"\x80\xD4\x00\x00\x0B\x62\x09\x80\x03\x01\x00\x00\x83\x02\x2F\x01",
            0x6A80,
        ),
        (
            b"\x80\xD4\x00\x00\x09\x62\x07\x80\x01\x04\x83\x02\x2F\x02",
            0x9000,
        ),
        (b"\x00\x44\x00\x00\x02\x2F\x01\x00", 0x9000),
    ]
}

// What CREATE FILE alone refuses in the MF, and what it takes.
fn creations() -> [Case; 8] {
    [
        (b"\x00\xE0\x00\x00\x06\x62\x04\x82\x02\x41\x21", 0x6A80),
        (
            b"\x00\xE0\x00\x00\x0E\x62\x0C\x82\x02\x41\x21\x83\x02\x2F\x01\x80\x02\xFF\xE1",
            0x6A80,
        ),
        (
            b"\x00\xE0\x00\x00\x0E\x62\x0C\x82\x02\x41\x21\x83\x02\x2F\x01\x80\x02\xFF\xE0",
            0x6A89,
        ),
        (
            b"\x00\xE0\x00\x00\x0A\x62\x08\x82\x02\x78\x21\x83\x02\x7F\xD0",
            0x6A89,
        ),
        (
            b"\x00\xE0\x00\x00\x11\x62\x0F\x82\x02\x78\x21\x83\x02\x7F\xD1\x84\x05names",
            0x6A8A,
        ),
        (
            b"\x00\xE0\x00\x00\x0E\x62\x0C\x82\x02\x41\x21\x83\x02\x2F\x09\x80\x02\xFF\xE0",
            0x6A84,
        ),
        (
            b"\x00\xE0\x00\x00\x0D\x62\x0B\x82\x02\x41\x21\x83\x02\x2F\x09\x80\x01\x05",
            0x9000,
        ),
        (
            b"\x00\xE0\x00\x00\x11\x62\x0F\x82\x02\x78\x21\x83\x02\x7F\xD1\x84\x05other",
            0x9000,
        ),
    ]
}

#[test]
fn each_refusal_comes_in_its_order(rt: HostRuntime) -> Result<(), Fail> {
    let refusals = refusals();
    assert_eq!(rt; first_other(rt.alloc(), &Allows(true), &refusals)?, None);
    assert_eq!(rt; first_other(rt.alloc(), &Allows(false), &refusals)?, None);
    assert_eq!(rt;
        first_other(rt.alloc(), &Allows(false), &refusals_of_access())?,
        None
    );
    assert_eq!(rt;
        first_other(rt.alloc(), &Allows(true), &own_answers())?,
        None
    );
    assert_eq!(rt; first_other(rt.alloc(), &Allows(true), &creations())?, None);
    Ok(())
}

// A change of a file in the directory 7F10.
fn to_state(id: u16, life: Life) -> Option<Change> {
    Some(Change::FileState {
        path: Path::from_slice(&[0x7F10, id]),
        life,
    })
}

#[test]
fn states_change_as_asked(rt: HostRuntime) -> Result<(), Fail> {
    let deactivated = change_by(rt.alloc(), b"\x00\x04\x00\x00\x02\x6F\x08")?;
    assert!(rt; deactivated == to_state(0x6F08, Life::Deactivated));
    let active = change_by(rt.alloc(), b"\x00\x44\x00\x00\x02\x6F\x08")?;
    assert!(rt; active.is_none());
    let activated = change_by(rt.alloc(), b"\x00\x44\x00\x00\x02\x6F\x09")?;
    assert!(rt; activated == to_state(0x6F09, Life::Active));
    let terminated = change_by(rt.alloc(), b"\x00\xE8\x00\x00\x02\x6F\x09")?;
    assert!(rt; terminated == to_state(0x6F09, Life::Terminated));
    Ok(())
}

#[test]
fn files_go_and_grow(rt: HostRuntime) -> Result<(), Fail> {
    let tree = sample_tree(rt.alloc())?;
    let session = session_of(&tree, 0)?;
    let guard = Allows(true);
    let gone = decide(&tree, &guard, &session, b"\x00\xE4\x00\x00\x02\x7F\x10")?;
    let path = Path::from_slice(&[0x7F10]);
    assert!(rt; gone.change == Some(Change::FileGone { path }));
    let after = gone.session.own.ok_or("a channel")?;
    let chan = after.after.ok_or("an open channel")?;
    assert!(rt; chan.dir.is_empty() && chan.file.is_none());

    let grown = decide(
        &tree,
        &guard,
        &session,
        b"\x80\xD4\x00\x00\x09\x62\x07\x83\x02\x6F\x08\x80\x01\x04",
    )?;
    let path = Path::from_slice(&[0x7F10, 0x6F08]);
    assert!(rt; grown.change == Some(Change::FileSize { path, size: 4 }));
    let end = grown.session.new_end.ok_or("a new end")?;
    assert_eq!(rt; end.records, 2);
    Ok(())
}

#[test]
fn a_new_file_becomes_current(rt: HostRuntime) -> Result<(), Fail> {
    let tree = sample_tree(rt.alloc())?;
    let session = session_of(&tree, 0)?;
    let Decided {
        answer: _,
        session: moved,
        change,
    } = decide(
        &tree,
        &Allows(true),
        &session,
        b"\x00\xE0\x00\x00\x0D\x62\x0B\x82\x02\x41\x21\x83\x02\x6F\x0A\x80\x01\x05",
    )?;
    let Some(Change::FileAdd { head }) = change else {
        return Err(Fail::from("a new file"));
    };
    assert_eq!(rt; head.size, 5);
    assert_eq!(rt; head.sfi, 0x0A);
    let after = moved.own.ok_or("a channel")?;
    let chan = after.after.ok_or("an open channel")?;
    assert!(rt; chan.file == Some(Path::from_slice(&[0x7F10, 0x6F0A])));
    assert!(rt; chan.dir == Path::from_slice(&[0x7F10]));
    Ok(())
}
