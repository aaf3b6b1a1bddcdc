//! What no clause says: where a SELECT by each way of naming leads on a card of three levels, on
//! one without files, the control parameters as a terminal sees them, and each call once.
ghost use Rattle.std.specs.Prelude.{◌≡◌};
ghost use Rattle.uicc_tree.specs.Change.{AreRows};
ghost use Rattle.uicc_tree.specs.Files.{rows_of};

mod sample;

use super::*;
use apdu_codec::{Answer, Class, Command, Sw, class_fits, ins};
use sample::{AID, blank_tree, pin, sample_tree};
use std::test::Fail;
use uicc_channels::{Decided, Session, fresh};
use uicc_tree::Tree;

// A command on channel 0, with the class of its instruction.
fn command(ins: u8, p1: u8, p2: u8, body: &[u8], le: Option<u16>) -> Command<'_>
    ensures { result.channel ≡ 0 }
{
    Command {
        channel: 0,
        class: if class_fits(ins, Class::Standard) {
            Class::Standard
        } else {
            Class::Special
        },
        ins,
        p1,
        p2,
        body,
        le,
    }
}

// The answer to a SELECT on an open channel of a card with two PINs. The session changes as it
// says.
fn select_on(
    tree: &Tree,
    session: &mut Session,
    isdr_here: bool,
    command: &Command,
) -> Result<Answer, Fail>
    requires { AreRows (rows_of tree.now) }
{
    session
        .channel_at(command.channel)
        .ok_or("an open channel")?;
    let pins = [pin(1, 0x01), pin(2, 0x0A)];
    let mut decided = Decided::new();
    select(tree, &pins, session, isdr_here, command, &mut decided);
    session.apply(&decided.session);
    Ok(decided.answer)
}

// The answer to a STATUS there.
fn status_on(tree: &Tree, session: &mut Session, command: &Command) -> Result<Answer, Fail>
    requires { AreRows (rows_of tree.now) }
{
    session
        .channel_at(command.channel)
        .ok_or("an open channel")?;
    let pins = [pin(1, 0x01), pin(2, 0x0A)];
    let mut decided = Decided::new();
    status(tree, &pins, session, command, &mut decided);
    session.apply(&decided.session);
    Ok(decided.answer)
}

// A SELECT by its P1 and body, its status word, and the current directory and EF after it; no EF
// has the empty path.
#[derive(Drop)]
struct Step {
    p1: u8,
    body: &'static [u8],
    sw: u16,
    dir: &'static [u16],
    file: &'static [u16],
}

const fn leads(
    p1: u8,
    body: &'static [u8],
    sw: u16,
    dir: &'static [u16],
    file: &'static [u16],
) -> Step {
    Step {
        p1,
        body,
        sw,
        dir,
        file,
    }
}

// Where the steps lead.
const ROOT: &[u16] = &[];

const TOP_FILE: &[u16] = &[0x2FE2];

const HOME: &[u16] = &[0x7F10];

const TWIN: &[u16] = &[0x7F10, 0x7F10];

const INNER: &[u16] = &[0x7F10, 0x5F3A];

const BESIDE: &[u16] = &[0x7F10, 0x5F3B];

const DEACTIVATED: &[u16] = &[0x7F10, 0x6F3A];

const INNER_FILE: &[u16] = &[0x7F10, 0x5F3A, 0x5F3A];

const TERMINATED: &[u16] = &[0x7F10, 0x5F3A, 0x6F3B];

const APP: &[u16] = &[0x7FD0];

const APP_FILE: &[u16] = &[0x7FD0, 0x6F07];

const APP_INNER: &[u16] = &[0x7FD0, 0x5F3A];

// By identifier, from the MF down to a directory of the second level.
fn steps_by_identifier() -> [Step; 16] {
    [
        leads(0x00, &[0x7F, 0xD0], 0x6A82, ROOT, &[]),
        leads(0x00, &[0x7F, 0xFF], 0x6A82, ROOT, &[]),
        leads(0x00, &[0x2F, 0xE2], 0x9000, ROOT, TOP_FILE),
        leads(0x00, &[0x3F, 0x00], 0x9000, ROOT, &[]),
        leads(0x00, &[0x7F, 0x10], 0x9000, HOME, &[]),
        // a child before the directory itself
        leads(0x00, &[0x7F, 0x10], 0x9000, TWIN, &[]),
        // the directory itself before its parent
        leads(0x00, &[0x7F, 0x10], 0x9000, TWIN, &[]),
        // a directory in the parent
        leads(0x00, &[0x5F, 0x3B], 0x9000, BESIDE, &[]),
        // the parent before a directory in it
        leads(0x00, &[0x7F, 0x10], 0x9000, HOME, &[]),
        leads(0x00, &[0x6F, 0x3A], 0x6283, HOME, DEACTIVATED),
        leads(0x00, &[0x5F, 0x3A], 0x9000, INNER, &[]),
        // an EF of the parent isn't found
        leads(0x00, &[0x6F, 0x3A], 0x6A82, INNER, &[]),
        // an EF in the directory before the directory itself
        leads(0x00, &[0x5F, 0x3A], 0x9000, INNER, INNER_FILE),
        leads(0x00, &[0x6F, 0x3B], 0x6285, INNER, TERMINATED),
        leads(0x00, &[0x2F, 0xE2], 0x6A82, INNER, TERMINATED),
        leads(0x00, &[0x3F, 0x00], 0x9000, ROOT, &[]),
    ]
}

// By the other ways without a name: a directory, the parent and paths.
fn steps_by_path() -> [Step; 14] {
    [
        leads(0x01, &[0x2F, 0xE2], 0x6A82, ROOT, &[]),
        leads(0x01, &[0x7F, 0xD0], 0x6A82, ROOT, &[]),
        leads(0x03, &[], 0x6A82, ROOT, &[]),
        leads(0x01, &[0x7F, 0x10], 0x9000, HOME, &[]),
        leads(0x09, &[0x5F, 0x3A, 0x6F, 0x3B], 0x6285, INNER, TERMINATED),
        leads(0x03, &[], 0x9000, HOME, &[]),
        leads(0x09, &[0x7F, 0x10], 0x9000, TWIN, &[]),
        leads(0x01, &[0x7F, 0x10], 0x6A82, TWIN, &[]),
        leads(
            0x08,
            &[0x7F, 0x10, 0x5F, 0x3A, 0x5F, 0x3A],
            0x9000,
            INNER,
            INNER_FILE,
        ),
        // no path goes through an EF
        leads(0x09, &[0x5F, 0x3A, 0x6F, 0x3B], 0x6A82, INNER, INNER_FILE),
        // nor does one name the MF
        leads(0x08, &[0x3F, 0x00, 0x7F, 0x10], 0x6A82, INNER, INNER_FILE),
        // nor an application
        leads(0x08, &[0x7F, 0xD0, 0x6F, 0x07], 0x6A82, INNER, INNER_FILE),
        leads(0x08, &[0x7F, 0xFF, 0x6F, 0x07], 0x6A82, INNER, INNER_FILE),
        leads(0x08, &[0x2F, 0xE2], 0x9000, ROOT, TOP_FILE),
    ]
}

// An application by the first bytes of its name, and from then on as the channel's.
fn steps_by_name() -> [Step; 12] {
    [
        leads(0x04, &[0xA0, 0x00, 0x00, 0x00, 0x63], 0x6A82, ROOT, &[]),
        leads(0x04, &AID, 0x9000, APP, &[]),
        leads(0x00, &[0x7F, 0xD0], 0x9000, APP, &[]),
        leads(0x00, &[0x6F, 0x07], 0x9000, APP, APP_FILE),
        leads(0x00, &[0x5F, 0x3A], 0x9000, APP_INNER, &[]),
        leads(0x00, &[0x7F, 0xD0], 0x9000, APP, &[]),
        leads(0x08, &[0x7F, 0x10], 0x9000, HOME, &[]),
        leads(0x00, &[0x7F, 0xFF], 0x9000, APP, &[]),
        leads(0x00, &[0x3F, 0x00], 0x9000, ROOT, &[]),
        leads(0x00, &[0x7F, 0xD0], 0x6A82, ROOT, &[]),
        leads(0x08, &[0x7F, 0xFF, 0x6F, 0x07], 0x9000, APP, APP_FILE),
        leads(0x04, &[0xA0, 0x00, 0x00, 0x00, 0x87], 0x9000, APP, &[]),
    ]
}

// Whether the channel stands there and nowhere else.
fn stands_at(session: &Session, dir: &[u16], file: &[u16]) -> bool {
    let Some(chan) = session.channel_at(0) else {
        return false;
    };
    let current: &[u16] = match &chan.file {
        None => &[],
        Some(path) => path.as_slice(),
    };
    chan.dir.as_slice() == dir && current == file
}

// Takes the steps from a fresh session on, each from where the one before led: the place of the
// first that leads elsewhere, or answers otherwise.
fn first_astray(tree: &Tree, steps: &[Step]) -> Result<Option<usize>, Fail>
    requires { AreRows (rows_of tree.now) }
{
    let mut session = fresh(false, None);
    for (place, step) in steps.iter().enumerate() {
        let select = command(ins::SELECT, step.p1, 0x0C, step.body, None);
        let answer = select_on(tree, &mut session, false, &select)?;
        if answer.sw != Sw(step.sw) || !stands_at(&session, step.dir, step.file) {
            return Ok(Some(place));
        }
    }
    Ok(None)
}

#[test]
fn the_first_of_the_places_is_found(rt: HostRuntime) -> Result<(), Fail> {
    let tree = sample_tree(rt.alloc())?;
    assert_eq!(rt; first_astray(&tree, &steps_by_identifier())?, None);
    assert_eq!(rt; first_astray(&tree, &steps_by_path())?, None);
    assert_eq!(rt; first_astray(&tree, &steps_by_name())?, None);
    Ok(())
}

#[test]
fn a_blank_card_has_nothing_but_the_isdr(rt: HostRuntime) -> Result<(), Fail> {
    let tree = blank_tree(rt.alloc());
    let mut session = fresh(false, None);
    let selects: [(u8, &[u8]); 9] = [
        (0x00, &[0x3F, 0x00]),
        (0x00, &[0x7F, 0xFF]),
        (0x00, &[0x2F, 0xE2]),
        (0x01, &[0x7F, 0x10]),
        (0x03, &[]),
        (0x04, &AID),
        (0x04, &ISDR_AID),
        (0x08, &[0x7F, 0x10]),
        (0x09, &[0x7F, 0x10]),
    ];
    for (p1, body) in &selects {
        let select = command(ins::SELECT, *p1, 0x04, body, Some(256));
        let answer = select_on(&tree, &mut session, false, &select)?;
        assert_eq!(rt; answer.sw, Sw(0x6A82), "{p1} {body:?}");
        assert!(rt; session == fresh(false, None));
    }
    for (p2, sw) in [(0x00, 0x6A82), (0x01, 0x6A88), (0x0C, 0x9000)] {
        let command = command(ins::STATUS, 0x00, p2, &[], Some(256));
        let answer = status_on(&tree, &mut session, &command)?;
        assert_eq!(rt; answer.sw, Sw(sw), "STATUS with P2 {p2}");
    }
    let isdr = command(ins::SELECT, 0x04, 0x04, &ISDR_AID, Some(256));
    let answer = select_on(&tree, &mut session, true, &isdr)?;
    assert_eq!(rt; answer.sw, Sw(0x9000));
    assert!(rt; answer.body.is_empty());
    assert!(rt; session == fresh(false, Some(0)));
    Ok(())
}

/// The control parameters of the MF.
const MASTER_PARAMETERS: [u8; 34] = [
    0x62, 0x20, 0x82, 0x02, 0x78, 0x21, 0x83, 0x02, 0x3F, 0x00, 0xA5, 0x03, 0x80, 0x01, 0x71, 0x8A,
    0x01, 0x05, 0x8B, 0x03, 0x2F, 0x06, 0x01, 0xC6, 0x09, 0x90, 0x01, 0xC0, 0x83, 0x01, 0x01, 0x83,
    0x01, 0x0A,
];

/// Those of 2FE2.
const FILE_PARAMETERS: [u8; 25] = [
    0x62, 0x17, 0x82, 0x02, 0x41, 0x21, 0x83, 0x02, 0x2F, 0xE2, 0x8A, 0x01, 0x05, 0x8B, 0x03, 0x2F,
    0x06, 0x01, 0x80, 0x02, 0x00, 0x0A, 0x88, 0x01, 0x10,
];

/// Those of the application.
const APPLICATION_PARAMETERS: [u8; 52] = [
    0x62, 0x32, 0x82, 0x02, 0x78, 0x21, 0x83, 0x02, 0x7F, 0xD0, 0x84, 0x10, 0xA0, 0x00, 0x00, 0x00,
    0x87, 0x10, 0x02, 0xFF, 0xFF, 0xFF, 0xFF, 0x89, 0x00, 0x00, 0x01, 0x00, 0xA5, 0x03, 0x80, 0x01,
    0x71, 0x8A, 0x01, 0x05, 0x8B, 0x03, 0x2F, 0x06, 0x01, 0xC6, 0x09, 0x90, 0x01, 0xC0, 0x83, 0x01,
    0x01, 0x83, 0x01, 0x0A,
];

#[test]
fn a_selected_file_has_its_control_parameters(rt: HostRuntime) -> Result<(), Fail> {
    let tree = sample_tree(rt.alloc())?;
    let mut session = fresh(false, None);
    let files: [(u8, &[u8], &[u8]); 3] = [
        (0x00, &[0x3F, 0x00], &MASTER_PARAMETERS),
        (0x00, &[0x2F, 0xE2], &FILE_PARAMETERS),
        (0x04, &AID, &APPLICATION_PARAMETERS),
    ];
    for (p1, body, parameters) in &files {
        for le in [256, parameters.len() as u16] {
            let select = command(ins::SELECT, *p1, 0x04, body, Some(le));
            let answer = select_on(&tree, &mut session, false, &select)?;
            assert_eq!(rt; answer.sw, Sw(0x9000));
            assert_eq!(rt; answer.body.as_slice(), *parameters);
        }
    }
    Ok(())
}

#[test]
fn control_parameters_are_delivered_by_le(rt: HostRuntime) -> Result<(), Fail> {
    let tree = sample_tree(rt.alloc())?;
    let mut session = fresh(false, None);
    let rows = [
        (None, 0x6122, 0),
        (Some(256), 0x9000, 34),
        (Some(34), 0x9000, 34),
        (Some(33), 0x6C22, 0),
        (Some(35), 0x6C22, 0),
    ];
    for (le, sw, count) in rows {
        let select = command(ins::SELECT, 0x00, 0x04, &[0x3F, 0x00], le);
        let status = command(ins::STATUS, 0x00, 0x00, &[], le);
        let answers = [
            select_on(&tree, &mut session, false, &select)?,
            status_on(&tree, &mut session, &status)?,
        ];
        for answer in &answers {
            assert_eq!(rt; answer.sw, Sw(sw), "Le {le:?}");
            assert_eq!(rt; answer.body.len(), count, "Le {le:?}");
        }
    }
    Ok(())
}

#[test]
fn a_deactivated_file_has_its_warning_with_its_parameters(rt: HostRuntime) -> Result<(), Fail> {
    let tree = sample_tree(rt.alloc())?;
    let mut session = fresh(false, None);
    let rows = [
        (None, 0x6116),
        (Some(256), 0x6283),
        (Some(22), 0x6283),
        (Some(1), 0x6C16),
    ];
    for (le, sw) in rows {
        let select = command(ins::SELECT, 0x08, 0x04, &[0x7F, 0x10, 0x6F, 0x3A], le);
        let answer = select_on(&tree, &mut session, false, &select)?;
        assert_eq!(rt; answer.sw, Sw(sw), "Le {le:?}");
    }
    Ok(())
}

// Whether channel 0 is open and these bytes wait there.
fn waits(session: &Session, bytes: &[u8]) -> bool {
    match session.channel_at(0) {
        None => false,
        Some(chan) => chan.pending.as_slice() == bytes,
    }
}

#[test]
fn what_waits_lasts_until_a_selection(rt: HostRuntime) -> Result<(), Fail> {
    let tree = sample_tree(rt.alloc())?;
    let mut session = fresh(false, None);
    let select = command(ins::SELECT, 0x00, 0x04, &[0x3F, 0x00], None);
    let _waiting = select_on(&tree, &mut session, false, &select)?;
    assert!(rt; waits(&session, &MASTER_PARAMETERS));
    let quiet = command(ins::STATUS, 0x00, 0x0C, &[], None);
    let _bare = status_on(&tree, &mut session, &quiet)?;
    assert!(rt; waits(&session, &MASTER_PARAMETERS));
    let absent = command(ins::SELECT, 0x00, 0x0C, &[0x2F, 0xFF], None);
    let _refused = select_on(&tree, &mut session, false, &absent)?;
    assert!(rt; waits(&session, &MASTER_PARAMETERS));
    let file = command(ins::SELECT, 0x00, 0x0C, &[0x2F, 0xE2], None);
    let _selected = select_on(&tree, &mut session, false, &file)?;
    assert!(rt; waits(&session, &[]));
    Ok(())
}

#[test]
fn status_has_the_parameters_of_the_directory_and_the_name(rt: HostRuntime) -> Result<(), Fail> {
    let tree = sample_tree(rt.alloc())?;
    let mut session = fresh(false, None);
    let select = command(ins::SELECT, 0x04, 0x00, &AID, None);
    let selected = select_on(&tree, &mut session, false, &select)?;
    assert_eq!(rt; selected.sw, Sw(0x9000));
    let rows: [(u8, u8, u16, &[u8]); 2] = [
        (0x00, 0x00, 256, &APPLICATION_PARAMETERS),
        (0x01, 0x01, 18, &APPLICATION_PARAMETERS[10..28]),
    ];
    for (p1, p2, le, body) in &rows {
        let status = command(ins::STATUS, *p1, *p2, &[], Some(*le));
        let answer = status_on(&tree, &mut session, &status)?;
        assert_eq!(rt; answer.sw, Sw(0x9000));
        assert_eq!(rt; answer.body.as_slice(), *body);
        assert!(rt; stands_at(&session, APP, &[]));
    }
    Ok(())
}

#[test]
fn a_command_of_another_form_is_refused(rt: HostRuntime) -> Result<(), Fail> {
    let tree = sample_tree(rt.alloc())?;
    let mut session = fresh(false, None);
    let selects: [(u8, u8, &[u8], u16); 10] = [
        (0x02, 0x0C, &[0x2F, 0xE2], 0x6A86),
        (0x00, 0x01, &[0x2F, 0xE2], 0x6A86),
        (0x00, 0x0C, &[0x2F], 0x6700),
        (0x00, 0x0C, &[0x7F, 0x10, 0x5F, 0x3A], 0x6700),
        (0x03, 0x0C, &[0x3F, 0x00], 0x6700),
        (0x04, 0x0C, &[0xA0, 0x00, 0x00, 0x00], 0x6700),
        (0x04, 0x0C, &[0xA0; 17], 0x6700),
        (0x08, 0x0C, &[], 0x6700),
        (0x08, 0x0C, &[0x7F, 0x10, 0x5F], 0x6700),
        (0x09, 0x0C, &[0x7F; 10], 0x6700),
    ];
    for (p1, p2, body, sw) in &selects {
        let select = command(ins::SELECT, *p1, *p2, body, None);
        let answer = select_on(&tree, &mut session, false, &select)?;
        assert_eq!(rt; answer.sw, Sw(*sw), "{p1} {p2} {body:?}");
    }
    let statuses: [(u8, u8, &[u8], u16); 3] = [
        (0x03, 0x0C, &[], 0x6A86),
        (0x00, 0x02, &[], 0x6A86),
        (0x00, 0x0C, &[0x00], 0x6700),
    ];
    for (p1, p2, body, sw) in &statuses {
        let status = command(ins::STATUS, *p1, *p2, body, None);
        let answer = status_on(&tree, &mut session, &status)?;
        assert_eq!(rt; answer.sw, Sw(*sw), "{p1} {p2} {body:?}");
    }
    Ok(())
}

#[test]
fn a_command_of_another_class_is_refused(rt: HostRuntime) -> Result<(), Fail> {
    let tree = sample_tree(rt.alloc())?;
    let mut session = fresh(false, None);
    let mut select = command(ins::SELECT, 0x00, 0x0C, &[0x2F, 0xE2], None);
    select.class = Class::Special;
    assert_eq!(rt;
        select_on(&tree, &mut session, false, &select)?.sw,
        Sw(0x6E00)
    );
    let mut status = command(ins::STATUS, 0x00, 0x0C, &[], None);
    status.class = Class::Standard;
    assert_eq!(rt; status_on(&tree, &mut session, &status)?.sw, Sw(0x6E00));
    Ok(())
}
