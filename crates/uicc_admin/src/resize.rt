ghost use Rattle.std.specs.Prelude.{◌≡◌, ◌<◌, ◌^◌, ◌/◌, ◌%◌, ◌==◌, ◌&&◌, ℕ, Bool, List, Some, None};
ghost use Rattle.std.specs.Prelude.{IsTrue, MatchResult};
ghost use Rattle.apdu_codec.specs.Class.{is_within};
ghost use Rattle.apdu_codec.specs.Command.{IsCommand, apdu_of};
ghost use Rattle.file_rows.specs.declared.mode.Mode.{Mode};
ghost use Rattle.uicc_channels.specs.CommandOutcome.{outcome_of};
ghost use Rattle.uicc_channels.specs.CommandRow.{Follows, decided};
ghost use Rattle.uicc_channels.specs.Session.{IsOpen};
ghost use Rattle.uicc_tree.specs.Access.{AnswersFor};
ghost use Rattle.uicc_tree.specs.Files.{IsLive, file_of, rows_of};
ghost use Rattle.uicc_admin.specs.NamedFile.{ef_in};
ghost use Rattle.uicc_admin.specs.Resize.{is_within_quota, may_have_size, new_end, resize_row};
ghost use Rattle.uicc_admin.specs.Resize.{size_asked, size_refusal};

use crate::named_file::{find_ef, has_no_parameters};
use crate::template::read_template;
use apdu_codec::{Command, Sw, class_fits};
use file_rows::{Change, FileHead, Kind, Mode, Path, QUOTA};
use uicc_channels::{Decided, Guard, NewEnd, Session, conclude, require, require_active};
use uicc_tree::Tree;

/// What RESIZE FILE asks for: an EF of the current directory, and its size afterwards.
#[derive(Clone, Copy, Debug, PartialEq, Eq)]
pub struct NewSize {
    pub id: u16,
    pub size: u32,
}

// What a body asks for, where it is a template that says both.
fn size_asked(body: &[u8]) -> Option<NewSize>
    ensures { result ≡ size_asked body.now }
{
    let fcp = read_template(body)?;
    Some(NewSize {
        id: fcp.id?,
        size: fcp.size?,
    })
}

// An EF of a directory.
fn find_in(tree: &Tree, directory: &Path, id: u16) -> Result<u32, Sw>
    ensures { MatchResult result
        (λ node. IsLive tree.now node
        × (ef_in (rows_of tree.now) directory.now id ≡ Some (file_of tree.now node)))
        (λ sw. (ef_in (rows_of tree.now) directory.now id ≡ None) × (sw ≡ Sw.FILE_NOT_FOUND)) }
{
    find_ef(tree, directory, id).ok_or(Sw::FILE_NOT_FOUND)
}

// Whether so many bytes are 1 to 254 records of this length.
fn are_records(size: u32, record_len: u8) -> bool
    ensures said { result ≡ ((size % record_len == 0) && is_within 1 254 (size / record_len)) }
    ensures small { IsTrue result → size < 2 ^ 16 }
{
    let length = u32::from(record_len);
    length != 0 && size % length == 0 && matches!(size / length, 1..=254)
}

// Whether a file may have this size.
fn may_have_size(head: &FileHead, size: u32) -> bool
    ensures said { result ≡ may_have_size head.now size }
    ensures small { IsTrue result → size < 2 ^ 16 }
{
    match head.kind {
        Kind::Transparent => matches!(size, 1..=65_504),
        _ => are_records(size, head.record_len),
    }
}

// Whether the quota has room for this size in place of the file's.
fn is_within_quota(tree: &Tree, head: &FileHead, size: u16) -> bool
    ensures { result ≡ is_within_quota (rows_of tree.now) head.now size }
{
    let before = head.size;
    tree.used() + u32::from(size) <= QUOTA + u32::from(before)
}

// The size, where the file can have it.
fn fitting_size(tree: &Tree, head: &FileHead, size: u32) -> Result<u16, Sw>
    ensures { MatchResult result
        (λ fitting. (fitting ≡ size) × IsTrue (may_have_size head.now size)
        × (size_refusal (rows_of tree.now) head.now size ≡ None))
        (λ sw. size_refusal (rows_of tree.now) head.now size ≡ Some sw) }
{
    if !may_have_size(head, size) {
        return Err(Sw::WRONG_DATA);
    }
    let size = size as u16;
    if !is_within_quota(tree, head, size) {
        return Err(Sw::NOT_ENOUGH_SPACE);
    }
    Ok(size)
}

// The new end of a file of records.
fn new_end(head: &FileHead, size: u16) -> Option<NewEnd>
    requires { IsTrue (may_have_size head.now size) }
    ensures { result ≡ new_end head.now size }
{
    match head.kind {
        Kind::Linear => Some(NewEnd {
            path: head.path.copy(),
            records: (size / u16::from(head.record_len)) as u8,
        }),
        _ => None,
    }
}

/// RESIZE FILE (ETSI TS 102 222): an EF of the current directory has another size. New bytes are
/// FF.
///
/// The body is a template `62` with the file's identifier in `83` and its new size in `80`. P1 or
/// P2 other than 00 is `6A86`, no body `6700`, and a body that is no such template `6A80`. No EF of
/// that identifier is `6A82`, a cyclic one `6981`, a deactivated one `6984` and a terminated one
/// `6985`; where the access rules don't allow the instruction the answer is `6982`. A size that
/// isn't 1 to 65,504 bytes, or 1 to 254 whole records, is `6A80`, and one for which the quota has
/// no room `6A84`. No channel keeps a record pointer past the new end. It takes no memory; to carry
/// it out does.
pub fn resize_file<G: Guard>(
    tree: &Tree,
    guard: &G,
    session: &Session,
    command: &Command,
    into: &mut Decided,
)
    requires spelled { IsCommand command.now }
    requires open { IsOpen session.now command.now.channel }
    requires knows { (node : ℕ) → IsLive tree.now node → G.knows guard.now node }
    ensures { (allowed : List ℕ → Mode → Bool)
        → AnswersFor tree.now (λ node mode. G.answer guard.now node mode session.now) allowed
        → outcome_of session.now into.new ≡ decided session.now
        (resize_row (rows_of tree.now) allowed session.now (apdu_of command.now)) }
{
    let outcome = try_resize(tree, guard, session, command, into);
    conclude(into, outcome);
}

fn try_resize<G: Guard>(
    tree: &Tree,
    guard: &G,
    session: &Session,
    command: &Command,
    into: &mut Decided,
) -> Result<(), Sw>
    requires spelled { IsCommand command.now }
    requires open { IsOpen session.now command.now.channel }
    requires knows { (node : ℕ) → IsLive tree.now node → G.knows guard.now node }
    ensures { (allowed : List ℕ → Mode → Bool)
        → AnswersFor tree.now (λ node mode. G.answer guard.now node mode session.now) allowed
        → Follows session.now
        (resize_row (rows_of tree.now) allowed session.now (apdu_of command.now))
        into.new result }
{
    require(class_fits(command.ins, command.class), Sw::WRONG_CLASS)?;
    require(has_no_parameters(command), Sw::WRONG_P1_P2)?;
    require(!command.body.is_empty(), Sw::WRONG_LENGTH)?;
    let Some(asked) = size_asked(command.body) else {
        return Err(Sw::WRONG_DATA);
    };
    let chan = session.open_channel(command.channel);
    let node = find_in(tree, &chan.dir, asked.id)?;
    let head = tree.head(node);
    require(!head.kind.is_cyclic(), Sw::INCOMPATIBLE_STRUCTURE)?;
    require_active(head.life)?;
    let allowed = guard.allows(node, Mode::Ins(0xD4), session);
    require(allowed, Sw::SECURITY_NOT_SATISFIED)?;
    let size = fitting_size(tree, head, asked.size)?;
    into.set_status(Sw::OK);
    into.session.new_end = new_end(head, size);
    into.change = Some(Change::FileSize {
        path: head.path.copy(),
        size,
    });
    Ok(())
}
