ghost use Rattle.std.specs.Prelude.{◌≡◌, ◌+◌, ◌-◌, ◌<◌, ◌≤◌, ◌==◌, cond, ℕ, Bool, List, [], ◌∷◌};
ghost use Rattle.std.specs.Prelude.{◌++◌, length, nat_eq, Some, None, IsTrue, MatchResult};
ghost use Rattle.std.specs.List.{starts_with};
ghost use Rattle.apdu_codec.specs.Command.{IsCommand, apdu_of};
ghost use Rattle.file_rows.specs.FileHead.{HasRecord, has_records};
ghost use Rattle.file_rows.specs.declared.mode.Mode.{Mode};
ghost use Rattle.uicc_channels.specs.CommandOutcome.{outcome_of};
ghost use Rattle.uicc_channels.specs.CommandRow.{Follows, decided};
ghost use Rattle.uicc_channels.specs.Session.{IsOpen, Suits, open_channel};
ghost use Rattle.uicc_tree.specs.Change.{AreRows};
ghost use Rattle.uicc_tree.specs.Files.{IsLive, file_of, rows_of};
ghost use Rattle.uicc_tree.specs.Access.{AnswersFor};
ghost use Rattle.uicc_data.specs.FileReference.{pointer_at, using};
ghost use Rattle.uicc_data.specs.FileUse.{FollowsUse};
ghost use Rattle.uicc_data.specs.Record.{FollowsRecordUse};
ghost use Rattle.uicc_data.specs.RecordWalk.{IsPointerIn, record_bytes, record_count};
ghost use Rattle.uicc_data.specs.Search.{after_steps, direction_of, first_one, found_from};
ghost use Rattle.uicc_data.specs.Search.{giving_numbers, holds_run, records_left, search_place};
ghost use Rattle.uicc_data.specs.Search.{search_record_row, search_start, searching};

use crate::delivery::deliver_on;
use crate::reference::{FileReference, find_file, pointer_at};
use crate::usage::{require_named, require_usable};
use crate::walk::{RecordName, find_record, numbered, record_bytes, record_count, record_file};
use apdu_codec::{Command, Sw};
use file_rows::{Mode, Path};
use plain_lists::ShortList;
use uicc_channels::{Decided, Guard, Session, conclude, has_body, require_le};
use uicc_tree::Tree;

/// Which way SEARCH RECORD goes over the records.
#[derive(Clone, Copy, Debug, PartialEq, Eq)]
pub enum Direction {
    Forwards,
    Backwards,
}

/// What P1 and P2 of SEARCH RECORD name: a file, which way it is searched, and the number of the
/// record with which the search begins, or 0 for the one at the record pointer.
#[derive(Clone, Copy, Debug, PartialEq, Eq)]
pub struct SearchPlace {
    pub file: FileReference,
    pub direction: Direction,
    pub from: u8,
}

/// The numbers of records, of which a file has at most 254.
type Numbers = ShortList<u8, 254>;

fn direction_of(p2: u8) -> Option<Direction>
    ensures { result ≡ direction_of p2 }
{
    match p2 % 8 {
        4 => Some(Direction::Forwards),
        5 => Some(Direction::Backwards),
        _ => None,
    }
}

fn search_place(p1: u8, p2: u8) -> Option<SearchPlace>
    ensures { result ≡ search_place p1 p2 }
{
    let file = record_file(p2)?;
    let direction = direction_of(p2)?;
    Some(SearchPlace {
        file,
        direction,
        from: p1,
    })
}

// The first record of a file in a direction, as it is named without a record pointer.
fn first_one(direction: Direction) -> RecordName
    ensures { result ≡ first_one direction }
{
    match direction {
        Direction::Forwards => RecordName::Next,
        Direction::Backwards => RecordName::Previous,
    }
}

// Where a search begins.
fn search_start(place: SearchPlace, pointer: u8) -> RecordName
    ensures { result ≡ search_start place pointer }
{
    if place.from == 0 && pointer == 0 {
        first_one(place.direction)
    } else {
        numbered(place.from)
    }
}

// Whether bytes begin with these others. Most don't begin with the same byte, so that this one is
// looked at first.
#[inline]
fn begins_with(bytes: &[u8], run: &[u8]) -> bool
    requires bytes { 1 ≤ length bytes.now }
    requires run { 1 ≤ length run.now }
    ensures { result ≡ starts_with nat_eq bytes.now run.now }
{
    run[0] == bytes[0] && bytes.starts_with(run)
}

// Whether bytes hold these others, of which there are some, as a run.
fn holds_run(bytes: &[u8], run: &[u8]) -> bool
    requires { 1 ≤ length run.now }
    ensures { result ≡ holds_run run.now bytes.now }
{
    for start in 0..bytes.len() {
        if begins_with(&bytes[start..], run) {
            return true;
        }
    }
    false
}

// How many records there are from one on to the end of a file of so many.
fn records_left(direction: Direction, count: u8, number: u8) -> u8
    requires some { 1 ≤ number }
    requires there { number ≤ count }
    ensures value { result ≡ records_left direction count number }
    ensures most { result ≤ count }
{
    match direction {
        Direction::Forwards => count - number + 1,
        Direction::Backwards => number,
    }
}

// The number so many records further, where there are so many left.
fn after_steps(direction: Direction, count: u8, number: u8, steps: u8) -> u8
    requires some { 1 ≤ number }
    requires there { number ≤ count }
    requires few { count ≤ 254 }
    requires left { steps < records_left direction count number }
    ensures value { result ≡ after_steps direction number steps }
    ensures first { 1 ≤ result }
    ensures last { result ≤ count }
{
    match direction {
        Direction::Forwards => number + steps,
        Direction::Backwards => number - steps,
    }
}

// Appends a number where its record holds what is looked for.
fn push_if(numbers: &mut Numbers, holds: bool, number: u8)
    requires { length numbers.old < 254 }
    ensures { numbers.new ≡ numbers.old ++ cond holds (number ∷ []) [] }
{
    if holds {
        numbers.push(number);
    }
}

// The records from one on to the end of a file that hold these bytes as a run. It reads each of
// them once.
fn find_from(tree: &Tree, node: u32, direction: Direction, number: u8, run: &[u8]) -> Numbers
    requires files { AreRows (rows_of tree.now) }
    requires live { IsLive tree.now node }
    requires kind { IsTrue (has_records (file_of tree.now node).head.kind) }
    requires there { HasRecord (file_of tree.now node).head number }
    requires some { 1 ≤ length run.now }
    ensures { result ≡ found_from (file_of tree.now node) run.now direction number }
{
    let count = record_count(tree, node);
    let left = records_left(direction, count, number);
    let mut found = Numbers::new();
    for steps in 0..left {
        let at = after_steps(direction, count, number, steps);
        let holds = holds_run(record_bytes(tree, node, at), run);
        push_if(&mut found, holds, at);
    }
    found
}

// Gives the numbers of the records that were found, and leaves the channel on the first.
fn give_numbers(
    session: &Session,
    command: &Command,
    path: &Path,
    numbers: &[u8],
    into: &mut Decided,
) -> Result<(), Sw>
    requires open { IsOpen session.now command.now.channel }
    requires most { length numbers.now ≤ 254 }
    ensures { FollowsRecordUse session.now
        (giving_numbers session.now (apdu_of command.now) path.now numbers.now) into.new result }
{
    let Some(first) = numbers.first() else {
        return Err(Sw::NOT_FOUND_IN_RECORDS);
    };
    require_le(command.le, numbers)?;
    deliver_on(session, command, path, *first, numbers, into);
    Ok(())
}

// SEARCH RECORD on a file with records.
fn search_named(
    tree: &Tree,
    node: u32,
    session: &Session,
    command: &Command,
    place: SearchPlace,
    into: &mut Decided,
) -> Result<(), Sw>
    requires files { AreRows (rows_of tree.now) }
    requires live { IsLive tree.now node }
    requires kind { IsTrue (has_records (file_of tree.now node).head.kind) }
    requires some { 1 ≤ length command.now.body.now }
    requires open { IsOpen session.now command.now.channel }
    requires pointer { IsPointerIn (file_of tree.now node).head
        (pointer_at (open_channel session.now command.now.channel) place.file) }
    ensures { FollowsUse session.now
        (searching session.now (apdu_of command.now) place (file_of tree.now node))
        into.new result }
{
    let pointer = pointer_at(session.open_channel(command.channel), place.file);
    let Some(number) = find_record(tree, node, pointer, search_start(place, pointer)) else {
        return Err(Sw::RECORD_NOT_FOUND);
    };
    let numbers = find_from(tree, node, place.direction, number, command.body);
    give_numbers(
        session,
        command,
        &tree.head(node).path,
        numbers.as_slice(),
        into,
    )?;
    Ok(())
}

/// SEARCH RECORD (ETSI TS 102 221), the simple search: the numbers of the records that hold the
/// body as a run of bytes, from one record on to the end of the file, forwards or backwards.
///
/// No body is `6700`; the file is found and refused as by READ RECORD; a number above the count is
/// `6A83`, and no record found `6282`, with which nothing changes. The numbers are delivered by
/// their count and Le, in the order of the search, and the record pointer is then at the first. It
/// looks at each record once, and takes no memory.
pub fn search_record<G: Guard>(
    tree: &Tree,
    guard: &G,
    session: &Session,
    command: &Command,
    into: &mut Decided,
)
    requires files { AreRows (rows_of tree.now) }
    requires spelled { IsCommand command.now }
    requires open { IsOpen session.now command.now.channel }
    requires suits { Suits session.now (rows_of tree.now) }
    requires knows { (node : ℕ) → IsLive tree.now node → G.knows guard.now node }
    ensures { (allowed : List ℕ → Mode → Bool)
        → AnswersFor tree.now (λ node mode. G.answer guard.now node mode session.now) allowed
        → outcome_of session.now into.new ≡ decided session.now
        (search_record_row (rows_of tree.now) allowed session.now (apdu_of command.now)) }
{
    let outcome = try_search_record(tree, guard, session, command, into);
    conclude(into, outcome);
}

fn try_search_record<G: Guard>(
    tree: &Tree,
    guard: &G,
    session: &Session,
    command: &Command,
    into: &mut Decided,
) -> Result<(), Sw>
    requires files { AreRows (rows_of tree.now) }
    requires spelled { IsCommand command.now }
    requires open { IsOpen session.now command.now.channel }
    requires suits { Suits session.now (rows_of tree.now) }
    requires knows { (node : ℕ) → IsLive tree.now node → G.knows guard.now node }
    ensures { (allowed : List ℕ → Mode → Bool)
        → AnswersFor tree.now (λ node mode. G.answer guard.now node mode session.now) allowed
        → Follows session.now
        (search_record_row (rows_of tree.now) allowed session.now (apdu_of command.now))
        into.new result }
{
    let named = search_place(command.p1, command.p2);
    let place = require_named(command, named, has_body(command))?;
    let chan = session.open_channel(command.channel);
    let node = find_file(tree, chan, place.file)?;
    let kind = tree.head(node).kind.has_records();
    require_usable(tree, guard, session, node, kind, Mode::Bit(0x01))?;
    search_named(tree, node, session, command, place, into)?;
    Ok(())
}
