//! A section with each public call of its book, over a store in memory.
ghost use Rattle.std.specs.Prelude.{◌≡◌, ◌+◌, ◌∷◌, ℕ, [], None, length};
ghost use Rattle.card_book.specs.History.{shared_of};
ghost use Rattle.card_book.specs.SectionName.{SameStore};

use super::*;
use card_journal::{BankStore, CardStore, CommitFault};
use file_rows::Content;
use flash_pages::{FlashPlan, MemoryFlash};
use isdr_commands::Moves;
use plain_lists::LongList;
use port_table::PortMode;
use record_codec::{BoxedProfile, Label, Profile, ProfileHead, Provider, Record, Targets, is_held};
use std::alloc::{AllocError, Global};
use std::marker::Brand;
use std::test::*;

const NEW: u16 = 1100;

// The only lane of a card with one port, which has made one statement.
#[derive(Drop)]
struct OneLane<N: SectionName> {
    pass: Pass<N>,
    next: [u32; 8],
    turn: u32,
}

impl<N: SectionName> Marks<N> for OneLane<N> {
    ghost passes = { λ lane. lane.pass ∷ [] };

    ghost next = { λ lane. lane.next };

    ghost marked = { λ old port history new. new.turn ≡ length (shared_of history) };

    fn mark(&mut self, _port: u8, pen: &mut Pen<N>) {
        self.turn = pen.mark(&mut self.pass);
    }
}

// What the calls of a section answered.
#[derive(Debug, Drop)]
struct Answers {
    first: Result<Receipt, BookFault>,
    second: Result<Receipt, BookFault>,
    unfit: Result<Receipt, BookFault>,
    turn: u32,
    commits: u64,
    files: Option<usize>,
}

fn commit_through<N: SectionName, K: Keeper<N>>(
    keeper: &mut K,
    pass: &mut Pass<N>,
    entry: &Record,
) -> Result<Receipt, BookFault>
    requires { K.has_room keeper.old pass.old 1 }
    ensures room { (more : ℕ) → K.has_room keeper.old pass.old (more + 1)
        → K.has_room keeper.new pass.new more }
    ensures port { pass.new.port ≡ pass.old.port }
{
    keeper.commit(pass, entry)
}

fn files_of<St: CardStore, N: SectionName>(book: &mut Book<St, N>) -> Option<usize>
    ensures { book.new ≡ book.old }
{
    if !is_held(NEW, book.heads().profiles.as_slice()) {
        return None;
    }
    match book.load_content(NEW) {
        Ok(content) => Some(content.rows.len()),
        Err(_) => None,
    }
}

// A section in which a profile is installed twice, one is taken from its port that isn't held, and
// all lanes mark a statement and the end of a phase.
fn section<St: CardStore + Drop, N: SectionName>(
    alloc: Global,
    store: St,
    entry: &Record,
) -> Option<Answers>
    requires open { St.is_open store }
    requires repaired { (St.state store).unrepaired ≡ None }
    requires named { SameStore N.begun (St.state store) }
{
    let Ok(
        Begun {
            mut book,
            mut passes,
        },
    ) = Book::<St, N>::begin(alloc, store)
    else {
        return None;
    };
    let pass = passes.pop()?;
    let mut lane = OneLane {
        pass,
        next: [2, 0, 0, 0, 0, 0, 0, 0],
        turn: 0,
    };
    let shared = Shared {
        port: 0,
        number: 1,
        busy: [false; 8],
        moves: Moves::new(),
    };
    let first = commit_through::<N, Book<St, N>>(&mut book, &mut lane.pass, entry);
    if lane.pass.port() != 0 || book.heads().ports.count != 1 {
        return None;
    }
    book.share(&shared, &mut lane);
    let next = lane.next;
    book.end_phase(&next, &mut lane);
    let second = commit_through::<N, Book<St, N>>(&mut book, &mut lane.pass, entry);
    let gone = Record::Unbind { profile: 1105 };
    let unfit = commit_through::<N, Book<St, N>>(&mut book, &mut lane.pass, &gone);
    let commits = book.commits();
    let files = files_of(&mut book);
    let _store = book.close();
    Some(Answers {
        first,
        second,
        unfit,
        turn: lane.turn,
        commits,
        files,
    })
}

fn installation(alloc: Global) -> Result<Record, AllocError> {
    let profile = Profile {
        head: ProfileHead {
            number: NEW,
            iccid: [0x98, 0x94, 0, 0, 0, 0, 0, 0, 0, 0xF1],
            provider: Provider::new(),
            name: Label::new(),
            nickname: Label::new(),
            class: 2,
            policy: 0,
            targets: Targets::new(),
        },
        content: Content {
            rows: LongList::new(alloc),
            pins: LongList::new(alloc),
        },
    };
    Ok(Record::PutProfile {
        installation: true,
        profile: BoxedProfile::new(alloc, profile)?,
        port: None,
    })
}

// A new card with one port, over a flash in memory, and a section there. Of its program calls these
// fail.
fn answers_over(alloc: Global, fail: Vec<u64>) -> Result<Option<Answers>, AllocError> {
    let plan = FlashPlan {
        fail,
        fail_reads: Vec::new(alloc),
        cut: None,
        torn: Vec::new(alloc),
        kept: 0,
    };
    let flash = MemoryFlash::new(alloc, plan)?;
    let entry = installation(alloc)?;
    match BankStore::make(alloc, flash, PortMode::B, 1, [0x89; 16]) {
        Ok(store) => Ok(section::<BankStore<MemoryFlash>, Brand>(alloc, store, &entry)),
        Err(_) => Ok(None),
    }
}

#[test]
fn a_section_has_its_commits_in_order(rt: HostRuntime) -> Result<(), Fail> {
    let answers = answers_over(rt.alloc(), Vec::new(rt.alloc()))?.expect(&rt, "a section");
    assert_eq!(rt; answers.first, Ok(Receipt { number: 1 }));
    assert_eq!(rt; answers.second, Err(BookFault::Unfit));
    assert_eq!(rt; answers.unfit, Err(BookFault::Unfit));
    assert_eq!(rt; answers.turn, 1);
    assert_eq!(rt; answers.commits, 1);
    assert_eq!(rt; answers.files, Some(0));
    Ok(())
}

#[test]
fn a_failed_commit_has_its_counts_and_the_next_one_is_made(rt: HostRuntime) -> Result<(), Fail> {
    let fail = Vec::from_slice(rt.alloc(), &[3])?;
    let answers = answers_over(rt.alloc(), fail)?.expect(&rt, "a section");
    let fault = CommitFault::Flash {
        before: 0,
        after: 1,
    };
    assert_eq!(rt; answers.first, Err(BookFault::Store(fault)));
    assert_eq!(rt; answers.second, Ok(Receipt { number: 1 }));
    assert_eq!(rt; answers.commits, 1);
    assert_eq!(rt; answers.files, Some(0));
    Ok(())
}
