//! A package, part by part.
ghost use Rattle.std.specs.Prelude.{◌≡◌, ◌+◌, ◌++◌, Err, IfOk, Result};
ghost use Rattle.profile_install.specs.declared.fault.ElementFault.{ElementFault};
ghost use Rattle.profile_install.specs.declared.state.State.{State};
ghost use Rattle.package_reader.specs.ReaderState.{opens};
ghost use Rattle.profile_install.specs.ElementResult.{ComesTo};
ghost use Rattle.profile_install.specs.Package.{after_part, broken, closed, content_at_end};
ghost use Rattle.profile_install.specs.Package.{content_of_draft, fresh_work, gathering, going};
ghost use Rattle.profile_install.specs.Package.{headed, heading, IsOutcome, is_element_due};
ghost use Rattle.profile_install.specs.Package.{is_gathering, is_head, constructed_begins};
ghost use Rattle.profile_install.specs.Package.{package_outcome, place_after, progress_after};
ghost use Rattle.profile_install.specs.Package.{refused_at, step_settled, valued};
ghost use Rattle.profile_install.specs.Package.{element_with_fault};

use crate::state::{Awaited, Spot, State};
use crate::{Draft, ElementFault, StepFault};
use file_rows::{Content, NoMemory};
use package_reader::Part;
use plain_lists::LongList;
use std::alloc::Global;
use thiserror::Error;

/// An element with a fault.
#[derive(Clone, Copy)]
pub struct Faulty {
    /// Its first fault.
    pub fault: ElementFault,
    /// How many TLVs of it are open.
    pub depth: u32,
}

/// How far a package has come.
#[derive(Drop)]
pub enum Progress {
    Going(State),
    /// An element with a fault goes on to its end: one that isn't whole is malformed before all
    /// else.
    Broken(Faulty),
    Refused(ElementFault),
}

/// A package, as far as its parts have come.
#[derive(Drop)]
pub struct Work {
    /// How many elements have begun.
    pub place: u32,
    pub progress: Progress,
}

/// The first faulty element of a package.
#[derive(Clone, Copy, Debug, PartialEq, Eq, Error)]
#[error("element {place} of the package is refused with result {result}")]
pub struct Refusal {
    /// Its place, from 1.
    pub place: u32,
    /// `ElementFault::result`.
    pub result: u8,
}

// One more. A package has fewer parts than a `u32` counts.
fn next(count: u32) -> Result<u32, NoMemory>
    ensures { IfOk result (λ more. more ≡ count + 1) }
{
    count.checked_add(1).ok_or(NoMemory)
}

fn element_with_fault(fault: ElementFault, depth: u32) -> Progress
    ensures { result ≡ element_with_fault fault depth }
{
    if depth == 0 {
        Progress::Refused(fault)
    } else {
        Progress::Broken(Faulty { fault, depth })
    }
}

// What comes of a step.
fn settle(step: Result<State, StepFault>, depth: u32) -> Result<Progress, NoMemory>
    ensures { IfOk result (λ progress. (meant : Result State ElementFault) → ComesTo step meant
        → progress ≡ step_settled meant depth) }
{
    match step {
        Ok(state) => Ok(Progress::Going(state)),
        Err(StepFault::Refused(fault)) => Ok(element_with_fault(fault, depth)),
        Err(StepFault::OutOfMemory) => Err(NoMemory),
    }
}

// Whether a TLV is constructed.
fn is_constructed(head: &[u8]) -> bool
    ensures { result ≡ opens head.now }
{
    match head {
        [] => false,
        [first, ..] => *first / 32 % 2 == 1,
    }
}

fn is_gathering(spot: Spot) -> bool
    ensures { result ≡ is_gathering spot }
{
    matches!(spot, Spot::Descriptor(_) | Spot::NewFile)
}

fn extended(list: LongList<u8>, bytes: &[u8]) -> Result<LongList<u8>, NoMemory>
    ensures { IfOk result (λ more. more ≡ list ++ bytes.now) }
{
    let mut its = Vec::from(list);
    its.extend_from_slice(bytes)?;
    Ok(LongList::from(its))
}

impl State {
    // The bytes of a descriptor, or of a new file's control parameters, are read at their end.
    fn gathering(self, bytes: &[u8]) -> Result<State, NoMemory>
        ensures { IfOk result (λ state. state ≡ gathering self bytes.now) }
    {
        if !is_gathering(self.spot) {
            return Ok(self);
        }
        let gathered = extended(self.gathered, bytes)?;
        Ok(State { gathered, ..self })
    }

    fn constructed_begins(self, tag: u32) -> Result<Progress, NoMemory>
        ensures { IfOk result (λ progress. progress ≡ constructed_begins self tag) }
    {
        if self.passed >= 1 {
            let passed = next(self.passed)?;
            return Ok(Progress::Going(State { passed, ..self }));
        }
        let depth = self.spot.depth() + 1;
        settle(self.opened(tag), depth)
    }

    fn heading(self, iccid: &[u8; 10], tag: u32, length: u32) -> Result<Progress, NoMemory>
        ensures { IfOk result (λ progress. progress ≡ heading iccid.now self tag length) }
    {
        if self.passed >= 1 {
            return Ok(Progress::Going(self));
        }
        let depth = self.spot.depth();
        if length == 0 || depth == 0 {
            return settle(self.valued(iccid, tag, &[]), depth);
        }
        let awaited = Some(Awaited { tag, length });
        Ok(Progress::Going(State { awaited, ..self }))
    }

    fn headed(
        self,
        iccid: &[u8; 10],
        tag: u32,
        length: u32,
        head: &[u8],
    ) -> Result<Progress, NoMemory>
        ensures { IfOk result (λ progress.
            progress ≡ headed iccid.now self tag length (opens head.now)) }
    {
        if is_constructed(head) {
            self.constructed_begins(tag)
        } else {
            self.heading(iccid, tag, length)
        }
    }

    fn with_value(
        self,
        iccid: &[u8; 10],
        bytes: &[u8],
        awaited: Option<Awaited>,
    ) -> Result<Progress, NoMemory>
        ensures { IfOk result (λ progress. progress ≡ valued iccid.now self bytes.now awaited) }
    {
        match awaited {
            Some(awaited) if awaited.length as usize == bytes.len() => {
                let depth = self.spot.depth();
                let state = State {
                    awaited: None,
                    ..self
                };
                settle(state.valued(iccid, awaited.tag, bytes), depth)
            }
            _ => Ok(Progress::Going(self)),
        }
    }

    fn ending(self) -> Result<Progress, NoMemory>
        ensures { IfOk result (λ progress. progress ≡ closed self) }
    {
        if self.passed >= 1 {
            let passed = self.passed - 1;
            return Ok(Progress::Going(State { passed, ..self }));
        }
        let depth = self.spot.depth().saturating_sub(1);
        settle(self.closed(), depth)
    }

    fn going(self, iccid: &[u8; 10], part: Part, bytes: &[u8]) -> Result<Progress, NoMemory>
        ensures { IfOk result (λ progress. progress ≡ going iccid.now self part bytes.now) }
    {
        match part {
            Part::Head { tag, length, .. } => {
                let state = self.gathering(bytes)?;
                state.headed(iccid, tag, length, bytes)
            }
            Part::Bytes(_) => {
                let awaited = self.awaited;
                let state = self.gathering(bytes)?;
                state.with_value(iccid, bytes, awaited)
            }
            Part::Close => self.ending(),
            Part::More | Part::Bad { .. } => Ok(Progress::Going(self)),
        }
    }
}

impl Faulty {
    fn after(self, part: Part, bytes: &[u8]) -> Result<Progress, NoMemory>
        ensures { IfOk result (λ progress. progress ≡ broken self part bytes.now) }
    {
        match part {
            Part::Head { .. } if is_constructed(bytes) => {
                let depth = next(self.depth)?;
                Ok(Progress::Broken(Faulty { depth, ..self }))
            }
            Part::Close => Ok(element_with_fault(self.fault, self.depth.saturating_sub(1))),
            _ => Ok(Progress::Broken(self)),
        }
    }
}

impl Progress {
    fn after(self, iccid: &[u8; 10], part: Part, bytes: &[u8]) -> Result<Progress, NoMemory>
        ensures { IfOk result (λ progress.
            progress ≡ progress_after iccid.now self part bytes.now) }
    {
        match self {
            Progress::Going(state) => state.going(iccid, part, bytes),
            Progress::Broken(faulty) => faulty.after(part, bytes),
            Progress::Refused(fault) => Ok(Progress::Refused(fault)),
        }
    }

    fn is_element_due(&self) -> bool
        ensures { result ≡ is_element_due self.now }
    {
        match self {
            Progress::Going(state) => state.spot.depth() == 0 && state.passed == 0,
            Progress::Broken(_) | Progress::Refused(_) => false,
        }
    }
}

fn is_head(part: Part) -> bool
    ensures { result ≡ is_head part }
{
    matches!(part, Part::Head { .. })
}

fn refused_at(place: u32, fault: ElementFault) -> Refusal
    ensures { refused_at place fault ≡ Err result }
{
    Refusal {
        place,
        result: fault.result(),
    }
}

fn content_of_draft(draft: Draft) -> Content
    ensures { result ≡ content_of_draft draft }
{
    Content {
        rows: draft.rows.into_rows(),
        pins: draft.pins,
    }
}

/// Why a package gives no content.
#[derive(Clone, Copy, Debug, PartialEq, Eq, Error)]
pub enum BuildFault {
    /// The first faulty element.
    #[error("{0}")]
    Element(Refusal),
    #[error("out of memory")]
    OutOfMemory,
}

fn refused(place: u32, fault: ElementFault) -> BuildFault
    ensures { IsOutcome (Err result) (refused_at place fault) }
{
    BuildFault::Element(refused_at(place, fault))
}

// The next element isn't there, or none of it is whole.
fn refused_next(place: u32) -> BuildFault
    ensures { IsOutcome (Err result) (refused_at (place + 1) ElementFault.Malformed) }
{
    match place.checked_add(1) {
        Some(place) => refused(place, ElementFault::Malformed),
        None => BuildFault::OutOfMemory,
    }
}

impl State {
    fn into_content(self, place: u32, used_up: bool) -> Result<Content, BuildFault>
        ensures { IsOutcome result (content_at_end place self self.spot used_up) }
    {
        match self.spot {
            Spot::Ended if used_up => Ok(content_of_draft(self.draft)),
            _ => Err(refused_next(place)),
        }
    }

    fn into_outcome(self, place: u32, used_up: bool) -> Result<Content, BuildFault>
        ensures { IsOutcome result (package_outcome place (Progress.Going self) used_up) }
    {
        if self.spot.depth() == 0 && self.passed == 0 {
            self.into_content(place, used_up)
        } else {
            Err(refused(place, ElementFault::Malformed))
        }
    }
}

impl Work {
    /// Nothing has come. It takes no memory.
    pub fn new(alloc: Global) -> Work
        ensures { result ≡ fresh_work }
    {
        Work {
            place: 0,
            progress: Progress::Going(State::new(alloc)),
        }
    }

    fn place_after(&self, part: Part) -> Result<u32, NoMemory>
        ensures { IfOk result (λ place. place ≡ place_after self.now part) }
    {
        if is_head(part) && self.progress.is_element_due() {
            next(self.place)
        } else {
            Ok(self.place)
        }
    }

    /// One part of the package more, with its bytes.
    pub fn after(self, iccid: &[u8; 10], part: Part, bytes: &[u8]) -> Result<Work, NoMemory>
        ensures { IfOk result (λ work. work ≡ after_part iccid.now self part bytes.now) }
    {
        let place = self.place_after(part)?;
        let progress = self.progress.after(iccid, part, bytes)?;
        Ok(Work { place, progress })
    }

    /// What the package comes to where no whole part of it is left, and whether all its bytes are
    /// used up.
    pub fn into_outcome(self, used_up: bool) -> Result<Content, BuildFault>
        ensures { IsOutcome result (package_outcome self.place self.progress used_up) }
    {
        let Work { place, progress } = self;
        match progress {
            Progress::Going(state) => state.into_outcome(place, used_up),
            Progress::Broken(_) => Err(refused(place, ElementFault::Malformed)),
            Progress::Refused(fault) => Err(refused(place, fault)),
        }
    }
}
