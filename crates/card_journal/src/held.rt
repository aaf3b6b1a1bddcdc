// What a card holds, in memory.
ghost use Rattle.std.specs.Prelude.{◌≡◌, ◌≢◌, ◌≤◌, ◌<◌, ◌++◌, ◌∷◌, ◌↔◌, [], None, Some, IfNone};
ghost use Rattle.std.specs.Prelude.{IfOk, IfSome};
ghost use Rattle.std.specs.Prelude.{IsSomeAnd, IsTrue, OnErr, length, slice_get, slice_set};
ghost use Rattle.std.specs.Prelude.{vec_capacity};
ghost use Rattle.std.specs.List.{AllByRecursion};
ghost use Rattle.plain_lists.specs.EachTwo.{EachTwo};
ghost use Rattle.file_rows.specs.Change.{Fits, changed};
ghost use Rattle.file_rows.specs.Content.{IsValid};
ghost use Rattle.card_journal.specs.Held.{PutsProfile, RoomIsFor, held_in};
ghost use Rattle.record_codec.specs.Apply.{apply};
ghost use Rattle.record_codec.specs.Content.{MayChange, contents_with};
ghost use Rattle.record_codec.specs.FitsCard.{FitsCard};
ghost use Rattle.record_codec.specs.Heads.{IsHeld, content_at, held_content};
ghost use Rattle.record_codec.specs.IsDurable.{IsDurable};
ghost use Rattle.record_codec.specs.Takes.{TakesContent};

use crate::PooledContent;
use file_rows::{Change, Content, NoMemory};
use record_codec::{Durable, Heads, ProfileHead, Record, content_of, drop_contents, place_of};
use std::alloc::Global;
use std::marker::Model;

// How many profiles a card may hold.
const MOST_PROFILES: usize = 16;

/// What a card holds, each content in a pool, with room for 16 of them. Contracts see what is held.
#[derive(Drop)]
pub struct HeldCard {
    heads: Heads,
    contents: Vec<PooledContent>,
}

impl Model for HeldCard {
    ghost use Rattle.std.specs.Prelude.{◌≤◌, vec_capacity};
    ghost use Rattle.card_journal.specs.Held.{held_in};
    ghost use Rattle.record_codec.specs.declared.durable.Durable.{Durable};

    ghost Value = { Durable };

    ghost view = { λ card. held_in card.heads card.contents.items };

    ghost invariant = { λ card. 16 ≤ vec_capacity card.contents };
}

// Copies of contents, each in a pool.
fn pool_each(alloc: Global, contents: &[Content]) -> Result<Vec<PooledContent>, NoMemory>
    requires valid { AllByRecursion IsValid contents.now }
    requires few { length contents.now ≤ 16 }
    ensures items { IfOk result (λ pooled. pooled.items ≡ contents.now) }
    ensures room { IfOk result (λ pooled. 16 ≤ vec_capacity pooled) }
{
    let mut pooled = Vec::with_capacity(alloc, MOST_PROFILES)?;
    for content in contents {
        pooled.push_reserved(PooledContent::from_content(alloc, content)?);
    }
    Ok(pooled)
}

fn change_content_at(change: &Change, place: usize, contents: &mut [PooledContent])
    requires within { place < length contents.old }
    requires takes { IsSomeAnd (slice_get contents.old place)
        (λ its. IsValid its × Fits its change.now) }
    ensures { IsSomeAnd (slice_get contents.old place)
        (λ its. contents.new ≡ slice_set contents.old place (changed its change.now)) }
{
    contents[place].apply(change);
}

fn change_content_of(
    profile: u16,
    change: &Change,
    profiles: &[ProfileHead],
    contents: &mut [PooledContent],
)
    requires pairs { length contents.old ≡ length profiles.now }
    requires numbers { EachTwo (λ one other. one.number ≢ other.number) profiles.now }
    requires takes { IsSomeAnd (content_at profile profiles.now contents.old)
        (λ its. IsValid its × Fits its change.now) }
    ensures { contents.new
        ≡ contents_with profile (λ its. changed its change.now) profiles.now contents.old }
{
    match place_of(profile, profiles) {
        Some(place) => change_content_at(change, place, contents),
        None => (),
    }
}

fn put_content(room: Option<PooledContent>, contents: &mut Vec<PooledContent>)
    requires { IsSomeAnd room (λ content. length contents.old.items < vec_capacity contents.old) }
    ensures items { IsSomeAnd room
        (λ content. contents.new.items ≡ contents.old.items ++ content ∷ []) }
    ensures room { vec_capacity contents.new ≡ vec_capacity contents.old }
{
    match room {
        Some(content) => contents.push_reserved(content),
        None => (),
    }
}

fn apply_to_contents(
    entry: &Record,
    room: Option<PooledContent>,
    heads: &Heads,
    contents: &mut Vec<PooledContent>,
)
    requires are { IsDurable (held_in heads.now contents.old.items) }
    requires fits { FitsCard (held_in heads.now contents.old.items) entry.now }
    requires room { RoomIsFor entry.now room }
    requires place { 16 ≤ vec_capacity contents.old }
    ensures contents { contents.new.items
        ≡ (apply (held_in heads.now contents.old.items) entry.now).contents }
    ensures place { 16 ≤ vec_capacity contents.new }
{
    match entry {
        Record::PutCard { .. } => contents.clear(),
        Record::PutProfile { .. } => put_content(room, contents),
        Record::Content { profile, change } => change_content_of(
            *profile,
            change,
            heads.profiles.as_slice(),
            contents.as_mut_slice(),
        ),
        Record::Gone { profiles } => {
            drop_contents(profiles, heads.profiles.as_slice(), contents);
        }
        Record::Bind { .. }
        | Record::Unbind { .. }
        | Record::Name { .. }
        | Record::NoteGone { .. } => (),
    }
}

impl HeldCard {
    /// A copy of what a card holds.
    pub fn from_durable(alloc: Global, held: Durable) -> Result<Self, NoMemory>
        requires { IsDurable held }
        ensures { IfOk result (λ card. card ≡ held) }
    {
        let Durable { heads, contents } = held;
        let contents = pool_each(alloc, contents.as_slice())?;
        Ok(HeldCard { heads, contents })
    }

    /// What is held beside the contents.
    pub fn heads(&self) -> &Heads
        ensures { result.now ≡ self.now.heads }
    {
        &self.heads
    }

    /// How many profiles are held.
    pub fn len(&self) -> usize
        requires { IsDurable self.now }
        ensures value { result ≡ length self.now.heads.profiles }
        ensures fits { result ≤ 16 }
    {
        self.heads.profiles.len()
    }

    /// The contents, in the order of the profiles.
    pub fn contents(&self) -> &[PooledContent]
        ensures { result.now ≡ self.now.contents }
    {
        &self.contents
    }

    /// What gives the memory for more.
    pub fn allocator(&self) -> Global {
        *self.contents.allocator()
    }

    /// The content of the profile of that number, or none where no such profile is held.
    pub fn content(&self, profile: u16) -> Option<&PooledContent>
        requires { IsDurable self.now }
        ensures found { IfSome result (λ content.
            held_content profile self.now ≡ Some content.now) }
        ensures none { IfNone result (held_content profile self.now ≡ None) }
        ensures unheld { IfNone result (¬ IsHeld profile self.now.heads.profiles) }
    {
        content_of(profile, self.heads.profiles.as_slice(), &self.contents)
    }

    fn may_change(&self, profile: u16, change: &Change) -> bool
        requires { IsDurable self.now }
        ensures { IsTrue result ↔ MayChange self.now profile change.now }
    {
        match self.content(profile) {
            Some(content) => content.fits(change),
            None => false,
        }
    }

    fn takes_content(&self, entry: &Record) -> bool
        requires { IsDurable self.now }
        ensures { IsTrue result ↔ TakesContent self.now entry.now }
    {
        match entry {
            Record::PutProfile { profile, .. } => profile.get().content.is_valid(),
            Record::Content { profile, change } => self.may_change(*profile, change),
            Record::PutCard { .. }
            | Record::Bind { .. }
            | Record::Unbind { .. }
            | Record::Gone { .. }
            | Record::Name { .. }
            | Record::NoteGone { .. } => true,
        }
    }

    /// Whether a record fits. It takes no memory, and looks at what the record names.
    pub fn fits(&self, entry: &Record) -> bool
        requires { IsDurable self.now }
        ensures { IsTrue result ↔ FitsCard self.now entry.now }
    {
        self.heads.takes(entry) && self.takes_content(entry)
    }

    /// The memory that `apply` needs for a record that fits: one more profile needs a quota's room.
    pub fn reserve(&self, entry: &Record) -> Result<Option<PooledContent>, NoMemory>
        requires are { IsDurable self.now }
        requires fits { FitsCard self.now entry.now }
        ensures ok { IfOk result (RoomIsFor entry.now) }
        ensures only { OnErr result (PutsProfile entry.now) }
    {
        match entry {
            Record::PutProfile { profile, .. } => {
                let content = &profile.get().content;
                Ok(Some(PooledContent::from_content(self.allocator(), content)?))
            }
            Record::PutCard { .. }
            | Record::Content { .. }
            | Record::Bind { .. }
            | Record::Unbind { .. }
            | Record::Gone { .. }
            | Record::Name { .. }
            | Record::NoteGone { .. } => Ok(None),
        }
    }

    /// Carries out a record that fits, for which the memory is reserved, and takes none itself. A
    /// change of a content touches the content of its profile alone.
    pub fn apply(&mut self, entry: &Record, room: Option<PooledContent>)
        requires are { IsDurable self.old }
        requires fits { FitsCard self.old entry.now }
        requires room { RoomIsFor entry.now room }
        ensures { self.new ≡ apply self.old entry.now }
    {
        apply_to_contents(entry, room, &self.heads, &mut self.contents);
        self.heads.apply(entry);
    }
}
