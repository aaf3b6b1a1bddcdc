// Carrying out a record.
ghost use Rattle.std.specs.Prelude.{◌≡◌, ◌≢◌, ◌<◌, ◌+◌, ◌++◌, ◌∷◌, [], if◌then◌else◌, length, take};
ghost use Rattle.std.specs.Prelude.{drop, IsSomeAnd, slice_get, slice_set, vec_capacity};
ghost use Rattle.plain_lists.specs.EachTwo.{EachTwo};
ghost use Rattle.file_rows.specs.Change.{Fits, changed};
ghost use Rattle.file_rows.specs.Content.{IsValid};
ghost use Rattle.record_codec.specs.Apply.{apply};
ghost use Rattle.record_codec.specs.Content.{contents_with};
ghost use Rattle.record_codec.specs.FitsCard.{FitsCard};
ghost use Rattle.record_codec.specs.Gone.{contents_without};
ghost use Rattle.record_codec.specs.Heads.{content_at};
ghost use Rattle.record_codec.specs.IsDurable.{IsDurable};
ghost use Rattle.record_codec.specs.Room.{IsKeptFor, IsRoomFor, KeepsChange, KeepsProfile};

use crate::content_change::change_content;
use crate::effect::is_among;
use crate::fits::place_of;
use crate::lists::{push_into, take_all};
use crate::room::Kept;
use crate::{Durable, Numbers, ProfileHead, Record, Room};
use file_rows::{Change, Content};
use plain_lists::LongList;

fn change_content_at(change: &Change, place: usize, contents: &mut [Content], kept: Kept)
    requires within { place < length contents.old }
    requires takes { IsSomeAnd (slice_get contents.old place)
        (λ its. IsValid its × Fits its change.now × KeepsChange its change.now kept) }
    ensures { IsSomeAnd (slice_get contents.old place)
        (λ its. contents.new ≡ slice_set contents.old place (changed its change.now)) }
{
    change_content(change, &mut contents[place], kept);
}

fn change_content_of(
    profile: u16,
    change: &Change,
    profiles: &[ProfileHead],
    contents: &mut [Content],
    kept: Kept,
)
    requires pairs { length contents.old ≡ length profiles.now }
    requires numbers { EachTwo (λ one other. one.number ≢ other.number) profiles.now }
    requires takes { IsSomeAnd (content_at profile profiles.now contents.old)
        (λ its. IsValid its × Fits its change.now × KeepsChange its change.now kept) }
    ensures { contents.new
        ≡ contents_with profile (λ its. changed its change.now) profiles.now contents.old }
{
    match place_of(profile, profiles) {
        Some(place) => change_content_at(change, place, contents, kept),
        None => (),
    }
}

// Takes away the content at a place, if it goes, and returns the place of the next one.
fn pass_content<T: Drop>(goes: bool, place: usize, contents: &mut Vec<T>) -> usize
    requires { place < length contents.old.items }
    ensures items { contents.new.items ≡ (if goes then take place contents.old.items
        ++ drop (place + 1) contents.old.items else contents.old.items) }
    ensures room { vec_capacity contents.new ≡ vec_capacity contents.old }
    ensures next { result ≡ (if goes then place else place + 1) }
{
    if goes {
        let _gone = contents.remove(place);
        place
    } else {
        place + 1
    }
}

/// Takes away the contents of these profiles, from those of all profiles in their order.
pub fn drop_contents<T: Drop>(numbers: &Numbers, profiles: &[ProfileHead], contents: &mut Vec<T>)
    requires { length contents.old.items ≡ length profiles.now }
    ensures left { contents.new.items
        ≡ contents_without numbers.now profiles.now contents.old.items }
    ensures room { vec_capacity contents.new ≡ vec_capacity contents.old }
{
    let mut place = 0;
    for head in profiles {
        let goes = is_among(head.number, numbers.as_slice());
        place = pass_content(goes, place, contents);
    }
}

fn put_content(contents: &mut LongList<Content>, content: &Content, kept: Kept)
    requires { KeepsProfile (length contents.old) content.now kept }
    ensures { contents.new ≡ contents.old ++ content.now ∷ [] }
{
    match kept {
        Kept::Profile {
            content: copy,
            contents: room,
        } => push_into(contents, copy, room),
        Kept::Nothing | Kept::File { .. } | Kept::Body { .. } => (),
    }
}

impl Durable {
    fn change_one(&mut self, profile: u16, change: &Change, kept: Kept)
        requires pairs { length self.old.contents ≡ length self.old.heads.profiles }
        requires numbers { EachTwo
            (λ one other. one.number ≢ other.number) self.old.heads.profiles }
        requires takes { IsSomeAnd
            (content_at profile self.old.heads.profiles self.old.contents)
            (λ its. IsValid its × Fits its change.now × KeepsChange its change.now kept) }
        ensures { self.new ≡ record self.old {
          contents = contents_with profile (λ its. changed its change.now)
              self.old.heads.profiles self.old.contents;
        } }
    {
        let mut contents = take_all(&mut self.contents);
        let profiles = self.heads.profiles.as_slice();
        change_content_of(profile, change, profiles, contents.as_mut_slice(), kept);
        self.contents = LongList::from(contents);
    }

    fn remove_contents(&mut self, numbers: &Numbers)
        requires { length self.old.contents ≡ length self.old.heads.profiles }
        ensures { self.new ≡ record self.old {
          contents = contents_without numbers.now self.old.heads.profiles self.old.contents;
        } }
    {
        let mut contents = take_all(&mut self.contents);
        drop_contents(numbers, self.heads.profiles.as_slice(), &mut contents);
        self.contents = LongList::from(contents);
    }

    fn clear_contents(&mut self)
        ensures { self.new ≡ record self.old { contents = [] } }
    {
        let _gone = take_all(&mut self.contents);
    }

    fn apply_to_contents(&mut self, entry: &Record, kept: Kept)
        requires are { IsDurable self.old }
        requires fits { FitsCard self.old entry.now }
        requires kept { IsKeptFor self.old entry.now kept }
        ensures { self.new
            ≡ record self.old { contents = (apply self.old entry.now).contents } }
    {
        match entry {
            Record::PutCard { .. } => self.clear_contents(),
            Record::PutProfile { profile, .. } => {
                put_content(&mut self.contents, &profile.get().content, kept);
            }
            Record::Content { profile, change } => self.change_one(*profile, change, kept),
            Record::Gone { profiles } => self.remove_contents(profiles),
            Record::Bind { .. }
            | Record::Unbind { .. }
            | Record::Name { .. }
            | Record::NoteGone { .. } => (),
        }
    }

    /// Carries out a record that fits, for which the memory is reserved, and takes none itself. A
    /// change of a content touches the content of its profile alone: a write moves the bytes that
    /// it names, a new record of a cyclic file that file's body, and a new file the heads of the
    /// profile's files.
    pub fn apply(&mut self, entry: &Record, room: Room)
        requires are { IsDurable self.old }
        requires fits { FitsCard self.old entry.now }
        requires room { IsRoomFor self.old entry.now room }
        ensures { self.new ≡ apply self.old entry.now }
    {
        self.apply_to_contents(entry, room.into_kept());
        self.heads.apply(entry);
    }
}
