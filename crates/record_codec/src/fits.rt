// Whether a record fits what a card holds.
ghost use Rattle.std.specs.Prelude.{◌≡◌, ◌≢◌, ◌<◌, ◌↔◌, None, Some, IfNone, IfSome, IsSomeAnd};
ghost use Rattle.std.specs.Prelude.{IsTrue, length, slice_get};
ghost use Rattle.plain_lists.specs.EachTwo.{EachTwo};
ghost use Rattle.record_codec.specs.Content.{MayChange};
ghost use Rattle.record_codec.specs.FitsCard.{FitsCard};
ghost use Rattle.record_codec.specs.Heads.{IsHeld, content_at, held_content};
ghost use Rattle.record_codec.specs.IsDurable.{IsDurable};
ghost use Rattle.record_codec.specs.Takes.{TakesContent};

use crate::{Durable, ProfileHead, Record};
use file_rows::{Change, Content};

/// The place of the profile of that number among the others, counted from 0.
pub fn place_of(number: u16, profiles: &[ProfileHead]) -> Option<usize>
    ensures found { IfSome result (λ place.
        IsSomeAnd (slice_get profiles.now place) (λ head. head.number ≡ number)) }
    ensures none { IfNone result (¬ IsHeld number profiles.now) }
{
    for (place, head) in profiles.iter().enumerate() {
        if head.number == number {
            return Some(place);
        }
    }
    None
}

fn content_in<T>(contents: &[T], place: usize) -> &T
    requires { place < length contents.now }
    ensures { slice_get contents.now place ≡ Some result.now }
{
    &contents[place]
}

/// The content of the profile of that number, from those of all profiles in their order.
pub fn content_of<'a, T>(number: u16, profiles: &[ProfileHead], contents: &'a [T]) -> Option<&'a T>
    requires pairs { length contents.now ≡ length profiles.now }
    requires numbers { EachTwo (λ one other. one.number ≢ other.number) profiles.now }
    ensures found { IfSome result (λ content.
        content_at number profiles.now contents.now ≡ Some content.now) }
    ensures none { IfNone result (content_at number profiles.now contents.now ≡ None) }
    ensures unheld { IfNone result (¬ IsHeld number profiles.now) }
{
    match place_of(number, profiles) {
        Some(place) => Some(content_in(contents, place)),
        None => None,
    }
}

impl Durable {
    /// The content of the profile of that number, or none where no such profile is held.
    pub fn content(&self, profile: u16) -> Option<&Content>
        requires { IsDurable self.now }
        ensures found { IfSome result (λ content.
            held_content profile self.now ≡ Some content.now) }
        ensures none { IfNone result (¬ IsHeld profile self.now.heads.profiles) }
    {
        let profiles = self.heads.profiles.as_slice();
        content_of(profile, profiles, self.contents.as_slice())
    }

    fn may_change(&self, profile: u16, change: &Change) -> bool
        requires { IsDurable self.now }
        ensures { IsTrue result ↔ MayChange self.now profile change.now }
    {
        let profiles = self.heads.profiles.as_slice();
        match content_of(profile, profiles, self.contents.as_slice()) {
            Some(content) => content.fits(change),
            None => false,
        }
    }

    fn takes_content(&self, entry: &Record) -> bool
        requires { IsDurable self.now }
        ensures { IsTrue result ↔ TakesContent self.now entry.now }
    {
        match entry {
            Record::PutProfile { profile, .. } => profile.get().content.is_valid(),
            Record::Content { profile, change } => self.may_change(*profile, change),
            Record::PutCard { .. }
            | Record::Bind { .. }
            | Record::Unbind { .. }
            | Record::Gone { .. }
            | Record::Name { .. }
            | Record::NoteGone { .. } => true,
        }
    }

    /// Whether a record fits: it names what is held, and what the card holds after it is what one
    /// may hold. It takes no memory, and it looks at what the record names and not at all that is
    /// held: a change of a content costs what `Content::fits` does, a profile that is put what
    /// `Content::is_valid` does, and each other record at most one look at the heads.
    pub fn fits(&self, entry: &Record) -> bool
        requires { IsDurable self.now }
        ensures { IsTrue result ↔ FitsCard self.now entry.now }
    {
        self.heads.takes(entry) && self.takes_content(entry)
    }
}
