//! What a command does to the session of its card.
ghost use Rattle.std.specs.Prelude.{◌≡◌, ◌<◌, length, Some, None, option_map};
ghost use Rattle.uicc_channels.specs.Session.{channel_at, with_channel};
ghost use Rattle.uicc_channels.specs.SessionChange.{no_change, own_change, session_after, with_end};
ghost use Rattle.uicc_channels.specs.SessionChange.{with_place, with_states, within_end};

use crate::session::copy_place;
use crate::{Chan, Refresh, Session};
use file_rows::Path;

/// What stands afterwards in the place of a channel: the channel as it then is, or none where it
/// is closed.
#[derive(Debug, PartialEq, Eq, Drop)]
pub struct ChannelChange {
    pub channel: u8,
    pub after: Option<Chan>,
}

/// A file of records that has a new end: how many records it then has.
#[derive(Debug, PartialEq, Eq, Drop)]
pub struct NewEnd {
    pub path: Path,
    pub records: u8,
}

/// What a command does to the session, in independent parts. A part that is none changes nothing.
#[derive(Debug, PartialEq, Eq, Drop)]
pub struct SessionChange {
    /// What stands in the place of the command's own channel.
    pub own: Option<ChannelChange>,
    /// What stands in the place of a channel that opens or closes.
    pub other: Option<ChannelChange>,
    /// The PINs that are verified, as `Session` has them.
    pub verified: Option<u32>,
    pub refresh: Option<Refresh>,
    /// A file past whose new end no channel keeps a record pointer.
    pub new_end: Option<NewEnd>,
}

impl SessionChange {
    /// Nothing changes.
    pub fn none() -> Self
        ensures { result ≡ no_change }
    {
        SessionChange {
            own: None,
            other: None,
            verified: None,
            refresh: None,
            new_end: None,
        }
    }

    /// Nothing changes, whatever would have changed before.
    pub fn clear(&mut self)
        ensures { self.new ≡ no_change }
    {
        self.clear_own();
        self.clear_other();
        self.verified = None;
        self.refresh = None;
        self.new_end = None;
    }

    // Most commands leave the channels alone, and a channel is large.
    fn clear_own(&mut self)
        ensures { self.new ≡ record self.old { own = None } }
    {
        if self.own.is_some() {
            self.own = None;
        }
    }

    fn clear_other(&mut self)
        ensures { self.new ≡ record self.old { other = None } }
    {
        if self.other.is_some() {
            self.other = None;
        }
    }

    /// This stands in the place of the command's own channel: an open channel, or none to close it.
    pub fn own(channel: u8, after: Option<Chan>) -> Self
        ensures { result ≡ own_change channel after }
    {
        SessionChange {
            own: Some(ChannelChange { channel, after }),
            ..SessionChange::none()
        }
    }
}

// The channel in a place without a record pointer past the new end of its current EF.
fn within_end(place: Option<Chan>, end: &NewEnd) -> Option<Chan>
    ensures { result ≡ option_map (within_end end.now) place }
{
    let mut chan = place?;
    if chan.file.as_ref() == Some(&end.path) && end.records < chan.pointer {
        chan.pointer = 0;
    }
    Some(chan)
}

// The place of a channel is a copy of that one afterwards. A channel that stays open is changed
// where it lies.
fn assign_place(place: &mut Option<Chan>, after: &Option<Chan>)
    ensures { place.new ≡ after.now }
{
    match (place.as_mut(), after) {
        (Some(chan), Some(after)) => chan.assign(after),
        _ => *place = copy_place(after),
    }
}

impl Session {
    // Puts what stands afterwards in the place of a channel there.
    fn place(&mut self, change: &ChannelChange)
        ensures { self.new ≡ with_channel self.old change.now.channel change.now.after }
    {
        let number = usize::from(change.channel);
        if number < self.channels.len() {
            let mut place = self.channels.replace(number, None);
            assign_place(&mut place, &change.after);
            self.channels.set(number, place);
        }
    }

    fn set_place(&mut self, change: &Option<ChannelChange>)
        ensures { self.new ≡ with_place self.old change.now }
    {
        if let Some(change) = change {
            self.place(change);
        }
    }

    fn set_states(&mut self, change: &SessionChange)
        ensures { self.new ≡ with_states self.old change.now }
    {
        self.verified = change.verified.unwrap_or(self.verified);
        self.refresh = change.refresh.unwrap_or(self.refresh);
    }

    fn drop_pointer(&mut self, number: usize, end: &NewEnd)
        requires { number < length self.old.channels }
        ensures { self.new ≡ with_channel self.old number
            (option_map (within_end end.now) (channel_at self.old number)) }
    {
        let place = self.channels.replace(number, None);
        self.channels.set(number, within_end(place, end));
    }

    fn drop_pointers(&mut self, end: &NewEnd)
        ensures { self.new ≡ with_end self.old (Some end.now) }
    {
        for number in 0..self.channels.len() {
            self.drop_pointer(number, end);
        }
    }

    fn set_end(&mut self, end: &Option<NewEnd>)
        ensures { self.new ≡ with_end self.old end.now }
    {
        if let Some(end) = end {
            self.drop_pointers(end);
        }
    }

    /// Makes the changes of a command. It copies at most the channels that the command changes.
    pub fn apply(&mut self, change: &SessionChange)
        ensures { self.new ≡ session_after self.old change.now }
    {
        self.set_states(change);
        self.set_place(&change.own);
        self.set_place(&change.other);
        self.set_end(&change.new_end);
    }
}
