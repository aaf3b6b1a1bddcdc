ghost use Rattle.std.specs.Prelude.{◌≡◌, ◌+◌, ◌<◌, ◌≤◌, ◌++◌, length, IfSome, option_copied};
ghost use Rattle.uicc_channels.specs.Session.{IsOpen, channel_at, fresh_session, open_channel};
ghost use Rattle.uicc_channels.specs.Session.{reset_session};
ghost use Rattle.uicc_channels.specs.Verified.{verified_after};
ghost use Rattle.file_rows.specs.PinRow.{is_verified};

use crate::Chan;
use plain_lists::ShortList;

/// How many logical channels a port has. They are numbered from 0, which is the basic channel.
pub const CHANNELS: usize = 4;

/// The places of the channels of a port, by their numbers; a closed channel has none.
pub type Channels = ShortList<Option<Chan>, CHANNELS>;

/// How far the REFRESH of a port has come (ETSI TS 102 223, REFRESH).
#[derive(Clone, Copy, Debug, PartialEq, Eq)]
pub enum Refresh {
    /// None is under way.
    Quiet,
    /// One waits to be fetched.
    Announced,
    /// One was fetched, and its TERMINAL RESPONSE is awaited.
    Fetched,
}

/// The session of a card, from one reset to the next.
#[derive(Debug, PartialEq, Eq, Drop)]
pub struct Session {
    pub channels: Channels,
    /// The PINs that are verified: bit n - 1 stands for the PIN with number n.
    pub verified: u32,
    pub refresh: Refresh,
}

// A copy of the place of a channel.
pub(crate) fn copy_place(place: &Option<Chan>) -> Option<Chan>
    ensures { result ≡ place.now }
{
    match place {
        None => None,
        Some(chan) => Some(chan.copy()),
    }
}

// Appends copies of these places.
fn push_copies(channels: &mut Channels, places: &[Option<Chan>])
    requires { length channels.old + length places.now ≤ CHANNELS }
    ensures { channels.new ≡ channels.old ++ places.now }
{
    for place in places {
        channels.push(copy_place(place));
    }
}

impl Session {
    /// A copy. It takes no memory.
    pub fn copy(&self) -> Self
        ensures { result ≡ self.now }
    {
        let mut channels = Channels::new();
        push_copies(&mut channels, self.channels.as_slice());
        Session {
            channels,
            verified: self.verified,
            refresh: self.refresh,
        }
    }

    /// The channel of that number, where it is open.
    pub fn channel_at(&self, number: u8) -> Option<&Chan>
        ensures { option_copied result ≡ channel_at self.now number }
    {
        self.channels.as_slice().get(usize::from(number))?.as_ref()
    }

    /// The channel of that number, which is open.
    pub fn open_channel(&self, number: u8) -> &Chan
        requires { IsOpen self.now number }
        ensures { result.now ≡ open_channel self.now number }
    {
        let Some(chan) = self.channel_at(number) else {
            unreachable!()
        };
        chan
    }

    /// Whether the PIN with this number, from 1 to 32, is verified.
    pub fn is_verified(&self, pin: u8) -> bool
        requires first { 1 ≤ pin }
        requires last { pin ≤ 32 }
        ensures { result ≡ is_verified self.now.verified pin }
    {
        self.verified >> (pin - 1) & 1 == 1
    }

    /// The verified PINs, with the one of this number, from 1 to 32, verified or not.
    pub fn verified_with(&self, pin: u8, verified: bool) -> u32
        requires first { 1 ≤ pin }
        requires last { pin ≤ 32 }
        ensures { result ≡ verified_after self.now.verified pin verified }
    {
        let bit = 1 << (pin - 1);
        if verified {
            self.verified | bit
        } else {
            self.verified & !bit
        }
    }
}

// The session after a reset with no kept channel.
fn reset_session(refresh: bool) -> Session
    ensures { result ≡ reset_session refresh }
{
    let mut channels = Channels::new();
    channels.push(Some(Chan::at_master()));
    for _ in 0..CHANNELS - 1 {
        channels.push(None);
    }
    Session {
        channels,
        verified: 0,
        refresh: if refresh {
            Refresh::Announced
        } else {
            Refresh::Quiet
        },
    }
}

/// The session after a reset: nothing is verified, and channel 0 alone is open, at the MF.
///
/// A kept channel is open too, with the ISD-R selected at the MF; this may be channel 0. With
/// `refresh` a REFRESH waits to be fetched.
pub fn fresh(refresh: bool, kept: Option<u8>) -> Session
    requires { IfSome kept (λ number. number < CHANNELS) }
    ensures { result ≡ fresh_session refresh kept }
{
    let session = reset_session(refresh);
    match kept {
        None => session,
        Some(number) => {
            let mut session = session;
            session
                .channels
                .set(usize::from(number), Some(Chan::at_isdr()));
            session
        }
    }
}
