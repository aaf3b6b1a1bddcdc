ghost use Rattle.std.specs.Prelude.{◌≡◌, ◌++◌, ◌∷◌, [], ◌<◌, length, IfOk};

use crate::NoMemory;
use file_rows::Content;
use notify_list::{Address, Iccid};
use plain_lists::ShortList;
use std::alloc::Global;
use std::marker::Model;

/// The name of a profile's service provider, at most 32 bytes of UTF-8.
pub type Provider = ShortList<u8, 32>;

/// A profile's name or nickname, at most 64 bytes of UTF-8.
pub type Label = ShortList<u8, 64>;

/// To whom the operations on a profile are notified, at most eight.
pub type Targets = ShortList<NoteTarget, 8>;

/// An address to which operations are notified (GSMA SGP.22, NotificationConfigurationInformation).
#[derive(Debug, PartialEq, Eq, Drop)]
pub struct NoteTarget {
    /// Which operations: bit 0 for install, bit 1 for enable, bit 2 for disable, bit 3 for delete.
    pub operations: u8,
    pub address: Address,
}

impl Default for NoteTarget {
    /// What stands in an unused place of a list.
    fn default() -> Self {
        NoteTarget {
            operations: 0,
            address: Address::new(),
        }
    }
}

impl NoteTarget {
    /// A copy of the target. It takes no memory.
    pub fn copy(&self) -> Self
        ensures { result ≡ self.now }
    {
        NoteTarget {
            operations: self.operations,
            address: self.address.copy(),
        }
    }
}

/// What is known of a profile beside its content (GSMA SGP.22, StoreMetadata).
#[derive(Debug, PartialEq, Eq, Drop)]
pub struct ProfileHead {
    /// The profile's number on this card, from 1100.
    pub number: u16,
    pub iccid: Iccid,
    pub provider: Provider,
    pub name: Label,
    pub nickname: Label,
    /// 0 for a test profile, 1 for provisioning, 2 for an operational one.
    pub class: u8,
    /// The policy rules: bit 0 for PPR1, not to be disabled, and bit 1 for PPR2, not to be deleted.
    pub policy: u8,
    pub targets: Targets,
}

impl Default for ProfileHead {
    /// What stands in an unused place of a list.
    fn default() -> Self {
        ProfileHead {
            number: 0,
            iccid: [0; 10],
            provider: Provider::new(),
            name: Label::new(),
            nickname: Label::new(),
            class: 0,
            policy: 0,
            targets: Targets::new(),
        }
    }
}

fn copy_targets(targets: &Targets) -> Targets
    ensures { result ≡ targets.now }
{
    let mut copies = Targets::new();
    for target in targets.as_slice() {
        copies.push(target.copy());
    }
    copies
}

impl ProfileHead {
    /// A copy of the head. It takes no memory.
    pub fn copy(&self) -> Self
        ensures { result ≡ self.now }
    {
        ProfileHead {
            number: self.number,
            iccid: self.iccid,
            provider: self.provider.copy(),
            name: self.name.copy(),
            nickname: self.nickname.copy(),
            class: self.class,
            policy: self.policy,
            targets: copy_targets(&self.targets),
        }
    }
}

/// A profile: its head and its content.
#[derive(Debug, Drop)]
pub struct Profile {
    pub head: ProfileHead,
    pub content: Content,
}

/// A profile on the heap. Contracts see the profile.
#[derive(Debug, Drop)]
pub struct BoxedProfile {
    inner: Box<Profile>,
}

impl Model for BoxedProfile {
    ghost use Rattle.record_codec.specs.declared.profile.Profile.{Profile};

    ghost Value = { Profile };

    ghost view = { λ profile. profile.inner.value };
}

impl BoxedProfile {
    /// This profile.
    pub fn new(alloc: Global, profile: Profile) -> Result<Self, NoMemory>
        ensures { IfOk result (λ boxed. boxed ≡ profile) }
    {
        let inner = Box::new(alloc, profile)?;
        Ok(BoxedProfile { inner })
    }

    /// The profile.
    pub fn get(&self) -> &Profile
        ensures { result.now ≡ self.now }
    {
        &self.inner
    }

    /// A copy of the profile, on this allocator.
    pub fn copy(&self, alloc: Global) -> Result<Self, NoMemory>
        ensures { IfOk result (λ boxed. boxed ≡ self.now) }
    {
        let profile = Profile {
            head: self.get().head.copy(),
            content: self.get().content.copy()?,
        };
        BoxedProfile::new(alloc, profile)
    }
}
