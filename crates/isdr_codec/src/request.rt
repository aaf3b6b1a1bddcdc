use notify_list::Iccid;
use record_codec::Label;

/// A nickname, at most 64 bytes of UTF-8.
pub type Nickname = Label;

/// How a request names a profile (GSMA SGP.22, ProfileIdentifier).
#[derive(Clone, Copy, Debug, PartialEq, Eq)]
pub enum Who {
    /// The AID of its security domain, the ISD-P.
    Aid([u8; 16]),
    Iccid(Iccid),
}

/// Which profiles are asked for.
#[derive(Clone, Copy, Debug, PartialEq, Eq)]
pub enum Search {
    All,
    One(Who),
    /// Those of this class: 0 test, 1 provisioning, 2 operational.
    Class(u8),
}

/// A request to the ISD-R (GSMA SGP.22, ES10b and ES10c).
#[derive(Debug, PartialEq, Eq, Drop)]
pub enum Request {
    /// GetProfilesInfo. The fields that are asked for are a bit each, from bit 0: ICCID, AID,
    /// state, port, nickname, service provider, name, class.
    Info {
        search: Search,
        fields: u8,
    },
    /// SetNickname.
    Nickname {
        iccid: Iccid,
        name: Nickname,
    },
    /// EnableProfile: whether a refresh is asked for, and the port that is named, from 0.
    Enable {
        who: Who,
        refresh: bool,
        port: Option<u8>,
    },
    /// DisableProfile.
    Disable {
        who: Who,
        refresh: bool,
    },
    /// DeleteProfile.
    Delete {
        who: Who,
    },
    /// eUICCMemoryReset: whether of the operational and of the test profiles.
    MemoryReset {
        operational: bool,
        test: bool,
    },
    /// GetEID.
    Eid,
    /// ListNotification. The operations are a bit each: 1 install, 2 enable, 4 disable, 8 delete.
    NoteList {
        operations: u8,
    },
    /// NotificationSent.
    NoteSent {
        number: u64,
    },
}
