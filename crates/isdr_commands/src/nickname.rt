ghost use Rattle.std.specs.Prelude.{◌≡◌};
ghost use Rattle.isdr_commands.specs.SetNickname.{naming};

use crate::Moves;
use crate::decision::Decision;
use crate::naming::profile_named;
use crate::refusal::Refusal;
use isdr_codec::{Iccid, Nickname, Who};
use record_codec::{Heads, Record};

const TAG: u32 = 0xBF29;

/// What ES10c.SetNickname comes to: result 1 where the profile isn't found; else 0, and the profile
/// has the nickname. It looks at each profile once.
pub fn set_nickname(heads: &Heads, iccid: &Iccid, name: &Nickname) -> Decision
    ensures { result ≡ naming heads.now iccid.now name.now }
{
    match profile_named(&Who::Iccid(*iccid), heads.profiles.as_slice()) {
        Some(head) => {
            let entry = Record::Name {
                profile: head.number,
                nickname: name.copy(),
            };
            Decision::accepted(TAG, entry, Moves::new())
        }
        None => Decision::refused(TAG, Refusal::NotFound),
    }
}
