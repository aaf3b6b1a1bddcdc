ghost use Rattle.std.specs.Prelude.{◌≡◌, ◌≤◌, ◌<◌, length};
ghost use Rattle.isdr_commands.specs.Request.{managed};

use crate::decision::Decision;
use crate::delete::delete_profile;
use crate::disable::disable_profile;
use crate::enable::enable_profile;
use crate::memory_reset::reset_memory;
use crate::nickname::set_nickname;
use crate::notifications::notification_sent;
use crate::profiles_info::profiles_info;
use isdr_codec::{Reply, Request};
use record_codec::Heads;

// What a request comes to. What its results are, in the order in which they are tested, stands at
// its own function.
pub fn decide(heads: &Heads, busy: &[bool; 8], port: u8, request: &Request) -> Decision
    requires places { length heads.now.ports.on ≡ heads.now.ports.count }
    requires few { heads.now.ports.count ≤ 8 }
    requires came { port < heads.now.ports.count }
    ensures { result ≡ managed heads.now busy.now port request.now }
{
    match request {
        Request::Info { search, fields } => profiles_info(heads, search, *fields),
        Request::Nickname { iccid, name } => set_nickname(heads, iccid, name),
        Request::Enable {
            who,
            refresh,
            port: given,
        } => enable_profile(heads, busy, port, who, *refresh, *given),
        Request::Disable { who, refresh } => disable_profile(heads, busy, who, *refresh),
        Request::Delete { who } => delete_profile(heads, who),
        Request::MemoryReset { operational, test } => {
            reset_memory(heads, busy, *operational, *test)
        }
        Request::Eid => Decision::told(Reply::Eid),
        Request::NoteList { operations } => Decision::told(Reply::Notes {
            operations: *operations,
        }),
        Request::NoteSent { number } => notification_sent(heads, *number),
    }
}
