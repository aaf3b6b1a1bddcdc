ghost use Rattle.std.specs.Prelude.{◌≡◌, ◌≤◌, ◌<◌, length, IfOk};
ghost use Rattle.isdr_commands.specs.Request.{answer_to, managed};

use crate::decision::Decision;
use crate::requests::decide;
use crate::{Moves, NoMemory};
use isdr_codec::{Request, put_reply};
use record_codec::{Heads, Record};
use std::alloc::Global;

/// What a request to the ISD-R comes to: the bytes of its answer, the record that carries it out,
/// where it changes anything, and the ports whose profile changes, each once.
#[derive(Debug, Drop)]
pub struct Managed {
    pub answer: Vec<u8>,
    pub entry: Option<Record>,
    pub moves: Moves,
}

/// What a request to the ISD-R comes to on a card with these heads (GSMA SGP.22, ES10b and ES10c,
/// with Multiple Enabled Profiles). It came on the port `port`, and `busy` says of each port
/// whether its REFRESH isn't over; ports are counted from 0.
///
/// GetProfilesInfo, GetEID and ListNotification are answered with what the heads have. The answer
/// of the others is a result, the first of these that holds:
///
/// - EnableProfile: 1 the profile isn't found, 2 it isn't disabled, 7 or 9 it has no target port
///   (`Ports::target`), 3 the profile on that port has PPR1, 5 the REFRESH of that port isn't over,
///   127, 0.
/// - DisableProfile: 1 it isn't found, 2 it isn't enabled, 3 it has PPR1, 5 the REFRESH of its port
///   isn't over, 127, 0.
/// - DeleteProfile: 1 it isn't found, 2 it isn't disabled, 3 it has PPR2, 127, 0.
/// - eUICCMemoryReset: 1 none of its profiles is held, 5 the REFRESH of one of their ports isn't
///   over, 127, 0.
/// - SetNickname and NotificationSent: 1 the profile or the notification isn't found, 0.
///
/// 127 comes where the notifications that the request makes find no room. There is a record just
/// where the result is 0, and only there do ports move.
///
/// It looks at each profile, port and notification a few times, and takes memory for the answer
/// alone. Out of memory leaves all as it was.
pub fn manage(
    alloc: Global,
    heads: &Heads,
    busy: &[bool; 8],
    port: u8,
    request: &Request,
) -> Result<Managed, NoMemory>
    requires places { length heads.now.ports.on ≡ heads.now.ports.count }
    requires few { heads.now.ports.count ≤ 8 }
    requires came { port < heads.now.ports.count }
    requires notes { length heads.now.notes.list ≤ 256 }
    ensures answer { IfOk result
        (λ its. its.answer.items ≡ answer_to heads.now busy.now port request.now) }
    ensures entry { IfOk result
        (λ its. its.entry ≡ (managed heads.now busy.now port request.now).entry) }
    ensures moves { IfOk result
        (λ its. its.moves ≡ (managed heads.now busy.now port request.now).moves) }
{
    let Decision {
        reply,
        entry,
        moves,
    } = decide(heads, busy, port, request);
    let answer = put_reply(alloc, &reply, heads)?;
    Ok(Managed {
        answer,
        entry,
        moves,
    })
}
