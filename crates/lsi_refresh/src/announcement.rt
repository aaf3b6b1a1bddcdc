ghost use Rattle.std.specs.Prelude.{◌≡◌};
ghost use Rattle.lsi_refresh.specs.Announcement.{announced};
ghost use Rattle.uicc_channels.specs.CommandOutcome.{outcome_of};

use apdu_codec::Sw;
use uicc_channels::{Decided, Refresh, Session};

/// Announces a REFRESH that waits after a command (ETSI TS 102 221, normal ending with a proactive
/// command).
///
/// The session is the one before the command, and `into` what was decided on it. Where the REFRESH
/// waits to be fetched after the command, an answer that ends in `9000` ends in `910B`; its body
/// stays. Every other answer stays, and so does all else that was decided. A card calls it once,
/// over every command. It takes no memory.
pub fn announce(session: &Session, into: &mut Decided)
    ensures { outcome_of session.now into.new ≡ announced (outcome_of session.now into.old) }
{
    let refresh = into.session.refresh.unwrap_or(session.refresh);
    if refresh == Refresh::Announced && into.answer.sw == Sw::OK {
        into.answer.sw = Sw::PROACTIVE;
    }
}
