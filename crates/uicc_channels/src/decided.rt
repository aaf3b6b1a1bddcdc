ghost use Rattle.std.specs.Prelude.{◌≡◌};
ghost use Rattle.uicc_channels.specs.CommandOutcome.{status_decision};

use crate::SessionChange;
use apdu_codec::{Answer, Sw};
use file_rows::Change;

/// What a card decides on a command: its answer, what it does to the session, and what it changes
/// in the content.
///
/// It is large, and most commands use little of it. So each layer writes into one that its caller
/// lends, and a caller may use one for all commands.
#[derive(Debug, Drop)]
pub struct Decided {
    pub answer: Answer,
    pub session: SessionChange,
    pub change: Option<Change>,
}

impl Decided {
    /// The answer `9000`, with which nothing changes.
    pub fn new() -> Decided
        ensures { result ≡ status_decision Sw.OK }
    {
        Decided {
            answer: Answer::status(Sw::OK),
            session: SessionChange::none(),
            change: None,
        }
    }

    /// The answer is this status word alone, and nothing changes, whatever was decided before.
    pub fn set_status(&mut self, sw: Sw)
        ensures { self.new ≡ status_decision sw }
    {
        self.answer.set_status(sw);
        self.session.clear();
        if self.change.is_some() {
            self.change = None;
        }
    }
}
