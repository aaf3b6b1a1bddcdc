//! What the desk decides on a command.
ghost use Rattle.std.specs.Prelude.{◌≡◌};
ghost use Rattle.apdu_codec.specs.Answer.{status_alone};
ghost use Rattle.card_core.specs.Carried.{deciding};

use crate::{Collection, Unsent};
use apdu_codec::{Answer, Sw};
use isdr_commands::Moves;
use record_codec::Record;

/// What a STORE DATA or a GET RESPONSE on a channel with the ISD-R comes to: its answer, the record
/// that carries it out, where it changes what the card keeps, the ports whose profile changes, and
/// what becomes of what is under way on the channel. `Desk::carry_out` makes that last part so.
#[derive(Debug, Drop)]
pub struct DeskDecision {
    pub answer: Answer,
    pub entry: Option<Record>,
    pub moves: Moves,
    pub exchange: ExchangeChange,
}

/// What becomes of what is under way on a channel with the ISD-R.
#[derive(Debug, Drop)]
pub enum ExchangeChange {
    /// All stays.
    Stays,
    /// The blocks that have come are dropped.
    Dropped,
    /// One more block has come, and the unsent reply is dropped.
    Collects(Collection),
    /// The request is over, and this is left of its reply.
    Replies(Unsent),
    /// So many bytes more of the reply are sent.
    Sends(usize),
}

impl DeskDecision {
    // An answer that records nothing and moves no port.
    pub(crate) fn answering(answer: Answer, exchange: ExchangeChange) -> Self
        ensures { result ≡ deciding answer exchange }
    {
        DeskDecision {
            answer,
            entry: None,
            moves: Moves::new(),
            exchange,
        }
    }

    // A refusal with which nothing changes.
    pub(crate) fn refused(sw: Sw) -> Self
        ensures { result ≡ deciding (status_alone sw) ExchangeChange.Stays }
    {
        DeskDecision::answering(Answer::status(sw), ExchangeChange::Stays)
    }

    // A refusal with which the blocks that have come are dropped.
    pub(crate) fn dropped(sw: Sw) -> Self
        ensures { result ≡ deciding (status_alone sw) ExchangeChange.Dropped }
    {
        DeskDecision::answering(Answer::status(sw), ExchangeChange::Dropped)
    }

    // A block is taken, and more follow.
    pub(crate) fn collected(collection: Collection) -> Self
        ensures { result
            ≡ deciding (status_alone Sw.OK) (ExchangeChange.Collects collection) }
    {
        DeskDecision::answering(Answer::status(Sw::OK), ExchangeChange::Collects(collection))
    }
}
