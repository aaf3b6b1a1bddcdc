ghost use Rattle.std.specs.Prelude.{◌≡◌, [], ◌∷◌};
ghost use Rattle.isdr_commands.specs.Decision.{accepted, refused_with, refusal_number, told};

use crate::refusal::Refusal;
use crate::{Move, Moves};
use isdr_codec::Reply;
use record_codec::Record;

/// What a request comes to: its reply, the record that carries it out, where it changes anything,
/// and the ports whose profile changes, each once.
#[derive(Debug, Drop)]
pub struct Decision {
    pub reply: Reply,
    pub entry: Option<Record>,
    pub moves: Moves,
}

impl Decision {
    // A reply alone: nothing is recorded and no port moves.
    pub fn told(reply: Reply) -> Self
        ensures { result ≡ told reply }
    {
        Decision {
            reply,
            entry: None,
            moves: Moves::new(),
        }
    }

    // A refusal.
    pub fn refused(tag: u32, refusal: Refusal) -> Self
        ensures { result ≡ refused_with tag (refusal_number refusal) }
    {
        Decision::told(Reply::Outcome {
            tag,
            result: refusal.number(),
        })
    }

    // Result 0, with the record and the ports that move.
    pub fn accepted(tag: u32, entry: Record, moves: Moves) -> Self
        ensures { result ≡ accepted tag entry moves }
    {
        Decision {
            reply: Reply::Outcome { tag, result: 0 },
            entry: Some(entry),
            moves,
        }
    }

    // Result 0, with the record and the one port that moves.
    pub fn moved(tag: u32, entry: Record, moved: Move) -> Self
        ensures { result ≡ accepted tag entry (moved ∷ []) }
    {
        Decision::accepted(tag, entry, Moves::from_slice(&[moved]))
    }
}
