//! What a card answers.
ghost use Rattle.std.specs.Prelude.{◌≡◌, ◌≤◌, length};
ghost use Rattle.apdu_codec.specs.Answer.{status_alone};

use crate::Sw;
use plain_lists::ShortList;

/// The bytes of an answer before its status word, at most 256.
pub type AnswerBody = ShortList<u8, 256>;

/// An answer: its body, and then its status word.
#[derive(Debug, Drop)]
pub struct Answer {
    pub body: AnswerBody,
    pub sw: Sw,
}

impl Answer {
    /// A status word without an answer body.
    pub fn status(sw: Sw) -> Answer
        ensures { result ≡ status_alone sw }
    {
        Answer {
            body: AnswerBody::new(),
            sw,
        }
    }

    /// It is this status word without an answer body, whatever it was before.
    pub fn set_status(&mut self, sw: Sw)
        ensures { self.new ≡ status_alone sw }
    {
        self.body.clear();
        self.sw = sw;
    }

    /// It has this body, of at most 256 bytes, and this status word, whatever it was before.
    pub fn set(&mut self, body: &[u8], sw: Sw)
        requires { length body.now ≤ 256 }
        ensures { self.new ≡ record { body = body.now; sw = sw } }
    {
        self.body.clear();
        self.body.extend_from_slice(body);
        self.sw = sw;
    }
}
