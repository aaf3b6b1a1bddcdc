ghost use Rattle.std.specs.Prelude.{◌≡◌};

use crate::Session;
use file_rows::Mode;

/// What the access rules of a card allow (ETSI TS 102 221, security features). Each command on a
/// file asks it, by the file's node.
pub trait Guard {
    ghost use Rattle.std.specs.Prelude.{ℕ, Bool};
    ghost use Rattle.file_rows.specs.declared.mode.Mode.{Mode};
    ghost use Rattle.uicc_channels.specs.declared.session.Session.{Session};

    // The nodes about which it can be asked.
    ghost knows: { Self → ℕ → Type 0 };

    // What it answers.
    ghost answer: { Self → ℕ → Mode → Session → Bool };

    /// Whether the file of a node may be used in a mode in this session.
    fn allows(&self, node: u32, mode: Mode, session: &Session) -> bool
        requires { knows self.now node }
        ensures { result ≡ answer self.now node mode session.now };
}
