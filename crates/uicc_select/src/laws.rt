ghost use Rattle.std.specs.Prelude.{◌≡◌, Bool, List, [], ◌∷◌};
ghost use Rattle.apdu_codec.specs.Command.{Apdu};
ghost use Rattle.file_rows.specs.Content.{IsValid};
ghost use Rattle.file_rows.specs.declared.content.Content.{Content};
ghost use Rattle.uicc_channels.specs.Accepted.{IsDoneOrRefused};
ghost use Rattle.uicc_channels.specs.ChannelLaws.{StaysOnChannel};
ghost use Rattle.uicc_channels.specs.CommandRow.{decided};
ghost use Rattle.uicc_channels.specs.Session.{Suits};
ghost use Rattle.uicc_channels.specs.declared.session.Session.{Session};
ghost use Rattle.uicc_select.specs.Select.{select_row};
ghost use Rattle.uicc_select.specs.Status.{status_row};

use crate::selection::ISDR_AID;

/// The AID of the ISD-R is the one that GSMA SGP.02 and SGP.22 give it.
pub fn the_isdr_has_its_aid()
    ensures { ISDR_AID ≡ 0xA0 ∷ 0x00 ∷ 0x00 ∷ 0x05 ∷ 0x59 ∷ 0x10 ∷ 0x10 ∷ 0xFF ∷ 0xFF ∷ 0xFF ∷ 0xFF
        ∷ 0x89 ∷ 0x00 ∷ 0x00 ∷ 0x01 ∷ 0x00 ∷ [] }
{}

/// A session that suits a valid content goes on to suit it after every SELECT and STATUS, accepted
/// or refused: the current directory, the current EF and the application of each channel are files
/// of the card.
pub fn sessions_suit_after_selection()
    ensures select { (content : Content) (session : Session) (isdr_here : Bool) (c : Apdu)
        → IsValid content
        → Suits session content.rows
        → Suits (decided session
        (select_row content.rows content.pins session isdr_here c)).session content.rows }
    ensures status { (content : Content) (session : Session) (c : Apdu) → IsValid content
        → Suits session content.rows
        → Suits (decided session
        (status_row content.rows content.pins session c)).session content.rows }
{}

/// SELECT and STATUS leave every channel but their own as it is, and change neither what is
/// verified, nor how far a REFRESH has come, nor content.
pub fn selection_stays_on_its_channel()
    ensures select { (content : Content) (session : Session) (isdr_here : Bool) (c : Apdu)
        → StaysOnChannel session c.channel (decided session
        (select_row content.rows content.pins session isdr_here c)) }
    ensures status { (content : Content) (session : Session) (c : Apdu)
        → StaysOnChannel session c.channel (decided session
        (status_row content.rows content.pins session c)) }
{}

/// Where SELECT or STATUS is answered with a status word that doesn't accept it, that is the whole
/// answer, and nothing changes.
pub fn refused_selection_changes_nothing()
    ensures select { (content : Content) (session : Session) (isdr_here : Bool) (c : Apdu)
        → IsDoneOrRefused session (decided session
        (select_row content.rows content.pins session isdr_here c)) }
    ensures status { (content : Content) (session : Session) (c : Apdu)
        → IsDoneOrRefused session (decided session
        (status_row content.rows content.pins session c)) }
{}
