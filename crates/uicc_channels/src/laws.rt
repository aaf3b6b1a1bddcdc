ghost use Rattle.std.specs.Prelude.{◌≡◌, ◌≢◌, ◌<◌, ◌≤◌, ◌^◌, ℕ, Bool, List, Option, Some, None};
ghost use Rattle.std.specs.Prelude.{IsSome};
ghost use Rattle.apdu_codec.specs.Command.{Apdu};
ghost use Rattle.file_rows.specs.Content.{IsValid};
ghost use Rattle.file_rows.specs.declared.content.Content.{Content};
ghost use Rattle.file_rows.specs.declared.row.FileRow.{FileRow};
ghost use Rattle.uicc_channels.specs.Chan.{StandsAmong, at_isdr, at_master, holding};
ghost use Rattle.uicc_channels.specs.Delivery.{delivered};
ghost use Rattle.uicc_channels.specs.Session.{Suits, channel_at, fresh_session, with_channel};
ghost use Rattle.uicc_channels.specs.Verified.{verified_after};
ghost use Rattle.file_rows.specs.PinRow.{is_verified};
ghost use Rattle.uicc_channels.specs.declared.chan.Chan.{Chan};
ghost use Rattle.uicc_channels.specs.declared.session.Session.{Session};
ghost use Rattle.uicc_channels.specs.declared.session.TheConstants.{CHANNELS};

/// After a reset the kept channel has the ISD-R selected, channel 0 stands at the MF unless it is
/// kept, and every other channel is closed.
pub fn fresh_sessions_have_their_channels()
    ensures kept { (refresh : Bool) (number : ℕ) → number < CHANNELS
        → channel_at (fresh_session refresh (Some number)) number ≡ Some at_isdr }
    ensures basic { (refresh : Bool) (kept : Option ℕ) → kept ≢ Some 0
        → channel_at (fresh_session refresh kept) 0 ≡ Some at_master }
    ensures closed { (refresh : Bool) (kept : Option ℕ) (number : ℕ) → number ≢ 0
        → kept ≢ Some number
        → channel_at (fresh_session refresh kept) number ≡ None }
{}

/// The delivery of an answer body changes no content, and of the session at most what waits on the
/// command's channel: the body comes to wait there where there is no Le, and with an Le the
/// session stays as it is.
pub fn answers_stay_on_their_channel()
    ensures waits { (session : Session) (c : Apdu) (body : List ℕ) (chan : Chan) → c.le ≡ None
        → channel_at session c.channel ≡ Some chan
        → channel_at (delivered session c body).session c.channel ≡ Some (holding body chan) }
    ensures given { (session : Session) (c : Apdu) (body : List ℕ) → IsSome c.le
        → (delivered session c body).session ≡ session }
    ensures others { (session : Session) (c : Apdu) (body : List ℕ) (number : ℕ)
        → number ≢ c.channel
        → channel_at (delivered session c body).session number ≡ channel_at session number }
    ensures verified { (session : Session) (c : Apdu) (body : List ℕ)
        → (delivered session c body).session.verified ≡ session.verified }
    ensures refresh { (session : Session) (c : Apdu) (body : List ℕ)
        → (delivered session c body).session.refresh ≡ session.refresh }
    ensures content { (session : Session) (c : Apdu) (body : List ℕ)
        → (delivered session c body).change ≡ None }
{}

/// A fresh session suits every valid content. A session that suits a card's files goes on to suit
/// them after a delivery, after a channel was opened or moved among them, and after a channel
/// other than the basic one was closed.
pub fn sessions_suit_their_cards()
    ensures fresh { (content : Content) (refresh : Bool) (kept : Option ℕ) → IsValid content
        → Suits (fresh_session refresh kept) content.rows }
    ensures delivered { (session : Session) (rows : List FileRow) (c : Apdu) (body : List ℕ)
        → Suits session rows
        → Suits (delivered session c body).session rows }
    ensures opened { (session : Session) (rows : List FileRow) (number : ℕ) (chan : Chan)
        → Suits session rows
        → StandsAmong rows chan → Suits (with_channel session number (Some chan)) rows }
    ensures closed { (session : Session) (rows : List FileRow) (number : ℕ) → Suits session rows
        → number ≢ 0 → Suits (with_channel session number None) rows }
{}

/// A PIN that comes to be verified, or no longer is, is so afterwards, and every other PIN is as
/// it was.
pub fn verified_pins_stand_apart()
    ensures same { (verified number : ℕ) (now : Bool) → verified < 2 ^ 32 → 1 ≤ number → number ≤ 32
        → is_verified (verified_after verified number now) number ≡ now }
    ensures others { (verified number other : ℕ) (now : Bool) → verified < 2 ^ 32 → 1 ≤ number
        → number ≤ 32
        → 1 ≤ other → other ≤ 32 → other ≢ number
        → is_verified (verified_after verified number now) other ≡ is_verified verified other }
{}
