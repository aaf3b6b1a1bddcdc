ghost use Rattle.std.specs.Prelude.{◌≡◌, ◌≢◌, ◌++◌, ℕ, Some, None};
ghost use Rattle.apdu_codec.specs.Command.{Apdu};
ghost use Rattle.file_rows.specs.Content.{IsValid};
ghost use Rattle.file_rows.specs.declared.content.Content.{Content};
ghost use Rattle.uicc_channels.specs.CarriesOut.{CanCarryOut};
ghost use Rattle.uicc_channels.specs.ChannelLaws.{ChangesChannelsAlone, IsLowestClosed, IsRefusal};
ghost use Rattle.uicc_channels.specs.ChannelLaws.{StaysButWaiting};
ghost use Rattle.uicc_channels.specs.CommandOutcome.{refused};
ghost use Rattle.uicc_channels.specs.CommandRow.{decided};
ghost use Rattle.uicc_channels.specs.GetResponse.{get_response_row};
ghost use Rattle.uicc_channels.specs.ManageChannel.{manage_channel_row, opened_from};
ghost use Rattle.uicc_channels.specs.Session.{IsOpen, Suits, channel_at, open_channel};
ghost use Rattle.uicc_channels.specs.declared.chan.Chan.{Chan};
ghost use Rattle.uicc_channels.specs.declared.session.Session.{Session};

/// A channel that MANAGE CHANNEL opens is the lowest that was closed, and stands as it is opened
/// from the command's channel. A channel that it closes is the one of P2, and never the basic one.
pub fn the_lowest_closed_channel_opens()
    ensures lowest { (session : Session) (c : Apdu) (number : ℕ)
        → channel_at session number ≡ None
        → IsOpen (decided session (manage_channel_row session c)).session number
        → IsLowestClosed session number }
    ensures stands { (session : Session) (c : Apdu) (number : ℕ)
        → channel_at session number ≡ None
        → IsOpen (decided session (manage_channel_row session c)).session number
        → channel_at (decided session (manage_channel_row session c)).session number
        ≡ Some (opened_from c.channel (open_channel session c.channel)) }
    ensures closed { (session : Session) (c : Apdu) (number : ℕ) → IsOpen session number
        → channel_at (decided session (manage_channel_row session c)).session number ≡ None
        → (number ≡ c.p2) × (number ≢ 0) }
{}

/// Where MANAGE CHANNEL closes a channel every other one stays as it is, with what waits on it.
/// Where it opens one, so does every channel that is open, but for what waits on the command's
/// own. GET RESPONSE changes at most what waits on the command's channel.
pub fn other_channels_stay()
    ensures closing { (session : Session) (c : Apdu) (number : ℕ) → c.p1 ≡ 0x80
        → number ≢ c.p2
        → channel_at (decided session (manage_channel_row session c)).session number
        ≡ channel_at session number }
    ensures opening { (session : Session) (c : Apdu) (number : ℕ) → c.p1 ≡ 0x00
        → IsOpen session number → number ≢ c.channel
        → channel_at (decided session (manage_channel_row session c)).session number
        ≡ channel_at session number }
    ensures own { (session : Session) (c : Apdu) (chan : Chan) → c.p1 ≡ 0x00
        → channel_at session c.channel ≡ Some chan
        → StaysButWaiting (decided session (manage_channel_row session c)).session
        c.channel chan }
    ensures get_response { (session : Session) (c : Apdu) (number : ℕ) → number ≢ c.channel
        → channel_at (decided session (get_response_row session c)).session number
        ≡ channel_at session number }
    ensures get_response_own { (session : Session) (c : Apdu) (chan : Chan)
        → channel_at session c.channel ≡ Some chan
        → StaysButWaiting (decided session (get_response_row session c)).session
        c.channel chan }
{}

/// Neither command changes what is verified, how far a REFRESH has come, or content.
pub fn channel_commands_change_channels_alone()
    ensures manage_channel { (session : Session) (c : Apdu)
        → ChangesChannelsAlone session (decided session (manage_channel_row session c)) }
    ensures get_response { (session : Session) (c : Apdu)
        → ChangesChannelsAlone session (decided session (get_response_row session c)) }
{}

/// Where one of these commands is answered with another status word than `9000` and `61XX`, that is
/// the whole answer, and nothing changes.
pub fn refused_channel_commands_change_nothing()
    ensures manage_channel { (session : Session) (c : Apdu)
        → IsRefusal (decided session (manage_channel_row session c)).answer.sw
        → decided session (manage_channel_row session c)
        ≡ refused session (decided session (manage_channel_row session c)).answer.sw }
    ensures get_response { (session : Session) (c : Apdu)
        → IsRefusal (decided session (get_response_row session c)).answer.sw
        → decided session (get_response_row session c)
        ≡ refused session (decided session (get_response_row session c)).answer.sw }
{}

/// A card can carry out what each of these commands comes to, accepted or refused: a session that
/// suits its files goes on to suit them, so every open channel names what is among them.
pub fn cards_carry_out_channel_commands()
    ensures manage_channel { (content : Content) (session : Session) (c : Apdu)
        → IsValid content → Suits session content.rows
        → CanCarryOut content (decided session (manage_channel_row session c)) }
    ensures get_response { (content : Content) (session : Session) (c : Apdu)
        → Suits session content.rows
        → CanCarryOut content (decided session (get_response_row session c)) }
{}

/// What GET RESPONSE gives and what waits on the channel afterwards are together what waited
/// before. So one after the other give the bytes that wait in their order.
pub fn waiting_bytes_are_given_in_order()
    ensures once { (session : Session) (c : Apdu)
        → (decided session (get_response_row session c)).answer.body
        ++ (open_channel (decided session (get_response_row session c)).session c.channel).pending
        ≡ (open_channel session c.channel).pending }
    ensures twice { (session : Session) (c : Apdu) (next : Apdu) → next.channel ≡ c.channel
        → let first = decided session (get_response_row session c) in
        let second = decided first.session (get_response_row first.session next) in
        first.answer.body ++ second.answer.body
        ++ (open_channel second.session c.channel).pending
        ≡ (open_channel session c.channel).pending }
{}
