ghost use Rattle.std.specs.Prelude.{ℕ, Ok, ◌<◌, ◌≡◌, ◌≢◌, ◌+◌, ◌++◌, List, [], ◌∷◌, length};
ghost use Rattle.apdu_codec.specs.Command.{Apdu};
ghost use Rattle.apdu_codec.specs.declared.status.TheConstants.Sw.{OK, PROACTIVE};
ghost use Rattle.file_rows.specs.declared.row.FileRow.{FileRow};
ghost use Rattle.lsi_refresh.specs.Announcement.{announced};
ghost use Rattle.lsi_refresh.specs.Fetch.{fetch_row};
ghost use Rattle.lsi_refresh.specs.Lsi.{lsi_of};
ghost use Rattle.lsi_refresh.specs.declared.lsi.Lsi.TheVariants.{Count, Reset};
ghost use Rattle.lsi_refresh.specs.RefreshCommand.{refresh_command, short_object};
ghost use Rattle.lsi_refresh.specs.RefreshState.{ChangesRefreshAlone};
ghost use Rattle.lsi_refresh.specs.TerminalCapability.{terminal_capability_row};
ghost use Rattle.lsi_refresh.specs.TerminalProfile.{terminal_profile_row};
ghost use Rattle.lsi_refresh.specs.TerminalResponse.{terminal_response_row};
ghost use Rattle.uicc_channels.specs.CommandOutcome.{CommandOutcome, refused};
ghost use Rattle.uicc_channels.specs.CommandRow.{decided};
ghost use Rattle.uicc_channels.specs.Session.{Suits};
ghost use Rattle.uicc_channels.specs.declared.session.Refresh.TheVariants.{Announced, Fetched};
ghost use Rattle.uicc_channels.specs.declared.session.Refresh.TheVariants.{Quiet};
ghost use Rattle.uicc_channels.specs.declared.session.Session.{Session};

/// The command that FETCH gives is a REFRESH (ETSI TS 102 223): a proactive command with two data
/// objects, the details of the command, which is number 1, a REFRESH by a reset of the UICC, and
/// its devices, from the UICC to the terminal. `910B` announces its length.
pub fn the_command_fetched_is_a_refresh()
    ensures objects { refresh_command
        ≡ short_object 0xD0 (short_object 0x81 (0x01 ∷ 0x01 ∷ 0x04 ∷ [])
        ++ short_object 0x82 (0x81 ∷ 0x82 ∷ [])) }
    ensures announced { PROACTIVE.0 ≡ 0x9100 + length refresh_command }
{}

/// FETCH is accepted only where a REFRESH was announced, which is then fetched, and TERMINAL
/// RESPONSE only where one was fetched, which then is over. TERMINAL PROFILE and TERMINAL
/// CAPABILITY leave every session as it is.
pub fn refreshes_go_by_fetch_and_terminal_response()
    ensures fetch { (session : Session) (c : Apdu)
        → (decided session (fetch_row session c)).answer.sw ≡ OK
        → (session.refresh ≡ Announced)
        × ((decided session (fetch_row session c)).session.refresh ≡ Fetched) }
    ensures terminal_response { (session : Session) (c : Apdu)
        → (decided session (terminal_response_row session c)).answer.sw ≡ OK
        → (session.refresh ≡ Fetched)
        × ((decided session (terminal_response_row session c)).session.refresh ≡ Quiet) }
    ensures terminal_profile { (session : Session) (c : Apdu)
        → (decided session (terminal_profile_row session c)).session ≡ session }
    ensures terminal_capability { (session : Session) (c : Apdu)
        → (decided session (terminal_capability_row session c)).session ≡ session }
{}

/// Of the session each of these commands changes at most how far the REFRESH has come, and none
/// changes content.
pub fn terminal_commands_change_the_refresh_alone()
    ensures fetch { (session : Session) (c : Apdu)
        → ChangesRefreshAlone session (decided session (fetch_row session c)) }
    ensures terminal_response { (session : Session) (c : Apdu)
        → ChangesRefreshAlone session (decided session (terminal_response_row session c)) }
    ensures terminal_profile { (session : Session) (c : Apdu)
        → ChangesRefreshAlone session (decided session (terminal_profile_row session c)) }
    ensures terminal_capability { (session : Session) (c : Apdu)
        → ChangesRefreshAlone session (decided session (terminal_capability_row session c)) }
{}

/// Where one of these commands is answered with another status word than `9000`, that is the whole
/// answer, and nothing changes.
pub fn refused_terminal_commands_change_nothing()
    ensures fetch { (session : Session) (c : Apdu)
        → (decided session (fetch_row session c)).answer.sw ≢ OK
        → decided session (fetch_row session c)
        ≡ refused session (decided session (fetch_row session c)).answer.sw }
    ensures terminal_response { (session : Session) (c : Apdu)
        → (decided session (terminal_response_row session c)).answer.sw ≢ OK
        → decided session (terminal_response_row session c)
        ≡ refused session (decided session (terminal_response_row session c)).answer.sw }
    ensures terminal_profile { (session : Session) (c : Apdu)
        → (decided session (terminal_profile_row session c)).answer.sw ≢ OK
        → decided session (terminal_profile_row session c)
        ≡ refused session (decided session (terminal_profile_row session c)).answer.sw }
    ensures terminal_capability { (session : Session) (c : Apdu)
        → (decided session (terminal_capability_row session c)).answer.sw ≢ OK
        → decided session (terminal_capability_row session c)
        ≡ refused session (decided session (terminal_capability_row session c)).answer.sw }
{}

/// A session that suits a card's files goes on to suit them after each of these commands, accepted
/// or refused.
pub fn sessions_suit_after_terminal_commands()
    ensures fetch { (session : Session) (rows : List FileRow) (c : Apdu) → Suits session rows
        → Suits (decided session (fetch_row session c)).session rows }
    ensures terminal_response { (session : Session) (rows : List FileRow) (c : Apdu)
        → Suits session rows
        → Suits (decided session (terminal_response_row session c)).session rows }
    ensures terminal_profile { (session : Session) (rows : List FileRow) (c : Apdu)
        → Suits session rows
        → Suits (decided session (terminal_profile_row session c)).session rows }
    ensures terminal_capability { (session : Session) (rows : List FileRow) (c : Apdu)
        → Suits session rows
        → Suits (decided session (terminal_capability_row session c)).session rows }
{}

/// An answer that would end in `9000` ends in `910B` just where a REFRESH waits after its command.
/// Every other answer stays, as that of a refused command and those of FETCH and TERMINAL RESPONSE
/// do. The body of an answer stays, and so does what the command did to session and content.
pub fn announcements_are_of_what_waits()
    ensures waits { (outcome : CommandOutcome) → outcome.session.refresh ≡ Announced
        → outcome.answer.sw ≡ OK → (announced outcome).answer.sw ≡ PROACTIVE }
    ensures none_waits { (outcome : CommandOutcome) → outcome.session.refresh ≢ Announced
        → announced outcome ≡ outcome }
    ensures other { (outcome : CommandOutcome) → outcome.answer.sw ≢ OK
        → announced outcome ≡ outcome }
    ensures fetch { (session : Session) (c : Apdu)
        → announced (decided session (fetch_row session c))
        ≡ decided session (fetch_row session c) }
    ensures terminal_response { (session : Session) (c : Apdu)
        → announced (decided session (terminal_response_row session c))
        ≡ decided session (terminal_response_row session c) }
    ensures body { (outcome : CommandOutcome)
        → (announced outcome).answer.body ≡ outcome.answer.body }
    ensures session { (outcome : CommandOutcome)
        → (announced outcome).session ≡ outcome.session }
    ensures content { (outcome : CommandOutcome)
        → (announced outcome).change ≡ outcome.change }
{}

/// A MANAGE LSI that is taken has class byte `80`: it is a command of no channel but the basic one.
/// It resets the port that P2 names, which is one of the card's; and it asks for the number of
/// ports with P1 and P2 00 alone.
pub fn resets_are_of_ports()
    ensures reset { (c : Apdu) (ports port : ℕ) → lsi_of c ports ≡ Ok (Reset port)
        → (c.channel ≡ 0) × (c.p1 ≡ 0x01) × (c.p2 ≡ port) × (port < ports) × (c.body ≡ []) }
    ensures count { (c : Apdu) (ports : ℕ) → lsi_of c ports ≡ Ok Count
        → (c.channel ≡ 0) × (c.p1 ≡ 0x00) × (c.p2 ≡ 0x00) × (c.body ≡ []) }
{}
