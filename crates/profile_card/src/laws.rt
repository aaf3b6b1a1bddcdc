ghost use Rattle.std.specs.Prelude.{◌≡◌, ◌≢◌, ℕ, ◌<◌, ◌≤◌, ◌^◌, Bool, true, false, List, [], ◌∷◌};
ghost use Rattle.std.specs.Prelude.{IfSome, Option, Some};
ghost use Rattle.apdu_codec.specs.Command.{Apdu};
ghost use Rattle.apdu_codec.specs.Sw.{bytes_waiting, tries_left, wrong_le};
ghost use Rattle.apdu_codec.specs.declared.answers.Answer.{Answer};
ghost use Rattle.case_table.specs.CaseRows.{value_of};
ghost use Rattle.uicc_channels.specs.Accepted.{IsDoneOrRefused, is_accepted};
ghost use Rattle.uicc_channels.specs.ChannelLaws.{LeavesOthers};
ghost use Rattle.uicc_channels.specs.CommandOutcome.{refused};
ghost use Rattle.file_rows.specs.Content.{file_at, use_of};
ghost use Rattle.file_rows.specs.PinRow.{is_verified};
ghost use Rattle.file_rows.specs.declared.row.FileRow.{FileRow};
ghost use Rattle.profile_card.specs.Card.{Card, IsSound, card_after};
ghost use Rattle.profile_card.specs.Commands.{decision};
ghost use Rattle.profile_card.specs.Failing.{is_failing};
ghost use Rattle.profile_card.specs.PinCommands.{is_pin_instruction};
ghost use Rattle.profile_card.specs.Own.{is_common};
ghost use Rattle.profile_card.specs.Reach.{WorksOn};
ghost use Rattle.profile_card.specs.Refused.{ChangesTriesAlone};
ghost use Rattle.profile_card.specs.Step.{Event, Outcome, Runs, Steps};
ghost use Rattle.profile_card.specs.Step.Event.{Bound, Power, Reset};
ghost use Rattle.profile_card.specs.Tables.{classes_of};

use apdu_codec::Sw;
use case_table::{INS_ROWS, STATUS_ROWS};

/// Each event at a card has one outcome.
pub fn events_have_one_outcome()
    ensures some { (card : Card) (event : Event) → (outcome : Outcome) × Steps card event outcome }
    ensures once { (card : Card) (event : Event) (one other : Outcome) → Steps card event one
        → Steps card event other → one ≡ other }
{}

/// To any commands a card at a port gives answers, and to the same commands the same ones.
pub fn commands_have_one_run()
    ensures some { (card : Card) (port : ℕ) (commands : List (List ℕ)) → card.port ≡ Some port
        → (answers : List Answer) × Runs card commands answers }
    ensures once { (card : Card) (commands : List (List ℕ)) (one other : List Answer)
        → Runs card commands one
        → Runs card commands other → one ≡ other }
{}

/// Each event leaves a card that holds what a card may hold, with a session that names what is
/// there. What its files take never exceeds the quota of 65,536 bytes.
pub fn cards_stay_sound()
    ensures sound { (card : Card) (event : Event) (outcome : Outcome) → IsSound card
        → Steps card event outcome
        → IsSound outcome.card }
    ensures quota { (card : Card) (event : Event) (outcome : Outcome) → IsSound card
        → Steps card event outcome
        → use_of outcome.card.content.rows ≤ 65536 }
{}

/// A command that isn't accepted changes nothing but the tries left of a PIN and of its PUK, and
/// which PINs are verified. One that isn't a PIN command is answered with its status word alone and
/// changes nothing at all.
pub fn refused_commands_change_nothing()
    ensures tries { (card : Card) (c : Apdu) → is_accepted (decision card c).answer.sw ≡ false
        → ChangesTriesAlone card (decision card c) }
    ensures others { (card : Card) (c : Apdu) → is_pin_instruction c.ins ≡ false
        → IsDoneOrRefused card.session (decision card c) }
{}

/// What a command does on one channel leaves every other channel as it is. MANAGE CHANNEL alone
/// opens and closes another, and RESIZE FILE drops record pointers past a new end.
pub fn commands_stay_on_their_channel()
    ensures { (card : Card) (c : Apdu) → c.ins ≢ 0x70 → c.ins ≢ 0xD4
        → LeavesOthers card.session c.channel (decision card c).session }
{}

/// No command changes a file that is there but the one that it works on: the current EF of its
/// channel, a file that it names there by SFI or identifier, and with DELETE FILE what is below it.
pub fn commands_change_the_file_they_work_on()
    ensures { (card : Card) (c : Apdu) (path : List ℕ) (row : FileRow) → IsSound card
        → file_at path card.content.rows ≡ Some row
        → ¬ WorksOn card c path
        → file_at path (card_after card (decision card c)).content.rows ≡ Some row }
{}

/// What is verified ends with the session: after a reset of its port, a power cycle and a new port
/// no PIN of the card is verified.
pub fn verification_ends_with_the_session()
    ensures reset { (card : Card) (port number : ℕ) (outcome : Outcome) → card.port ≡ Some port
        → Steps card Reset outcome
        → is_verified outcome.card.session.verified number ≡ false }
    ensures power { (card : Card) (port number : ℕ) (outcome : Outcome) → card.port ≡ Some port
        → Steps card Power outcome
        → is_verified outcome.card.session.verified number ≡ false }
    ensures bound { (card : Card) (port number : ℕ) (refresh : Bool) (kept : Option ℕ)
        (outcome : Outcome)
        → Steps card (Bound port refresh kept) outcome
        → is_verified outcome.card.session.verified number ≡ false }
{}

/// What the common part of an eUICC answers in a card's place is unknown to the card itself: it
/// would answer `6D00`, and nothing would change.
pub fn common_commands_are_unknown_to_the_card()
    ensures { (card : Card) (c : Apdu) → is_common card.session c ≡ true
        → decision card c ≡ refused card.session Sw.WRONG_INSTRUCTION }
{}

/// A card by itself answers nothing with `6F00` or `6581`. These say that memory was wanting, or
/// that what a command changes wasn't stored.
pub fn no_command_fails_by_itself()
    ensures { (card : Card) (event : Event) (outcome : Outcome) → IsSound card
        → Steps card event outcome
        → IfSome outcome.answer (λ answer. is_failing answer.sw ≡ false) }
{}

/// The table of instructions has just the instructions of a UICC, each with the classes that fit
/// it.
pub fn the_table_of_instructions_has_their_classes()
    ensures { (ins : ℕ) → ins < 2 ^ 8 → value_of INS_ROWS ins ≡ classes_of ins }
{}

/// The table of status words has just those that the card's commands answer, each once; the digits
/// of a count are 0.
pub fn the_table_of_status_words_has_each()
    ensures { STATUS_ROWS.keys
        ≡ Sw.OK.0 ∷ Sw.PROACTIVE.0 ∷ (bytes_waiting 256).0 ∷ (wrong_le 256).0
        ∷ Sw.NOT_FOUND_IN_RECORDS.0 ∷ Sw.SELECTED_DEACTIVATED.0 ∷ Sw.SELECTED_TERMINATED.0
        ∷ (tries_left 0).0 ∷ Sw.MEMORY_PROBLEM.0 ∷ Sw.WRONG_LENGTH.0
        ∷ Sw.CHANNEL_NOT_SUPPORTED.0 ∷ Sw.SECURE_MESSAGING_NOT_SUPPORTED.0
        ∷ Sw.INCOMPATIBLE_STRUCTURE.0 ∷ Sw.SECURITY_NOT_SATISFIED.0 ∷ Sw.PIN_BLOCKED.0
        ∷ Sw.DATA_BLOCKED.0 ∷ Sw.CONDITIONS_NOT_SATISFIED.0 ∷ Sw.NO_CURRENT_EF.0
        ∷ Sw.WRONG_DATA.0 ∷ Sw.FUNCTION_NOT_SUPPORTED.0 ∷ Sw.FILE_NOT_FOUND.0
        ∷ Sw.RECORD_NOT_FOUND.0 ∷ Sw.NOT_ENOUGH_SPACE.0 ∷ Sw.WRONG_P1_P2.0
        ∷ Sw.DATA_NOT_FOUND.0 ∷ Sw.FILE_EXISTS.0 ∷ Sw.NAME_EXISTS.0 ∷ Sw.WRONG_OFFSET.0
        ∷ Sw.WRONG_INSTRUCTION.0 ∷ Sw.WRONG_CLASS.0 ∷ Sw.TECHNICAL_PROBLEM.0
        ∷ Sw.MAXIMUM_REACHED.0 ∷ [] }
{}
