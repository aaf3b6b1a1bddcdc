ghost use Rattle.std.specs.Prelude.{◌≡◌, ◌<◌, ◌==◌, false, [], List, ℕ, None, Some, IfOk, IfSome};
ghost use Rattle.std.specs.Prelude.{OnOk, OnErr};
ghost use Rattle.apdu_codec.specs.Command.{Apdu, IsCommand, Spells, apdu_of};
ghost use Rattle.file_rows.specs.Change.{Fits};
ghost use Rattle.file_rows.specs.Content.{IsValid};
ghost use Rattle.uicc_admin.specs.Administration.{IsAdministration, admin_row};
ghost use Rattle.uicc_channels.specs.CommandOutcome.{outcome_of};
ghost use Rattle.uicc_channels.specs.CommandRow.{decided};
ghost use Rattle.uicc_channels.specs.Session.{IsOpen, Suits, fresh_session, open_channel};
ghost use Rattle.uicc_channels.specs.declared.session.TheConstants.{CHANNELS};
ghost use Rattle.uicc_data.specs.Data.{IsOnData, data_row};
ghost use Rattle.uicc_select.specs.Select.{select_row};
ghost use Rattle.uicc_select.specs.Status.{status_row};
ghost use Rattle.uicc_tree.specs.Change.{HasRoom};
ghost use Rattle.uicc_tree.specs.Files.{rows_of};
ghost use Rattle.profile_card.specs.Card.{MayFollow, allowed_at, isdr_here, outcome_at, settled};
ghost use Rattle.profile_card.specs.CardState.{HasRoomFor, TakesRoom, card_of, content_of};
ghost use Rattle.profile_card.specs.Commands.{command_row, decision, instruction_row, is_for_isdr};
ghost use Rattle.profile_card.specs.Commands.{is_known_at};
ghost use Rattle.profile_card.specs.PinCommands.{pin_row};
ghost use Rattle.profile_card.specs.Step.{Steps, silent};
ghost use Rattle.profile_card.specs.Step.Event.{Bound, Command as CommandBytes, Power, Reset};

use crate::guard::allows;
use crate::pin_commands::{PinInstruction, answer_pin_command};
use crate::pins::change_pins;
use crate::place::Place;
use apdu_codec::{Command, Sw, ins};
use case_table::{case_arms, ins_rows};
use file_rows::{Change, Content, Mode, NoMemory, PinRow, copy_pins};
use lsi_refresh::{announce, fetch, terminal_capability, terminal_profile, terminal_response};
use std::alloc::Global;
use std::marker::Model;
use uicc_admin::admin_command;
use uicc_channels::{Decided, Guard, Session, fresh, get_response, manage_channel};
use uicc_data::data_command;
use uicc_select::{select, status};
use uicc_tree::Tree;

/// What the card does for each row of the table of instructions.
macro_rules! instruction {
    (0xA4, $class:tt, ($card:expr, $command:expr, $into:expr)) => {
        $card.select($command, $into)
    };
    (0xF2, $class:tt, ($card:expr, $command:expr, $into:expr)) => {
        $card.status($command, $into)
    };
    (0xB0, $class:tt, ($card:expr, $command:expr, $into:expr)) => {
        $card.data($command, $into)
    };
    (0xD6, $class:tt, ($card:expr, $command:expr, $into:expr)) => {
        $card.data($command, $into)
    };
    (0xB2, $class:tt, ($card:expr, $command:expr, $into:expr)) => {
        $card.data($command, $into)
    };
    (0xDC, $class:tt, ($card:expr, $command:expr, $into:expr)) => {
        $card.data($command, $into)
    };
    (0xA2, $class:tt, ($card:expr, $command:expr, $into:expr)) => {
        $card.data($command, $into)
    };
    (0x32, $class:tt, ($card:expr, $command:expr, $into:expr)) => {
        $card.data($command, $into)
    };
    (0x20, $class:tt, ($card:expr, $command:expr, $into:expr)) => {
        $card.pin_command(PinInstruction::Verify, $command, $into)
    };
    (0x24, $class:tt, ($card:expr, $command:expr, $into:expr)) => {
        $card.pin_command(PinInstruction::Change, $command, $into)
    };
    (0x26, $class:tt, ($card:expr, $command:expr, $into:expr)) => {
        $card.pin_command(PinInstruction::Disable, $command, $into)
    };
    (0x28, $class:tt, ($card:expr, $command:expr, $into:expr)) => {
        $card.pin_command(PinInstruction::Enable, $command, $into)
    };
    (0x2C, $class:tt, ($card:expr, $command:expr, $into:expr)) => {
        $card.pin_command(PinInstruction::Unblock, $command, $into)
    };
    (0x70, $class:tt, ($card:expr, $command:expr, $into:expr)) => {
        manage_channel(&$card.session, $command, $into)
    };
    (0xC0, $class:tt, ($card:expr, $command:expr, $into:expr)) => {
        get_response(&$card.session, $command, $into)
    };
    (0xE0, $class:tt, ($card:expr, $command:expr, $into:expr)) => {
        $card.administer($command, $into)
    };
    (0xE4, $class:tt, ($card:expr, $command:expr, $into:expr)) => {
        $card.administer($command, $into)
    };
    (0xD4, $class:tt, ($card:expr, $command:expr, $into:expr)) => {
        $card.administer($command, $into)
    };
    (0x44, $class:tt, ($card:expr, $command:expr, $into:expr)) => {
        $card.administer($command, $into)
    };
    (0x04, $class:tt, ($card:expr, $command:expr, $into:expr)) => {
        $card.administer($command, $into)
    };
    (0xE8, $class:tt, ($card:expr, $command:expr, $into:expr)) => {
        $card.administer($command, $into)
    };
    (0x10, $class:tt, ($card:expr, $command:expr, $into:expr)) => {
        terminal_profile(&$card.session, $command, $into)
    };
    (0xAA, $class:tt, ($card:expr, $command:expr, $into:expr)) => {
        terminal_capability(&$card.session, $command, $into)
    };
    (0x12, $class:tt, ($card:expr, $command:expr, $into:expr)) => {
        fetch(&$card.session, $command, $into)
    };
    (0x14, $class:tt, ($card:expr, $command:expr, $into:expr)) => {
        terminal_response(&$card.session, $command, $into)
    };
    ($ins:tt, $class:tt, ($card:expr, $command:expr, $into:expr)) => {
        $into.set_status(Sw::WRONG_INSTRUCTION)
    };
}

// Whether a channel on which the ISD-R is selected knows the instruction.
fn is_for_isdr(ins: u8) -> bool
    ensures { result ≡ is_for_isdr ins }
{
    matches!(
        ins,
        ins::SELECT
            | ins::MANAGE_CHANNEL
            | ins::TERMINAL_PROFILE
            | ins::TERMINAL_CAPABILITY
            | ins::FETCH
            | ins::TERMINAL_RESPONSE
    )
}

/// The card of one profile at a port, or of none: a blank card. It keeps that what its session
/// names is among its files. Nothing of it is shared with another card.
#[derive(Debug, Drop)]
pub struct Card1 {
    tree: Tree,
    pins: Vec<PinRow>,
    session: Session,
    place: Place,
}

impl Model for Card1 {
    ghost use Rattle.file_rows.specs.Content.{IsValid};
    ghost use Rattle.uicc_channels.specs.Session.{Suits};
    ghost use Rattle.uicc_tree.specs.Files.{rows_of};
    ghost use Rattle.profile_card.specs.CardState.{CardState};

    ghost Value = { CardState };

    ghost view = { λ c.
        record { tree = c.tree; pins = c.pins.items; session = c.session; place = c.place } };

    ghost invariant = { λ c. IsValid (record { rows = rows_of c.tree; pins = c.pins.items })
        × Suits c.session (rows_of c.tree) };
}

impl Guard for Card1 {
    ghost use Rattle.access_rules.specs.Met.{allowed};
    ghost use Rattle.file_rows.specs.PinRow.{is_verified};
    ghost use Rattle.uicc_tree.specs.Files.{IsLive, path_of};
    ghost use Rattle.profile_card.specs.CardState.{content_of};

    ghost knows = { λ card node. IsLive card.tree node };

    ghost answer = { λ card node mode session. allowed (content_of card)
        (is_verified session.verified) (path_of card.tree node) mode };

    /// Whether the access rules of the card allow it, where these PINs are verified (ETSI TS 102
    /// 221, access rules referenced in EF ARR). It reads one record once, and takes no memory.
    fn allows(&self, node: u32, mode: Mode, session: &Session) -> bool {
        allows(&self.tree, &self.pins, node, mode, session.verified)
    }
}

impl Card1 {
    /// The card at a place that holds this content. It copies the content.
    pub fn start(
        alloc: Global,
        content: &Content,
        session: Session,
        place: Place,
    ) -> Result<Card1, NoMemory>
        requires valid { IsValid content.now }
        requires suits { Suits session content.now.rows }
        ensures { IfOk result (λ card. card_of card ≡ record {
          content = content.now;
          session = session;
          mode = place.mode;
          port = Some place.port;
        }) }
    {
        let tree = Tree::make(alloc, content.rows.as_slice())?;
        let pins = copy_pins(alloc, content.pins.as_slice())?;
        Ok(Card1 {
            tree,
            pins,
            session,
            place,
        })
    }

    /// The card at a place where no profile stands: it has no file and no PIN. It takes no memory.
    pub fn blank(alloc: Global, session: Session, place: Place) -> Card1
        requires { Suits session [] }
        ensures { card_of result ≡ record {
          content = record { rows = []; pins = [] };
          session = session;
          mode = place.mode;
          port = Some place.port;
        } }
    {
        Card1 {
            tree: Tree::new(alloc),
            pins: Vec::new(alloc),
            session,
            place,
        }
    }

    /// What a command comes to: its answer, what it does to the session, and what it changes in
    /// the content. The card stays as it is; `settle` carries it out.
    ///
    /// SELECT, STATUS, the commands on data from READ BINARY to INCREASE, VERIFY PIN, CHANGE PIN,
    /// DISABLE PIN, ENABLE PIN and UNBLOCK PIN, MANAGE CHANNEL, GET RESPONSE, CREATE FILE, DELETE
    /// FILE, RESIZE FILE, ACTIVATE FILE, DEACTIVATE FILE and TERMINATE EF, TERMINAL PROFILE,
    /// TERMINAL CAPABILITY, FETCH and TERMINAL RESPONSE (ETSI TS 102 221 and TS 102 222); any other
    /// instruction is answered `6D00`. Where the ISD-R is selected on the channel, SELECT, MANAGE
    /// CHANNEL and the last four are known alone. An answer that would end in `9000` ends in `910B`
    /// where a REFRESH waits after the command. It takes no memory, and copies no session.
    pub fn decide(&self, command: &Command) -> Decided
        requires { IsCommand command.now }
        ensures decision { outcome_at (card_of self.now) result
            ≡ decision (card_of self.now) (apdu_of command.now) }
        ensures may_follow { MayFollow (card_of self.now) (outcome_at (card_of self.now) result) }
    {
        let mut decided = Decided::new();
        self.decide_into(command, &mut decided);
        decided
    }

    /// What `decide` returns, in the place of what was decided before. Whoever decides many
    /// commands saves the copies.
    pub fn decide_into(&self, command: &Command, into: &mut Decided)
        requires { IsCommand command.now }
        ensures decision { outcome_at (card_of self.now) into.new
            ≡ decision (card_of self.now) (apdu_of command.now) }
        ensures may_follow { MayFollow (card_of self.now)
            (outcome_at (card_of self.now) into.new) }
    {
        self.answer_where_open(command, into);
        announce(&self.session, into);
    }

    // What a command comes to by its channel and its instruction.
    fn answer_where_open(&self, command: &Command, into: &mut Decided)
        requires { IsCommand command.now }
        ensures { outcome_of self.now.session into.new ≡ decided self.now.session
            (command_row (card_of self.now) (apdu_of command.now)) }
    {
        let Some(chan) = self.session.channel_at(command.channel) else {
            into.set_status(Sw::CHANNEL_NOT_SUPPORTED);
            return;
        };
        if chan.isdr && !is_for_isdr(command.ins) {
            into.set_status(Sw::WRONG_INSTRUCTION);
            return;
        }
        self.answer(command, into);
    }

    fn select(&self, command: &Command, into: &mut Decided)
        requires { IsOpen self.now.session command.now.channel }
        ensures { outcome_of self.now.session into.new ≡ decided self.now.session
            (select_row (rows_of self.now.tree) self.now.pins self.now.session
            (isdr_here (card_of self.now)) (apdu_of command.now)) }
    {
        let isdr_here = self.place.mode.has_isdr(self.place.port);
        select(
            &self.tree,
            &self.pins,
            &self.session,
            isdr_here,
            command,
            into,
        );
    }

    fn status(&self, command: &Command, into: &mut Decided)
        requires { IsOpen self.now.session command.now.channel }
        ensures { outcome_of self.now.session into.new ≡ decided self.now.session
            (status_row (rows_of self.now.tree) self.now.pins self.now.session
            (apdu_of command.now)) }
    {
        status(&self.tree, &self.pins, &self.session, command, into);
    }

    fn data(&self, command: &Command, into: &mut Decided)
        requires open { IsOpen self.now.session command.now.channel }
        requires spelled { IsCommand command.now }
        requires instruction { IsOnData command.now.ins }
        ensures { outcome_of self.now.session into.new ≡ decided self.now.session
            (data_row (rows_of self.now.tree) (allowed_at (card_of self.now)) self.now.session
            (apdu_of command.now)) }
    {
        data_command(&self.tree, self, &self.session, command, into);
    }

    fn administer(&self, command: &Command, into: &mut Decided)
        requires open { IsOpen self.now.session command.now.channel }
        requires spelled { IsCommand command.now }
        requires instruction { IsAdministration command.now.ins }
        ensures { outcome_of self.now.session into.new ≡ decided self.now.session
            (admin_row (rows_of self.now.tree) (allowed_at (card_of self.now)) self.now.session
            (apdu_of command.now)) }
    {
        admin_command(&self.tree, self, &self.session, command, into);
    }

    fn pin_command(&self, instruction: PinInstruction, command: &Command, into: &mut Decided)
        requires open { IsOpen self.now.session command.now.channel }
        requires spelled { IsCommand command.now }
        ensures { outcome_of self.now.session into.new ≡ decided self.now.session
            (pin_row instruction self.now.pins self.now.session (apdu_of command.now)) }
    {
        answer_pin_command(instruction, &self.pins, &self.session, command, into);
    }

    // What a command comes to by its instruction, on an open channel that knows it.
    fn answer(&self, command: &Command, into: &mut Decided)
        requires spelled { IsCommand command.now }
        requires open { IsOpen self.now.session command.now.channel }
        ensures { outcome_of self.now.session into.new ≡ decided self.now.session
            (instruction_row (card_of self.now) (apdu_of command.now)) }
    {
        ins_rows!(case_arms: command.ins, instruction(self, command, into),
            into.set_status(Sw::WRONG_INSTRUCTION))
    }

    /// Takes the memory that `settle` needs for a change. Without it nothing changes. Only FileAdd
    /// and FileSize need any.
    pub fn reserve(&mut self, change: &Change) -> Result<(), NoMemory>
        requires { Fits (content_of self.old) change.now }
        ensures card { card_of self.new ≡ card_of self.old }
        ensures room { OnOk result (HasRoom self.new.tree change.now) }
        ensures refused { OnErr result (TakesRoom change.now) }
    {
        match change {
            Change::FileAdd { .. } | Change::FileSize { .. } => self.tree.reserve(change),
            _ => Ok(()),
        }
    }

    /// Carries out what `decide` answered: the change of the content, for which memory was
    /// reserved, and what happens to the session, in place. What `decide` answers to a command and
    /// `settle` carries out is one step of the card. It takes no memory, and copies at most the
    /// channels that the command changes.
    pub fn settle(&mut self, decided: &Decided)
        requires may_follow { MayFollow (card_of self.old)
            (outcome_at (card_of self.old) decided.now) }
        requires room { HasRoomFor self.old decided.now.change }
        ensures card { card_of self.new ≡ settled (card_of self.old) decided.now }
        ensures place { self.new.place ≡ self.old.place }
        ensures step { (bytes : List ℕ) (c : Apdu) → Spells bytes c
            → outcome_at (card_of self.old) decided.now ≡ decision (card_of self.old) c
            → Steps (card_of self.old) (CommandBytes bytes)
            (record {
              answer = Some decided.now.answer;
              card = card_of self.new;
              change = decided.now.change;
            }) }
    {
        self.carry_out(decided);
    }

    fn carry_out(&mut self, decided: &Decided)
        requires may_follow { MayFollow (card_of self.old)
            (outcome_at (card_of self.old) decided.now) }
        requires room { HasRoomFor self.old decided.now.change }
        ensures card { card_of self.new ≡ settled (card_of self.old) decided.now }
        ensures place { self.new.place ≡ self.old.place }
    {
        if let Some(change) = &decided.change {
            self.tree.apply(change);
            change_pins(&mut self.pins, change);
        }
        self.session.apply(&decided.session);
    }

    /// Gives the card a fresh session, as `fresh` makes it: for a reset of its port and for a
    /// power cycle, with no REFRESH and no kept channel, and for a new binding on its port. It
    /// takes no memory.
    pub fn reset(&mut self, refresh: bool, kept: Option<u8>)
        requires { IfSome kept (λ number. number < CHANNELS) }
        ensures session { self.new ≡ record self.old { session = fresh_session refresh kept } }
        ensures reset { refresh ≡ false → kept ≡ None
            → Steps (card_of self.old) Reset (silent (card_of self.new)) }
        ensures power { refresh ≡ false → kept ≡ None
            → Steps (card_of self.old) Power (silent (card_of self.new)) }
        ensures bound { Steps (card_of self.old) (Bound self.old.place.port refresh kept)
            (silent (card_of self.new)) }
    {
        self.session = fresh(refresh, kept);
    }
}
