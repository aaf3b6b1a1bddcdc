//! Random events at a whole card, each of whose profiles answers as a card that holds it alone.
ghost use Rattle.std.specs.Prelude.{◌≡◌, ◌<◌, IfOk, IfSome};
ghost use Rattle.apdu_codec.specs.Command.{IsCommand};
ghost use Rattle.profile_card.specs.Card.{MayFollow, outcome_at};
ghost use Rattle.profile_card.specs.CardState.{card_of};
ghost use Rattle.record_codec.specs.IsDurable.{IsDurable};
ghost use Rattle.uicc_channels.specs.declared.session.TheConstants.{CHANNELS};

use super::cards::{installation, new_card, store};
use super::events::random_events;
use super::*;
use crate::{Entry, Event, Line, content_on, may_come, profile_on, pure_run};
use apdu_codec::{Command, ins};
use file_rows::{Change, Path, Piece};
use lsi_refresh::{Lsi, read_lsi};
use profile_card::{Card1, Place};
use record_codec::{Durable, Record};
use std::ops::Range;
use std::process::Abort;
use uicc_channels::{CHANNELS, Decided, Session, fresh};

const PORTS: u8 = 4;

// A profile alone: where it stands on the whole card, and its card, which keeps its first place. Of
// a port it matters only whether the ISD-R may be selected there: in MEP-B on each, and in MEP-A1
// and MEP-A2 on none where a profile stands.
#[derive(Drop)]
struct Alone {
    profile: u16,
    on: Option<u8>,
    card: Card1,
    // The session of the card, which shows none of it.
    session: Session,
    // How many answers were compared.
    compared: u32,
}

// Reserves memory where there is a change, and carries out what was decided.
fn carry_out(card: &mut Card1, decided: &Decided) -> Result<(), Fail>
    requires { MayFollow (card_of card.old) (outcome_at (card_of card.old) decided.now) }
{
    match &decided.change {
        None => card.settle(decided),
        Some(change) => {
            card.reserve(change)?;
            card.settle(decided);
        }
    }
    Ok(())
}

// The answer of a statement.
fn answer_of(line: &Line) -> Option<&Answer> {
    match line {
        Line::Answered { answer, .. } => Some(answer),
        _ => None,
    }
}

// Whether a statement made the line at its own port.
fn is_of_statement(entry: &Entry) -> bool {
    matches!(
        entry.line,
        Line::Answered { .. } | Line::OwnReset { .. } | Line::Loaded { .. }
    )
}

impl Alone {
    fn restart(&mut self, refresh: bool, kept: Option<u8>)
        requires { IfSome kept (λ channel. channel < CHANNELS) }
    {
        self.card.reset(refresh, kept);
        self.session = fresh(refresh, kept);
    }

    // It comes to a port.
    fn come(&mut self, port: u8, refresh: bool, kept: Option<u8>) {
        self.on = Some(port);
        match kept {
            Some(channel) if usize::from(channel) < CHANNELS => self.restart(refresh, kept),
            _ => self.restart(refresh, None),
        }
    }

    // What a line of the log tells of the profile.
    fn hear(&mut self, entry: &Entry) {
        match &entry.line {
            Line::OwnReset { .. } | Line::ForeignReset { .. } if self.on == Some(entry.port) => {
                self.restart(false, None);
            }
            Line::Unbound { profile, .. } if *profile == self.profile => self.on = None,
            Line::Bound {
                profile,
                refresh,
                kept,
                ..
            } if *profile == self.profile => self.come(entry.port, *refresh, *kept),
            _ => (),
        }
    }

    // Whether the common part of the whole card answers a command in the place of the profile's
    // card.
    fn is_common(&self, command: &Command) -> bool {
        match self.session.channel_at(command.channel) {
            None => false,
            Some(chan) => match command.ins {
                ins::MANAGE_LSI => true,
                ins::STORE_DATA | ins::GET_RESPONSE => chan.isdr,
                _ => false,
            },
        }
    }

    // What the common part does to the card: a MANAGE LSI may reset the port on which it comes.
    fn take_common(&mut self, command: &Command) {
        let is_lsi = command.ins == ins::MANAGE_LSI;
        let resets = match read_lsi(command, PORTS) {
            Ok(Lsi::Reset(port)) => self.on == Some(port),
            _ => false,
        };
        if is_lsi && resets {
            self.restart(false, None);
        }
    }

    fn own_answer(&mut self, command: &Command) -> Result<Answer, Fail>
        requires { IsCommand command.now }
    {
        let decided = self.card.decide(command);
        carry_out(&mut self.card, &decided)?;
        self.session.apply(&decided.session);
        Ok(decided.answer)
    }

    fn is_answer(&mut self, its: &Answer, answer: &Answer) -> bool {
        self.compared = self.compared.wrapping_add(1);
        its.body.as_slice() == answer.body.as_slice() && its.sw == answer.sw
    }

    // Whether bytes at its port are answered as the card alone answers them, where they are its own
    // command.
    fn answers(&mut self, bytes: &[u8], answer: &Answer) -> Result<bool, Fail> {
        let its = match read_command(bytes) {
            Err(sw) => Answer::status(sw),
            Ok(command) => {
                if self.is_common(&command) {
                    self.take_common(&command);
                    return Ok(true);
                }
                self.own_answer(&command)?
            }
        };
        Ok(self.is_answer(&its, answer))
    }

    // Whether it answers bytes as the line tells, where they came to its port.
    fn answers_line(&mut self, bytes: &[u8], entry: &Entry) -> Result<bool, Fail> {
        match answer_of(&entry.line) {
            Some(answer) if self.on == Some(entry.port) => self.answers(bytes, answer),
            _ => Ok(true),
        }
    }
}

fn restart_all(cards: &mut [Alone]) {
    for its in cards.iter_mut() {
        its.restart(false, None);
    }
}

fn all_hear(cards: &mut [Alone], entry: &Entry) {
    for its in cards.iter_mut() {
        its.hear(entry);
    }
}

fn all_answer(cards: &mut [Alone], bytes: &[u8], entry: &Entry) -> Result<bool, Fail> {
    let mut all = true;
    for its in cards.iter_mut() {
        all = its.answers_line(bytes, entry)? && all;
    }
    Ok(all)
}

// The lines of the log from that of the next statement on. The cards hear of those before it.
fn behind_others<'a>(cards: &mut [Alone], entries: &'a [Entry]) -> &'a [Entry] {
    let count = entries.len();
    let next = entries.iter().position(|entry| is_of_statement(entry));
    let (others, rest) = entries.split_at(next.unwrap_or(count).min(count));
    for entry in others {
        all_hear(cards, entry);
    }
    rest
}

// Whether the profiles answer as alone where an event comes, of which these are the lines and those
// of later ones; and the later ones' lines.
fn take_event<'a>(
    cards: &mut [Alone],
    event: &Event,
    entries: &'a [Entry],
) -> Result<(bool, &'a [Entry]), Fail> {
    let bytes = match event {
        Event::Power => {
            restart_all(cards);
            return Ok((true, entries));
        }
        Event::Apdu { bytes, .. } => bytes.as_slice(),
        Event::Reset { .. } | Event::Load { .. } => &[],
    };
    let Some((entry, others)) = entries.split_first() else {
        return Ok((false, entries));
    };
    let alike = all_answer(cards, bytes, entry)?;
    all_hear(cards, entry);
    Ok((alike, behind_others(cards, others)))
}

// Whether each profile answers all of the events as alone.
fn answer_as_alone(cards: &mut [Alone], events: &[Event], entries: &[Entry]) -> Result<bool, Fail> {
    let mut rest = entries;
    let mut all = true;
    for event in events {
        let (alike, later) = take_event(cards, event, rest)?;
        all = all && alike;
        rest = later;
    }
    Ok(all && rest.is_empty())
}

// The card of the profile on a port of a card that was just opened.
fn card_alone(alloc: Global, start: &Durable, port: u8) -> Result<Card1, Fail>
    requires { IsDurable start.now }
{
    let session = fresh(false, None);
    let place = Place {
        port,
        mode: start.heads.ports.mode,
    };
    match content_on(start, port) {
        Some(content) => Ok(Card1::start(alloc, content, session, place)?),
        None => Err(Fail::from("a profile")),
    }
}

fn alone_on(alloc: Global, start: &Durable, port: u8) -> Result<Alone, Fail>
    requires { IsDurable start.now }
{
    let Some(profile) = profile_on(start, port) else {
        return Err(Fail::from("a profile"));
    };
    Ok(Alone {
        profile,
        on: Some(port),
        card: card_alone(alloc, start, port)?,
        session: fresh(false, None),
        compared: 0,
    })
}

// Installs a profile on a port, with an ICCID of its own in its file.
fn install_on(
    rt: &impl Abort,
    alloc: Global,
    held: &mut Durable,
    port: u8,
    number: u16,
) -> Result<(), Fail>
    requires { IsDurable held.old }
    ensures { IsDurable held.new }
{
    let last = 0xF0 | port;
    let class = if port == 3 { 0 } else { 2 };
    let change = Change::WriteRange {
        path: Path::from_slice(&[0x2FE2]),
        offset: 9,
        bytes: Piece::from_slice(&[last]),
    };
    store(rt, held, &installation(alloc, number, last, class)?)?;
    let profile = number;
    store(rt, held, &Record::Content { profile, change })?;
    let displaced = None;
    let bind = Record::Bind {
        profile,
        port,
        displaced,
    };
    store(rt, held, &bind)
}

// Three profiles, on ports 1 to 3.
fn three(rt: &impl Abort, alloc: Global, mode: PortMode) -> Result<Durable, Fail>
    ensures { IfOk result (λ held. IsDurable held) }
{
    let mut held = new_card(alloc, mode, PORTS)?;
    install_on(rt, alloc, &mut held, 1, 0x1100)?;
    install_on(rt, alloc, &mut held, 2, 0x1101)?;
    install_on(rt, alloc, &mut held, 3, 0x1102)?;
    Ok(held)
}

// Whether each profile answers a list of random events as alone, and to how many commands.
fn compare(alloc: Global, start: &Durable, seed: u64) -> Result<(bool, u32), Fail>
    requires { IsDurable start.now }
{
    let events = random_events(alloc, seed)?;
    if !may_come(start.heads.ports.count, events.as_slice()) {
        return Err(Fail::from("events of the card"));
    }
    let world = pure_run(alloc, start, events.as_slice())?;
    let mut cards = [
        alone_on(alloc, start, 1)?,
        alone_on(alloc, start, 2)?,
        alone_on(alloc, start, 3)?,
    ];
    let alike = answer_as_alone(&mut cards, events.as_slice(), world.entries())?;
    let mut compared = 0;
    for its in &cards {
        compared = its.compared.wrapping_add(compared);
    }
    Ok((alike, compared))
}

// Each profile answers these lists of random events as alone; to how many commands, is returned.
fn compare_lists(
    rt: &impl Abort,
    alloc: Global,
    start: &Durable,
    seeds: Range<u64>,
) -> Result<u32, Fail>
    requires { IsDurable start.now }
{
    let mut all = 0u32;
    for seed in seeds {
        let (alike, compared) = compare(alloc, start, seed)?;
        assert!(rt; alike, "list {seed}");
        all = all.wrapping_add(compared);
    }
    Ok(all)
}

#[test]
fn profiles_answer_random_events_as_alone(rt: HostRuntime) -> Result<(), Fail> {
    let alloc = rt.alloc();
    let lists = [
        (PortMode::A1, 0..67),
        (PortMode::A2, 67..134),
        (PortMode::B, 134..200),
    ];
    for (mode, seeds) in lists {
        let start = three(&rt, alloc, mode)?;
        let compared = compare_lists(&rt, alloc, &start, seeds)?;
        assert!(rt; 1_000 < compared, "{compared}");
    }
    Ok(())
}
