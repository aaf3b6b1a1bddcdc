// Random events for a card with four ports and three profiles.
ghost use Rattle.std.specs.Prelude.{◌≤◌, ◌<◌};

use crate::Event;
use plain_lists::LongList;
use std::alloc::{AllocError, Global};

// Numbers that look random, by a linear congruential generator.
#[derive(Drop)]
pub(super) struct Draws(u64);

impl Draws {
    pub(super) fn new(seed: u64) -> Self {
        Draws(seed)
    }

    // A number below this.
    fn below(&mut self, count: u8) -> u8
        requires { 1 ≤ count }
        ensures { result < count }
    {
        self.0 = self
            .0
            .wrapping_mul(6_364_136_223_846_793_005)
            .wrapping_add(1_442_695_040_888_963_407);
        ((self.0 >> 33) % u64::from(count)) as u8
    }

    // Once in so many times.
    fn rarely(&mut self, count: u8) -> bool
        requires { 1 ≤ count }
    {
        self.below(count) == 0
    }

    // Channel 0, or now and then 1.
    fn channel(&mut self) -> u8 {
        u8::from(self.rarely(4))
    }
}

// Commands on channel 0: the class byte, the other bytes, and how many random ones follow.
const COMMANDS: [(u8, &[u8], u8); 24] = [
    // SELECT: the MF, its files, one that isn't there, and parameters that are waiting then
    (0x00, b"\xA4\x00\x0C\x02\x3F\x00", 0),
    (0x00, b"\xA4\x00\x0C\x02\x2F\xE2", 0),
    (0x00, b"\xA4\x00\x0C\x02\x2F\x05", 0),
    (0x00, b"\xA4\x00\x0C\x02\x2F\x08", 0),
    (0x00, b"\xA4\x00\x0C\x02\x6F\x07", 0),
    (0x00, b"\xA4\x00\x04\x02\x2F\xE2", 0),
    (0x00, b"\xC0\x00\x00\x00", 0),
    // READ BINARY and UPDATE BINARY of the current file, and by short file identifiers
    (0x00, b"\xB0\x00\x00\x00", 0),
    (0x00, b"\xB0\x82\x00\x00", 0),
    (0x00, b"\xB0\x85\x00\x02", 0),
    (0x00, b"\xB0\x88\x00\x05", 0),
    (0x00, b"\xD6\x00\x00\x02", 2),
    (0x00, b"\xD6\x85\x00\x02", 2),
    (0x00, b"\xD6\x88\x00\x05", 5),
    // VERIFY PIN: the PIN, another one, and the tries that are left
    (0x00, b"\x20\x00\x01\x081234\xFF\xFF\xFF\xFF", 0),
    (0x00, b"\x20\x00\x01\x081234\xFF\xFF\xFF\xFF", 0),
    (0x00, b"\x20\x00\x01\x080000\xFF\xFF\xFF\xFF", 0),
    (0x00, b"\x20\x00\x01", 0),
    // MANAGE CHANNEL: a channel is opened, and channel 1 closed
    (0x00, b"\x70\x00\x00\x01", 0),
    (0x00, b"\x70\x80\x01", 0),
    // FETCH and TERMINAL RESPONSE, which end a REFRESH, the number of ports, and no command
    (0x80, b"\x12\x00\x00\x0B", 0),
    (
        0x80,
        b"\x14\x00\x00\x0C\x81\x03\x01\x01\x04\x82\x02\x82\x81\x83\x01\x00",
        0,
    ),
    (0x80, b"\x7A\x00\x00\x03", 0),
    (0x00, b"\xA4\x00", 0),
];

const SELECT_ISDR: &[u8] =
    b"\xA4\x04\x00\x10\xA0\x00\x00\x05\x59\x10\x10\xFF\xFF\xFF\xFF\x89\x00\x00\x01\x00";

// The ICCID of a profile up to its last byte.
const ICCID: &[u8] = b"\xA0\x0C\x5A\x0A\x98\x94\x00\x00\x00\x00\x00\x00\x00";

fn command_at(port: u8, bytes: Vec<u8>) -> Event {
    Event::Apdu {
        port,
        bytes: LongList::from(bytes),
    }
}

// One of the commands, on channel 0 or 1.
fn command(alloc: Global, draws: &mut Draws) -> Result<Vec<u8>, AllocError> {
    let mut bytes = Vec::new(alloc);
    if let Some((class, others, more)) = COMMANDS.get(usize::from(draws.below(24))) {
        bytes.push(*class | draws.channel())?;
        bytes.extend_from_slice(others)?;
        for _ in 0..*more {
            bytes.push(draws.below(255))?;
        }
    }
    Ok(bytes)
}

// The length and the bytes of GetProfilesInfo, eUICCMemoryReset for test profiles, EnableProfile or
// DisableProfile.
fn push_request(bytes: &mut Vec<u8>, draws: &mut Draws) -> Result<(), AllocError> {
    let last = 0xF1 + draws.below(3);
    let refresh = u8::from(draws.rarely(4));
    match draws.below(16) {
        0 => bytes.extend_from_slice(b"\x03\xBF\x2D\x00"),
        1 => bytes.extend_from_slice(b"\x07\xBF\x34\x04\x82\x02\x06\x40"),
        2..=9 => {
            bytes.extend_from_slice(b"\x17\xBF\x31\x14")?;
            bytes.extend_from_slice(ICCID)?;
            bytes.extend_from_slice(&[last, 0x81, 0x01, refresh, 0x82, 0x01, 1 + draws.below(3)])
        }
        _ => {
            bytes.extend_from_slice(b"\x14\xBF\x32\x11")?;
            bytes.extend_from_slice(ICCID)?;
            bytes.extend_from_slice(&[last, 0x81, 0x01, refresh])
        }
    }
}

// The ISD-R is selected on channel 0 or 1 of a port, and gets a request by STORE DATA.
fn push_management(
    alloc: Global,
    events: &mut Vec<Event>,
    port: u8,
    draws: &mut Draws,
) -> Result<(), AllocError> {
    let channel = draws.channel();
    let mut select = Vec::from_slice(alloc, &[channel])?;
    select.extend_from_slice(SELECT_ISDR)?;
    events.push(command_at(port, select))?;
    let mut store = Vec::from_slice(alloc, &[0x80 | channel, 0xE2, 0x91, 0x00])?;
    push_request(&mut store, draws)?;
    if !draws.rarely(4) {
        store.push(0x00)?;
    }
    events.push(command_at(port, store))?;
    Ok(())
}

fn push_event(alloc: Global, events: &mut Vec<Event>, draws: &mut Draws) -> Result<(), AllocError> {
    let port = draws.below(4);
    match draws.below(32) {
        0..=5 => push_management(alloc, events, 0, draws)?,
        6..=8 => push_management(alloc, events, port, draws)?,
        9 => {
            let reset = Vec::from_slice(alloc, &[0x80, 0x7A, 0x01, draws.below(4)])?;
            events.push(command_at(port, reset))?;
        }
        10 => events.push(Event::Reset { port })?,
        11 if draws.rarely(2) => events.push(Event::Power)?,
        _ => events.push(command_at(port, command(alloc, draws)?))?,
    }
    Ok(())
}

// Between 50 and 100 events.
pub(super) fn random_events(alloc: Global, seed: u64) -> Result<Vec<Event>, AllocError> {
    let mut draws = Draws::new(seed);
    let mut events = Vec::new(alloc);
    for _ in 0..50 {
        push_event(alloc, &mut events, &mut draws)?;
    }
    Ok(events)
}
