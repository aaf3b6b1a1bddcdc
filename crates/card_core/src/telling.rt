// The lines of the log about ports that move.
ghost use Rattle.std.specs.Prelude.{◌≡◌, ◌++◌, OnOk};
ghost use Rattle.std.specs.List.{flat_map};
ghost use Rattle.card_core.specs.IsdrCommand.{bound_line, kept_told, line_told, move_lines};
ghost use Rattle.card_core.specs.IsdrCommand.{moves_lines, other_move_lines, own_move_lines};
ghost use Rattle.card_core.specs.IsdrCommand.{unbound_line};

use crate::{Entry, Line, Maker, NoMemory};
use isdr_commands::Move;
use plain_lists::LongList;

/// How the lines about the moves of a request tell of them: after so many shared statements, by
/// this statement, which came on that channel and whose record has this number.
#[derive(Clone, Copy, Debug)]
pub struct Telling {
    pub turn: u32,
    pub by: Maker,
    pub channel: u8,
    pub commit: u32,
}

impl Telling {
    // A line about a port.
    fn entry(&self, port: u8, line: Line) -> Entry
        ensures { result ≡ line_told self.now port line }
    {
        Entry {
            turn: self.turn,
            port,
            line,
        }
    }

    // The channel that stays open at a port.
    fn kept(&self, port: u8) -> Option<u8>
        ensures { result ≡ kept_told self.now port }
    {
        if port == self.by.port {
            Some(self.channel)
        } else {
            None
        }
    }

    // The line about the profile that leaves a port, where one does.
    fn add_unbound(&self, its: &Move, entries: &mut LongList<Entry>) -> Result<(), NoMemory>
        ensures { OnOk result (entries.new
            ≡ entries.old ++ unbound_line self.now its.now its.now.leaves) }
    {
        match its.leaves {
            Some(profile) => {
                let line = Line::Unbound {
                    profile,
                    refresh: its.refresh,
                    kept: self.kept(its.port),
                    by: self.by,
                    commit: self.commit,
                };
                entries.push(self.entry(its.port, line))
            }
            None => Ok(()),
        }
    }

    // The line about the profile that comes to a port, where one does.
    fn add_bound(&self, its: &Move, entries: &mut LongList<Entry>) -> Result<(), NoMemory>
        ensures { OnOk result (entries.new
            ≡ entries.old ++ bound_line self.now its.now its.now.comes) }
    {
        match its.comes {
            Some(profile) => {
                let line = Line::Bound {
                    profile,
                    refresh: its.refresh,
                    kept: self.kept(its.port),
                    by: self.by,
                    commit: self.commit,
                };
                entries.push(self.entry(its.port, line))
            }
            None => Ok(()),
        }
    }

    fn add_move(&self, its: &Move, entries: &mut LongList<Entry>) -> Result<(), NoMemory>
        ensures { OnOk result (entries.new ≡ entries.old ++ move_lines self.now its.now) }
    {
        self.add_unbound(its, entries)?;
        self.add_bound(its, entries)
    }

    fn add_own_move(&self, its: &Move, entries: &mut LongList<Entry>) -> Result<(), NoMemory>
        ensures { OnOk result (entries.new ≡ entries.old ++ own_move_lines self.now its.now) }
    {
        if its.port == self.by.port {
            self.add_move(its, entries)
        } else {
            Ok(())
        }
    }

    fn add_other_move(&self, its: &Move, entries: &mut LongList<Entry>) -> Result<(), NoMemory>
        ensures { OnOk result (entries.new ≡ entries.old ++ other_move_lines self.now its.now) }
    {
        if its.port == self.by.port {
            Ok(())
        } else {
            self.add_move(its, entries)
        }
    }

    fn add_own(&self, moves: &[Move], entries: &mut LongList<Entry>) -> Result<(), NoMemory>
        ensures { OnOk result (entries.new
            ≡ entries.old ++ flat_map (own_move_lines self.now) moves.now) }
    {
        for its in moves {
            self.add_own_move(its, entries)?;
        }
        Ok(())
    }

    fn add_others(&self, moves: &[Move], entries: &mut LongList<Entry>) -> Result<(), NoMemory>
        ensures { OnOk result (entries.new
            ≡ entries.old ++ flat_map (other_move_lines self.now) moves.now) }
    {
        for its in moves {
            self.add_other_move(its, entries)?;
        }
        Ok(())
    }

    /// Adds the lines about the ports that move: those about the own port first.
    pub fn add_moves(&self, moves: &[Move], entries: &mut LongList<Entry>) -> Result<(), NoMemory>
        ensures { OnOk result (entries.new ≡ entries.old ++ moves_lines self.now moves.now) }
    {
        self.add_own(moves, entries)?;
        self.add_others(moves, entries)
    }
}
