// Resets of ports, MANAGE LSI and power cycles.
ghost use Rattle.std.specs.Prelude.{ℕ, ◌≡◌, ◌==◌, ◌<◌, OnOk, [], ◌∷◌, ◌++◌, Some};
ghost use Rattle.std.specs.Prelude.{if◌then◌else◌, length, slice_get};
ghost use Rattle.apdu_codec.specs.Command.{apdu_of};
ghost use Rattle.card_core.specs.AtPort.{IsRestarted};
ghost use Rattle.card_core.specs.ManageLsi.{lsi_made, lsi_reset};
ghost use Rattle.card_core.specs.PortReset.{reset_made};
ghost use Rattle.card_core.specs.Whole.{Came, IsWholeCard, MayGoOn, world_state};
ghost use Rattle.card_core.specs.World.{entry_at, opened};
ghost use Rattle.card_core.specs.declared.entry.Line.TheVariants as lines;
ghost use Rattle.card_core.specs.declared.port.Port as ports_of;

use super::World;
use crate::{Line, Maker, NoMemory, Port};
use apdu_codec::{Answer, Command, Sw};
use lsi_refresh::{Lsi, count_body, read_lsi};

fn restart_ports(ports: &mut [Port])
    ensures length { length ports.new ≡ length ports.old }
    ensures each { (number : ℕ) (before after : ports_of.Port)
        → slice_get ports.old number ≡ Some before → slice_get ports.new number ≡ Some after
        → IsRestarted before after }
{
    for port in ports.iter_mut() {
        port.restart();
    }
}

impl World {
    // The reset of a port by its own statement.
    pub(super) fn reset(&mut self, came: u8) -> Result<(), NoMemory>
        requires whole { IsWholeCard self.old }
        requires may { MayGoOn (world_state self.old) came }
        ensures { OnOk result (Came self.old self.new (reset_made (world_state self.old) came)) }
    {
        let port = &mut self.ports[usize::from(came)];
        let number = port.next_number();
        port.reset();
        port.count();
        self.tell(came, Line::OwnReset { number })
    }

    // Adds a line about a port that was reset by this statement, where that came on another port.
    fn tell_reset(&mut self, port: u8, by: Maker) -> Result<(), NoMemory>
        ensures entries { OnOk result (self.new.entries ≡ self.old.entries
            ++ (if port == by.port then []
            else entry_at (world_state self.old) port (lines.ForeignReset by) ∷ [])) }
        ensures durable { self.new.durable ≡ self.old.durable }
        ensures ports { self.new.ports ≡ self.old.ports }
        ensures shared { self.new.shared ≡ self.old.shared }
        ensures commits { self.new.commits ≡ self.old.commits }
    {
        if port == by.port {
            Ok(())
        } else {
            self.tell(port, Line::ForeignReset { by })
        }
    }

    // A MANAGE LSI that resets a port.
    fn reset_by_lsi(&mut self, came: u8, port: u8) -> Result<(), NoMemory>
        requires whole { IsWholeCard self.old }
        requires may { MayGoOn (world_state self.old) came }
        requires port { port < self.old.durable.heads.ports.count }
        ensures { OnOk result (Came self.old self.new
            (lsi_reset (world_state self.old) came port)) }
    {
        let sender = &mut self.ports[usize::from(came)];
        let number = sender.next_number();
        sender.count();
        self.ports[usize::from(port)].reset();
        let line = Line::Answered {
            number,
            answer: Answer::status(Sw::OK),
            cause: None,
        };
        self.tell(came, line)?;
        self.tell_reset(port, Maker { port: came, number })?;
        self.shared += 1;
        Ok(())
    }

    // MANAGE LSI on an open channel.
    pub(super) fn manage_lsi(&mut self, came: u8, command: &Command) -> Result<(), NoMemory>
        requires whole { IsWholeCard self.old }
        requires may { MayGoOn (world_state self.old) came }
        ensures { OnOk result (Came self.old self.new
            (lsi_made (world_state self.old) came (apdu_of command.now))) }
    {
        let ports = self.durable.heads.ports.count;
        match read_lsi(command, ports) {
            Ok(Lsi::Count) => {
                let mut answer = Answer::status(Sw::OK);
                answer.set(&count_body(ports), Sw::OK);
                self.answered(came, answer)
            }
            Ok(Lsi::Reset(port)) => self.reset_by_lsi(came, port),
            Err(sw) => self.answered(came, Answer::status(sw)),
        }
    }

    // A power cycle. It takes no memory.
    pub(super) fn power(&mut self)
        requires { IsWholeCard self.old }
        ensures { Came self.old self.new
            (record { state = opened self.old.durable; entries = [] }) }
    {
        restart_ports(&mut self.ports);
        self.shared = 0;
        self.commits = 0;
    }
}
