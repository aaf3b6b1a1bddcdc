//! A script as far as it has been read.
ghost use Rattle.std.specs.Prelude.{◌≡◌, OnOk, IfOk, IfErr};
ghost use Rattle.script_text.specs.Draft.{HasRoomIfStated, HasStatementRoom, CountsStatements};
ghost use Rattle.script_text.specs.Draft.{IsNotAdded};
ghost use Rattle.script_text.specs.Draft.{NamesPortIfStated, empty_script, finished};
ghost use Rattle.script_text.specs.Draft.{script_so_far, with_item};
ghost use Rattle.script_text.specs.Item.Item.{Stated, PhaseEnd, SectionEnd};
ghost use Rattle.script_text.specs.Lent.{lent_item, statement_of};
ghost use Rattle.script_text.specs.Ports.{NamesPort};
ghost use Rattle.script_text.specs.Script.{script_of};

use crate::item::{ItemRef, StatementRef};
use crate::script_items::ScriptItems;
use crate::{ScriptFault, ScriptKind};
use std::alloc::{AllocError, Global};

/// The most statements that a section may have at a port.
pub const MAX_STATEMENTS: u32 = 20_000;

/// What the lines so far say, and how many statements the last section has at each port.
#[derive(Drop)]
pub struct Draft {
    script: ScriptItems,
    counts: [u32; 8],
}

impl Draft {
    /// Nothing, with room for so many bytes of statements.
    pub fn with_room(alloc: Global, bytes: usize) -> Result<Draft, AllocError>
        ensures nothing { IfOk result (λ draft. script_so_far draft ≡ empty_script) }
        ensures counted { IfOk result (λ draft. CountsStatements draft) }
    {
        let script = ScriptItems::with_room(alloc, bytes)?;
        Ok(Draft {
            script,
            counts: [0; 8],
        })
    }

    // Adds a statement.
    fn push(&mut self, statement: StatementRef<'_>) -> Result<(), ScriptFault>
        requires port { NamesPort (statement_of statement) }
        requires counted { CountsStatements self.old }
        ensures ok { OnOk result (script_so_far self.new
            ≡ with_item (script_so_far self.old) (Stated (statement_of statement.entry))) }
        ensures counted { OnOk result (CountsStatements self.new) }
        ensures room { OnOk result
            (HasStatementRoom (script_so_far self.old) (statement_of statement.entry)) }
        ensures err { IfErr result
            (IsNotAdded (script_so_far self.old) (Stated (statement_of statement.entry))) }
    {
        let port = usize::from(statement.event.port());
        let count = self.counts[port];
        if count >= MAX_STATEMENTS {
            return Err(ScriptFault::Bad {
                line: statement.line,
                kind: ScriptKind::TooMany,
            });
        }
        self.script.push(ItemRef::Stated(statement))?;
        self.counts[port] = count + 1;
        Ok(())
    }

    // Ends a phase.
    fn end_phase(&mut self) -> Result<(), AllocError>
        requires { CountsStatements self.old }
        ensures ok { OnOk result
            (script_so_far self.new ≡ with_item (script_so_far self.old) PhaseEnd) }
        ensures counted { OnOk result (CountsStatements self.new) }
    {
        self.script.push(ItemRef::PhaseEnd)?;
        Ok(())
    }

    // Ends a section.
    fn end_section(&mut self) -> Result<(), AllocError>
        ensures ok { OnOk result
            (script_so_far self.new ≡ with_item (script_so_far self.old) SectionEnd) }
        ensures counted { OnOk result (CountsStatements self.new) }
    {
        self.script.push(ItemRef::SectionEnd)?;
        self.counts = [0; 8];
        Ok(())
    }

    /// Adds what a line says.
    pub fn add(&mut self, item: ItemRef<'_>) -> Result<(), ScriptFault>
        requires port { NamesPortIfStated (lent_item item) }
        requires counted { CountsStatements self.old }
        ensures ok { OnOk result
            (script_so_far self.new ≡ with_item (script_so_far self.old) (lent_item item.entry)) }
        ensures counted { OnOk result (CountsStatements self.new) }
        ensures room { OnOk result
            (HasRoomIfStated (script_so_far self.old) (lent_item item.entry)) }
        ensures err { IfErr result (IsNotAdded (script_so_far self.old) (lent_item item.entry)) }
    {
        match item {
            ItemRef::Stated(statement) => self.push(statement)?,
            ItemRef::PhaseEnd => self.end_phase()?,
            ItemRef::SectionEnd => self.end_section()?,
        }
        Ok(())
    }

    /// The script, where no more lines follow.
    pub fn finish(self) -> ScriptItems
        ensures { script_of result ≡ finished (script_so_far self) }
    {
        self.script
    }
}
