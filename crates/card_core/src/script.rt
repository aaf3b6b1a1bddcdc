use crate::Event;
use plain_lists::LongList;

/// A script as it was read.
#[derive(Debug, Drop)]
pub struct Script {
    /// What stands between two power cycles, in order.
    pub sections: LongList<Section>,
}

/// What a script has from one power cycle to the next.
#[derive(Debug, Drop)]
pub struct Section {
    pub phases: LongList<Phase>,
}

/// Statements of which those at different ports may be made in any order. All of them are made
/// before those of the next phase.
#[derive(Debug, Drop)]
pub struct Phase {
    pub statements: LongList<Statement>,
}

/// A statement, which is any event but a power cycle, and the line on which it stands.
#[derive(Debug, Drop)]
pub struct Statement {
    /// Counted from 1.
    pub line: u32,
    pub event: Event,
}
