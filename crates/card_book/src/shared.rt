use isdr_commands::Moves;

/// A statement that needs the card as a whole: a request to the ISD-R, a reset of a port by MANAGE
/// LSI, or the end of a load.
#[derive(Debug, Drop)]
pub struct Shared {
    /// The port where it was made, counted from 0.
    pub port: u8,
    /// Its number among the statements of that port, counted from 1.
    pub number: u32,
    /// The ports that were busy then.
    pub busy: [bool; 8],
    /// The ports whose profile changed, in the order in which they did.
    pub moves: Moves,
}
