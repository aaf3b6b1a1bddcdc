use plain_lists::ShortList;

/// A port whose profile changes, counted from 0: which one leaves it, which one comes, and whether
/// its fresh session announces a REFRESH.
#[derive(Clone, Copy, Debug, PartialEq, Eq)]
pub struct Move {
    pub port: u8,
    pub leaves: Option<u16>,
    pub comes: Option<u16>,
    pub refresh: bool,
}

impl Default for Move {
    /// What stands in an unused place of a list.
    fn default() -> Self {
        Move {
            port: 0,
            leaves: None,
            comes: None,
            refresh: false,
        }
    }
}

/// The ports whose profile changes, each once.
pub type Moves = ShortList<Move, 8>;
