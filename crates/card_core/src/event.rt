use plain_lists::LongList;

/// What comes to a card: at one of its ports, counted from 0, or to all of it.
#[derive(Debug, Drop)]
pub enum Event {
    /// Bytes that come as a command APDU.
    Apdu { port: u8, bytes: LongList<u8> },
    /// A reset of the port.
    Reset { port: u8 },
    /// A step of the load at the port.
    Load { port: u8, step: LoadStep },
    /// A power cycle.
    Power,
}

/// The steps of a load, which installs a profile.
#[derive(Debug, Drop)]
pub enum LoadStep {
    /// It begins with the metadata of the profile.
    Begin(LongList<u8>),
    /// The next bytes of the profile package.
    Piece(LongList<u8>),
    /// It ends, and the profile is installed.
    End,
}
