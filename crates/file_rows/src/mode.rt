/// What is done to a file, as an access rule names it (ETSI TS 102 221, access mode data objects).
#[derive(Clone, Copy, Debug, PartialEq, Eq)]
pub enum Mode {
    /// One bit of an access mode byte (tag `80`).
    Bit(u8),
    /// The instruction code of a command (tag `84`).
    Ins(u8),
}
