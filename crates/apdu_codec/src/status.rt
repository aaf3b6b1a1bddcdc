//! Status words.
ghost use Rattle.std.specs.Prelude.{◌≡◌, ◌/◌, ◌%◌, ◌<◌, ◌≤◌, [], ◌∷◌};
ghost use Rattle.apdu_codec.specs.Sw.{bytes_waiting, tries_left, wrong_le};

/// A status word, SW1 and SW2, with SW1 in the high byte (ETSI TS 102 221, "Status conditions
/// returned by the UICC").
#[derive(Clone, Copy, Debug, PartialEq, Eq)]
pub struct Sw(pub u16);

impl Sw {
    /// Normal ending of the command.
    pub const OK: Sw = Sw(0x9000);
    /// Normal ending, and a proactive command of 11 bytes is waiting.
    pub const PROACTIVE: Sw = Sw(0x910B);
    /// A search found no record.
    pub const NOT_FOUND_IN_RECORDS: Sw = Sw(0x6282);
    /// The selected file is deactivated.
    pub const SELECTED_DEACTIVATED: Sw = Sw(0x6283);
    /// The selected file is in termination state.
    pub const SELECTED_TERMINATED: Sw = Sw(0x6285);
    /// Memory problem: the change isn't stored.
    pub const MEMORY_PROBLEM: Sw = Sw(0x6581);
    /// Wrong length.
    pub const WRONG_LENGTH: Sw = Sw(0x6700);
    /// Logical channel not supported.
    pub const CHANNEL_NOT_SUPPORTED: Sw = Sw(0x6881);
    /// Secure messaging not supported.
    pub const SECURE_MESSAGING_NOT_SUPPORTED: Sw = Sw(0x6882);
    /// Command incompatible with file structure.
    pub const INCOMPATIBLE_STRUCTURE: Sw = Sw(0x6981);
    /// Security status not satisfied.
    pub const SECURITY_NOT_SATISFIED: Sw = Sw(0x6982);
    /// Authentication or PIN method blocked.
    pub const PIN_BLOCKED: Sw = Sw(0x6983);
    /// Referenced data reversibly blocked.
    pub const DATA_BLOCKED: Sw = Sw(0x6984);
    /// Conditions of use not satisfied.
    pub const CONDITIONS_NOT_SATISFIED: Sw = Sw(0x6985);
    /// No EF selected.
    pub const NO_CURRENT_EF: Sw = Sw(0x6986);
    /// Incorrect parameters in the data field.
    pub const WRONG_DATA: Sw = Sw(0x6A80);
    /// Function not supported.
    pub const FUNCTION_NOT_SUPPORTED: Sw = Sw(0x6A81);
    /// File or application not found.
    pub const FILE_NOT_FOUND: Sw = Sw(0x6A82);
    /// Record not found.
    pub const RECORD_NOT_FOUND: Sw = Sw(0x6A83);
    /// Not enough memory space in the file or the card.
    pub const NOT_ENOUGH_SPACE: Sw = Sw(0x6A84);
    /// Incorrect parameters P1 and P2.
    pub const WRONG_P1_P2: Sw = Sw(0x6A86);
    /// Referenced data not found.
    pub const DATA_NOT_FOUND: Sw = Sw(0x6A88);
    /// File identifier already exists.
    pub const FILE_EXISTS: Sw = Sw(0x6A89);
    /// DF name already exists.
    pub const NAME_EXISTS: Sw = Sw(0x6A8A);
    /// Wrong parameters: the offset is outside the file.
    pub const WRONG_OFFSET: Sw = Sw(0x6B00);
    /// Instruction code not supported or invalid.
    pub const WRONG_INSTRUCTION: Sw = Sw(0x6D00);
    /// Class not supported.
    pub const WRONG_CLASS: Sw = Sw(0x6E00);
    /// Technical problem, no precise diagnosis.
    pub const TECHNICAL_PROBLEM: Sw = Sw(0x6F00);
    /// INCREASE cannot be performed: the maximum value is reached.
    pub const MAXIMUM_REACHED: Sw = Sw(0x9850);

    /// `61XX`: this many bytes wait for GET RESPONSE, 1 to 256, of which 256 is written as 00.
    pub const fn bytes_waiting(count: u16) -> Sw
        requires some { 1 ≤ count }
        requires most { count ≤ 256 }
        ensures { result ≡ bytes_waiting count }
    {
        Sw(0x6100 + count % 256)
    }

    /// `6CXX`: the expected length Le was wrong, and this many bytes, 1 to 256, can be had; 256 is
    /// written as 00.
    pub const fn wrong_le(count: u16) -> Sw
        requires some { 1 ≤ count }
        requires most { count ≤ 256 }
        ensures { result ≡ wrong_le count }
    {
        Sw(0x6C00 + count % 256)
    }

    /// `63CX`: the verification failed, and this many tries are left, at most 15.
    pub const fn tries_left(tries: u8) -> Sw
        requires { tries < 16 }
        ensures { result ≡ tries_left tries }
    {
        Sw(0x63C0 + tries as u16)
    }

    /// The two bytes SW1 and SW2 as they are sent.
    pub const fn to_bytes(self) -> [u8; 2]
        ensures { result ≡ self.0 / 256 ∷ self.0 % 256 ∷ [] }
    {
        self.0.to_be_bytes()
    }
}
