//! The tags of file control parameters (ETSI TS 102 221, "Response data" of SELECT).

/// The template that the fields stand in.
pub const TEMPLATE: u32 = 0x62;
/// The number of bytes of an EF.
pub const SIZE: u32 = 0x80;

pub const DESCRIPTOR: u32 = 0x82;

pub const IDENTIFIER: u32 = 0x83;
/// The name of an application.
pub const NAME: u32 = 0x84;

pub const SFI: u32 = 0x88;
/// The life cycle status.
pub const LIFE: u32 = 0x8A;
/// Where the access rule stands, as a record of an EF ARR.
pub const RULE: u32 = 0x8B;

pub const PROPRIETARY: u32 = 0xA5;
/// The PIN status template.
pub const PIN_STATUS: u32 = 0xC6;
/// In the PIN status template: which PINs are enabled.
pub const ENABLED: u32 = 0x90;
/// In the PIN status template: the key reference of a PIN.
pub const KEY: u32 = 0x83;
