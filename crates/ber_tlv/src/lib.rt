//! BER-TLV data objects, as ISO/IEC 7816-4 and ETSI TS 102 221 code them: tags of one to three
//! bytes and definite lengths of one to four. Nothing here takes memory.
#![tactic(auto)]

mod fault;
mod head;
mod laws;
mod read;
mod walk;
mod write;

pub use fault::TlvFault;
pub use head::{TlvHead, bad_heads_stay_bad, heads_are_read_or_refused, one_head, read_head};
pub use laws::{
    fewest_bytes, one_reading, one_walk, reading_finds_what_stands_there, written_is_read,
    written_list_is_read,
};
pub use read::{Tlv, read_tlv};
pub use walk::Walk;
pub use write::put_tlv;

#[cfg(test)]
mod tests;
