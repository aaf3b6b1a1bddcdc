//! What a card holds, and the records of its changes: their effect and their coding.
#![tactic(auto)]

mod apply;
mod begin;
mod content_change;
mod copy_record;
mod copying;
mod counts;
mod durable;
mod effect;
mod fault;
mod file_change;
mod file_write;
mod fits;
mod laws;
mod lists;
mod notes_fit;
mod noting;
mod pooled;
mod profile;
mod put;
mod put_change;
mod read_fields;
mod read_files;
mod reading;
mod record;
mod room;
mod rows;
mod takes;
mod window;
mod writing;

pub use apply::drop_contents;
pub use content_change::set_in_pins;
pub use copy_record::CopyRecord;
pub use copying::{copy_record_len, put_copy_record};
pub use counts::{count_of, count_of_each, head_of, is_held, operation_bit};
pub use durable::{Durable, Heads, ProfileList};
pub use fault::RecordFault;
pub use file_change::{put_bytes, write_bytes};
pub use file_write::{FileWrite, WritePlace, read_file_write};
pub use fits::{content_of, place_of};
pub use laws::{
    codings_are_unique, fitting_records_are_short, fitting_records_have_sizes,
    reading_is_of_codings, records_are_local, records_fit_by_kind,
};
pub use pooled::PooledFiles;
pub use profile::{BoxedProfile, Label, NoteTarget, Profile, ProfileHead, Provider, Targets};
pub use reading::read_record;
pub use record::{Numbers, Record};
pub use room::Room;
pub use std::alloc::AllocError as NoMemory;
pub use takes::fewest_ports;
pub use writing::{put_record, record_len};

#[cfg(test)]
mod tests;
