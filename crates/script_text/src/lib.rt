//! The script language of an eUICC's ports: what a text of port commands, resets, loads and power
//! cycles says; and the printed text of what they come to.
#![tactic(auto)]

mod by_number;
mod draft;
mod entry_text;
mod fault;
mod hex_word;
mod item;
mod laws;
mod line;
mod line_set;
mod listing;
mod pieces;
mod port_check;
mod reading;
mod script_items;
mod section_text;
mod statement;
mod words;

pub use entry_text::push_answer_line;
pub use fault::{ScriptFault, ScriptKind};
pub use item::{EventRef, ItemRef, LoadStepRef, StatementRef};
pub use laws::{
    commands_alone_are_not_cut, cutting_keeps_the_statements, long_texts_are_refused,
    texts_are_scripts_or_faulty,
};
pub use line_set::LineSet;
pub use listing::render_listing;
pub use port_check::check_ports;
pub use reading::{MAX_SCRIPT_BYTES, read_script, read_script_of};
pub use script_items::ScriptItems;
pub use section_text::{render_log, render_section};
pub use std::alloc::AllocError as NoMemory;

#[cfg(test)]
mod tests;
