//! A flash as a store sees it: what reads return, and what a power cut at any moment may leave. On
//! it rows that count only once their gate byte reads 00.
#![tactic(auto)]

mod back;
mod bank;
mod file_flash;
mod file_shelf;
mod fills;
mod flash;
mod history;
mod laws;
mod memory;
mod memory_shelf;
mod plan;
mod row;
mod shelf;
mod switch;

pub use back::Back;
pub use bank::Bank;
pub use file_flash::FileFlash;
pub use file_shelf::FileShelf;
pub use flash::{BLOCK_LEN, BLOCKS, FLASH_LEN, Flash, PIECE_LEN};
pub use laws::{
    memory_leaves_images, next_byte_switches, parts_outside_stay, rows_are_those_read,
    rows_are_unique, settled_stays,
};
pub use memory::MemoryFlash;
pub use memory_shelf::MemoryShelf;
pub use plan::FlashPlan;
pub use row::{Body, RowAt, append_row, read_row};
pub use shelf::Shelf;
pub use switch::{Switch, read_switch};

#[cfg(test)]
mod tests;
