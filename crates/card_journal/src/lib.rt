//! The card on a flash: what an image holds, as records in the gated rows of the live one of two
//! banks.
#![tactic(auto)]

mod append;
mod bank_card;
mod blank;
mod body;
mod card_store;
mod commit_fault;
mod copy;
mod copy_body;
mod erase;
mod fault;
mod held;
mod held_copy;
mod laws;
mod make;
mod make_fault;
mod next;
mod open;
mod open_fault;
mod pool;
mod reading;
mod row;
mod store;
mod switch;

pub use body::RecordBody;
pub use card_store::CardStore;
pub use commit_fault::CommitFault;
pub use copy_body::CopyBody;
pub use fault::ReadFault;
pub use held_copy::copy_held;
pub use laws::{
    copies_leave_room, copies_leave_the_card, images_hold_one_card, records_are_appended,
};
pub use make_fault::MakeFault;
pub use open_fault::OpenFault;
pub use pool::PooledContent;
pub use reading::{Found, read_bank};
pub use store::BankStore;

#[cfg(test)]
mod tests;
