//! What a card lets be done with its files (ETSI TS 102 221, access rules): what a record of an
//! EF ARR allows, and which keys the PINs of a card meet. Nothing here takes memory.
#![tactic(auto)]

mod condition;
mod fault;
mod key_set;
mod laws;
mod met;
mod object;
mod rules;

pub use fault::RuleFault;
pub use file_rows::Mode;
pub use key_set::KeySet;
pub use laws::{
    a_pin_found_is_one_of_them, always_and_never, answers_by_the_record_named,
    met_by_the_nearest_pin, more_keys_allow_no_less, records_have_one_meaning,
};
pub use met::{met_keys, pin_for};
pub use rules::{Rules, read_rules, record_allows};

#[cfg(test)]
mod tests;
