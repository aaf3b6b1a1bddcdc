//! The files of a card as a tree (ETSI TS 102 221, "Logical model"): look-ups by path, identifier,
//! SFI and name, and the changes that commands make.
#![tactic(auto)]

mod arena;
mod changes;
mod node_changes;
mod path_changes;
mod removal;
mod room;
mod tree;

pub use tree::Tree;

#[cfg(test)]
mod tests;
