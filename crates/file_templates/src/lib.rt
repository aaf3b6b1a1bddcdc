//! The file templates of a profile package (TCA eUICC Profile Package, created files): which files
//! a template has, each at a position, with what they are unless the package says otherwise.
#![tactic(auto)]

mod laws;
mod macros;
mod table;
mod template_row;

pub use laws::{
    one_row_at_each_position, templates_have_these_numbers_of_rows,
    the_table_has_just_these_positions,
};
pub use table::{TEMPLATE_ROWS, row, rows};
pub use template_row::Row;

#[cfg(test)]
mod tests;
