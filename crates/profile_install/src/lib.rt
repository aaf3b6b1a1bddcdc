//! What the elements of a profile package (TCA eUICC Profile Package) make of a card's content.
#![tactic(auto)]

mod builder;
mod draft;
mod draft_files;
mod fault;
mod header;
mod laws;
mod management;
mod pin_entry;
mod puk_entry;
mod state;
mod state_values;
mod template;
mod template_file;
mod values;
mod work;

pub use builder::Builder;
pub use draft::{Draft, Filled, OpenFile};
pub use draft_files::DraftFiles;
pub use fault::{ElementFault, StepFault};
pub use file_rows::NoMemory;
pub use header::HeaderFields;
pub use laws::{
    a_package_gives_the_files_that_it_names, one_answer_of_a_package, packages_are_for_one_iccid,
    packages_give_valid_contents, refusals_name_the_first_faulty_element, template_files_fit,
};
pub use management::{Managed, Standing};
pub use pin_entry::PinFields;
pub use puk_entry::{NamedPuk, PukFields};
pub use state::{Awaited, ListKind, Spot, State};
pub use template::{FileParts, TemplateList};
pub use template_file::{file_head, file_parameters, master_head};
pub use values::Tries;
pub use work::{BuildFault, Faulty, Progress, Refusal, Work};

#[cfg(test)]
mod tests;
