//! The ports of a section, each a lane of its own: its statements, what stands at the port, and its
//! log. A lane makes its statements by itself, and commits what they change through a keeper of the
//! section's book; a statement that needs the card as a whole takes all lanes and the book.
#![tactic(auto)]

mod answering;
mod coming;
mod lane;
mod lane_port;
mod loading;
mod log;
mod make;
mod part;
mod quiet;
mod step;
mod unstored;

pub use lane::Lane;
pub use lane_port::LanePort;
pub use log::Log;
pub use part::Part;
pub use std::alloc::AllocError as NoMemory;
pub use step::{Step, step_lane};
pub use unstored::Unstored;
