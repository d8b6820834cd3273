// The wire: what is printed, that is what clients are told and the lines of a journal, and the frames of requests and
// replies.
#![tactic(auto)]

pub mod entries;
pub mod events;
pub mod fields;
pub mod frames;
pub mod records;
pub mod replies;
pub mod requests;
pub mod sending;
pub mod told;

pub use entries::{print_entry, push_entry};
pub use frames::{Framed, number_of_four, read_frame};
pub use requests::Request;
pub use sending::{write_frame, write_reply};
pub use told::{print_line, push_line};
