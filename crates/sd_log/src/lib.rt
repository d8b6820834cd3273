//! What the daemon's log and its status file say: which line each piece of news gives, and at which level.
#![tactic(auto)]

mod frames;
mod lines;
mod news;
mod options;
mod questions;
mod replies;
mod status;

pub use frames::Frames;
pub use lines::{level_named, level_of, line_of};
pub use news::{Asked, Fallen, Level, News, Order, Place, Told};
pub use options::{Passed, passed_over};
pub use questions::asked_of;
pub use replies::told_of;
pub use status::{Standing, Status, status_text};
