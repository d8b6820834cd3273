// What the lines of a scenario's text spell, each by itself.
#![tactic(auto)]

pub mod access;
pub mod accounts;
pub mod daemon;
pub mod forms;
pub mod lines;
pub mod tasks;
pub mod words;

pub use forms::{is_comment, line_of};
pub use lines::{
    GroupLine, HostLine, Item, ItemList, Kind, Line, Member, Members, RuleLine, ServiceLine, Side,
    UserLine, Whom, is_blank,
};
pub use sd_stub::Mode;
pub use words::cut;
