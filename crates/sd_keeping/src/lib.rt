// What is kept of a journal over a restart: its rows, the rules for rows, and the journals that are opened.
#![tactic(auto)]

pub mod counts;
pub mod opening;
pub mod readings;
pub mod row_rules;
pub mod rows;
pub mod text_bytes;

pub use counts::counts_fit;
pub use opening::{OpenJournal, opened, reopened};
pub use readings::numbers_fit;
pub use row_rules::bad_row;
pub use rows::rows_of;
