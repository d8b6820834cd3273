// The entries made so far as a core keeps them, and what it asks of them: by walks over their list, or by an index beside it. By the
// index the rows that are kept of them are made in a few walks, and by walks over all for none but the wrong guesses.
#![tactic(auto)]

pub mod findings;
pub mod found;
pub mod indexed;
pub mod listed;
pub mod past;
pub mod room;
pub mod rows;
pub mod standings;
pub mod users;
pub mod voided;

pub use indexed::IndexedPast;
pub use listed::ListedPast;
pub use past::{Forgotten, Past};
pub use rows::rows_of;
