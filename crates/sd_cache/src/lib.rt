// What was answered last to each key.
#![tactic(auto)]

pub mod cache;
pub mod filing;
pub mod kept;
pub mod primed;

pub use cache::Cache;
pub use kept::Newest;
pub use primed::Primed;
