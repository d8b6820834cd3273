//! Links to directories, what makes them, and what a search over one comes to.
#![tactic(auto)]

pub mod dialer;
pub mod directory;
pub mod searched;

pub use dialer::Dialer;
pub use directory::DirectoryLink;
pub use searched::Searched;
