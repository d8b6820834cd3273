// What a journal says, kept beside its list, so that a question is answered without a walk over the entries.
#![tactic(auto)]

pub mod answers;
pub mod asked;
pub mod index;
pub mod outages;
pub mod places;
pub mod remade;
pub mod signals;

pub use index::Index;
pub use remade::Remade;
