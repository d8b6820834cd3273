// What a forget must know of a journal, found in one walk over it, or in two where something was invalidated.
#![tactic(auto)]

pub mod answers;
pub mod briefs;
pub mod covers;
pub mod findings;
pub mod marks;
pub mod notes;
pub mod numbers;
pub mod outline;
pub mod servers;
pub mod tickets;
pub mod users;
pub mod walk;
pub mod whole;
