// Account checks: by the access rules of FreeIPA, as they are read or compiled once, so that a check only looks names up, and by
// the simple lists of sssd-simple(5).
#![tactic(auto)]

pub mod elements;
pub mod lists;
pub mod names;
pub mod rules;
pub mod sets;

pub use lists::simple;
pub use rules::allowed;
pub use sets::Sets;
