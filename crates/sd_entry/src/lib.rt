//! What directory entries say: values by attribute, classes, numbers, and which entries are users.
#![tactic(auto)]

mod users;
mod values;

pub use sd_pieces::read_number;
pub use users::fits_user;
pub use values::{first_value, has_class};
