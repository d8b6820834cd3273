//! Links and dialers in memory, behind which a directory stands.
#![tactic(auto)]

mod answering;
mod dialer;
mod framing;
mod given;
mod line;
mod link;

pub use dialer::{StubDialer, StubServer};
pub use line::StubLine;
pub use link::StubLink;
pub use sd_stub::Mode;
