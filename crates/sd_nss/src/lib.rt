// What a client asks, step by step: a lookup as the name service asks for it, from the question to what the client is told, and an
// administrator's request, which is one event, and the number of its entry is told. And how scripts go on.
#![tactic(auto)]

mod admin;
mod laws;
pub mod lookup;
pub mod task;

pub use admin::AdminTask;
pub use laws::scripts_go_on;
pub use task::NssTask;
