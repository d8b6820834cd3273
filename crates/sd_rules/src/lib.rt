// What the daemon speaks of: keys, records, events, replies, settings and what a client's request needs.
#![tactic(auto)]

pub mod events;
pub mod keys;
pub mod leading;
pub mod limits;
pub mod records;
pub mod replies;
pub mod scripts;
pub mod settings;
pub mod tasks;

pub use events::{Event, Hash, LoginResult, Refusal, Row, Rows};
pub use keys::{Key, What};
pub use records::{
    Answered, Element, Group, GroupRef, GroupRefs, Groups, Host, Record, Rule, RuleBook, RuleList,
    Service, ServiceList, User,
};
pub use replies::{By, Entry, Given, Journal, NotBy, Outcome, Refused, Reply, StepFault, Verdict};
pub use scripts::{Led, LedList, LoginStage, LoginStep, LookupCourse, LookupStage, LookupStep};
pub use settings::{AccessMode, Settings, SimpleLists};
pub use tasks::{Bound, Fetched, Need, Said, Task, Who};
