// The daemon's configuration: a text in the form of sssd.conf(5), with the options and ranges of this project.
#![tactic(auto)]

use sd_base::{Memory, Text};
use std::alloc::AllocFailed;

pub mod choices;
pub mod config;
pub mod lines;
pub mod options;
pub mod servers;
pub mod texts;
pub mod values;

pub use config::{Config, read_conf};
pub use servers::{Server, ServerList};

/// Why a text was not read as a configuration.
#[derive(Drop)]
pub enum ConfFault {
    /// The line of this number has no form.
    BadLine(u32),
    /// The line of this number has a key before any section.
    NoSection(u32),
    /// The line of this number has a value outside its option's range.
    BadValue(u32),
    /// `domains` lists so many, more than one.
    ManyDomains(u32),
    /// `domains` is missing or lists none.
    NoDomain,
    /// The option of this name is missing.
    Missing(Text),
    Memory,
}

impl From<Memory> for ConfFault {
    ghost use Rattle.std.specs.Prelude.{◌≡◌};
    ghost use Rattle.sd_conf.specs.declared.ConfFault.TheVariants as faults;

    ghost from_gives = { λ _ fault. fault ≡ faults.Memory };

    fn from(_error: Memory) -> ConfFault {
        ConfFault::Memory
    }
}

impl<T: Drop> From<AllocFailed<T>> for ConfFault {
    ghost use Rattle.std.specs.Prelude.{◌≡◌};
    ghost use Rattle.sd_conf.specs.declared.ConfFault.TheVariants as faults;

    ghost from_gives = { λ _ fault. fault ≡ faults.Memory };

    fn from(_error: AllocFailed<T>) -> ConfFault {
        ConfFault::Memory
    }
}
