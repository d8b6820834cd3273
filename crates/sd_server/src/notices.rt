//! What the daemon tells its operator.
use crate::refusals::Stop;
use crate::serving::ServeEnd;
use sd_conf::ConfFault;
use sd_keeper::KeeperFault;
use std::fmt;
use std::fmt::Display;

/// A line of the daemon's log. None has a password, a hash, or a word of a client.
#[derive(Clone, Copy, PartialEq, Eq)]
pub enum Notice {
    /// Clients are let in from now on. So many options of the configuration were passed over.
    Serving(u32),
    /// The configuration is refused, at this line where it has one.
    Refused(Option<u32>),
    NotRead,
    TooLong,
    /// The store could not be opened, or read.
    NotLoaded,
    /// The store is none.
    NoStore,
    NoDoors,
    NoMemory,
    /// No more clients are let in, and each session has ended.
    Ended(ServeEnd),
    /// Likewise, and the store did not get what was learned last.
    NotStored,
}

fn line_of(fault: &ConfFault) -> Option<u32> {
    match fault {
        ConfFault::BadLine(line) | ConfFault::NoSection(line) | ConfFault::BadValue(line) => {
            Some(*line)
        }
        _ => None,
    }
}

impl Notice {
    /// The line for how serving ended.
    pub fn of_end(served: &Result<ServeEnd, KeeperFault>) -> Notice {
        match served {
            Ok(end) => Notice::Ended(*end),
            Err(KeeperFault::Failed) => Notice::NotStored,
            Err(KeeperFault::Memory) => Notice::NoMemory,
        }
    }

    /// The line for what kept the daemon from serving.
    pub fn of_stop(stop: &Stop) -> Notice {
        match stop {
            Stop::ReadFault => Notice::NotRead,
            Stop::TooLong => Notice::TooLong,
            Stop::Refused(fault) => Notice::Refused(line_of(fault)),
            Stop::StoreFault => Notice::NotLoaded,
            Stop::BadStore(_) => Notice::NoStore,
            Stop::DoorFault => Notice::NoDoors,
            Stop::Memory => Notice::NoMemory,
        }
    }
}

fn end_text(end: ServeEnd) -> &'static str {
    match end {
        ServeEnd::Stopped => "ended: an administrator stopped the daemon",
        ServeEnd::NoneToCome => "ended: no more clients will come",
        ServeEnd::DoorFailed => "ended: no more clients can be let in",
    }
}

impl Display for Notice {
    fn fmt<W: fmt::Write>(&self, f: &mut fmt::Formatter<W>) -> fmt::Result {
        match self {
            Notice::Serving(passed_over) => {
                write!(f, "serving; options passed over: {passed_over}")
            }
            Notice::Refused(Some(line)) => write!(f, "the configuration is refused at line {line}"),
            Notice::Refused(None) => f.write_str("the configuration is refused"),
            Notice::NotRead => f.write_str("the configuration or the seed could not be read"),
            Notice::TooLong => f.write_str("the configuration has more than 1 MiB"),
            Notice::NotLoaded => f.write_str("the store could not be opened or read"),
            Notice::NoStore => f.write_str("the store is none, and is left as it is"),
            Notice::NoDoors => f.write_str("the sockets could not be made"),
            Notice::NoMemory => f.write_str("memory is wanting"),
            Notice::Ended(end) => f.write_str(end_text(*end)),
            Notice::NotStored => f.write_str("ended: the store could not be written"),
        }
    }
}
