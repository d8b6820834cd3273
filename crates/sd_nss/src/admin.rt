//! The task of an administrator's request.
ghost use Rattle.std.specs.Prelude.{◌≡◌};
ghost use Rattle.sd_rules.specs.Scripts.{admin_script};
ghost use Rattle.sd_nss.specs.Tasks as tasks;

use sd_base::{Copied, Memory};
use sd_rules::{Bound, Event, Fetched, Given, Need, Said, Task};

/// An administrator's request, as far as it has come.
#[derive(Drop)]
pub enum AdminTask {
    /// This event is to be made.
    Stepping(Event),
    /// The entry of this number is to be told.
    Telling(u64),
    /// Nothing is left to do.
    Over,
}

impl AdminTask {
    /// A request for this event.
    pub fn new(event: Event) -> AdminTask
        ensures { tasks.script result ≡ admin_script event }
    {
        AdminTask::Stepping(event)
    }
}

impl Task for AdminTask {
    ghost script = { λ t. tasks.script t };

    fn need(&mut self) -> Result<Need, Memory> {
        match self {
            AdminTask::Stepping(event) => Ok(Need::Step(event.copy()?)),
            AdminTask::Telling(number) => {
                let number = *number;
                *self = AdminTask::Over;
                Ok(Need::Say(Said::Done(number)))
            }
            AdminTask::Over => Ok(Need::End),
        }
    }

    fn replied(&mut self, given: Given) -> Result<(), Memory> {
        if let AdminTask::Stepping(_) = self {
            *self = AdminTask::Telling(given.number);
        }
        Ok(())
    }

    // It searches nothing: an answer that is told changes nothing.
    fn fetched(&mut self, _found: Fetched)
        ensures { self.new ≡ self.old }
    {}

    // It binds nobody: a result that is told changes nothing.
    fn bound(&mut self, _bound: Bound)
        ensures { self.new ≡ self.old }
    {}
}
