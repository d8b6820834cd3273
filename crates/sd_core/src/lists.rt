// Lists of steps, over any core that answers as the abstract daemon.
ghost use Rattle.std.specs.Prelude.{◌≡◌, ℕ, ◌+◌, true, false, IfOk, IfErr, IsOk, OnErr, OnOk};
ghost use Rattle.sd_rules.specs.Reaching as reaching;
ghost use Rattle.sd_rules.specs.Steps as steps;
ghost use Rattle.sd_past.specs.Closing.{closes_place};
ghost use Rattle.sd_core.specs.Growth as growth;
ghost use Rattle.sd_core.specs.Laws as laws;
ghost use Rattle.sd_core.specs.Lists as lists;
ghost use Rattle.sd_core.specs.declared.lists.ListFault.TheVariants as faults;

use crate::cores::EntryCore;
use crate::daemon::Core;
use sd_base::{Copied, Items, Memory};
use sd_books::{LoginBook, Ruling};
use sd_past::Past;
use sd_rules::{Event, Given, Refused, StepFault};
use std::alloc::Global;

/// An event and the moment handed in with it, in seconds.
#[derive(Drop)]
pub struct Step {
    pub now: u64,
    pub event: Event,
}

/// What each step of a list gave.
pub type GivenList = Items<Given>;

/// A core that answers each event as the abstract daemon does.
pub trait Answers {
    /// The abstract daemon that the core is.
    ghost daemon: { Self → steps.Daemon };

    /// Makes the entry of an event and gives what it says.
    fn answer(&mut self, now: u64, event: Event) -> Result<Given, Refused>
        requires { steps.is_steppable (daemon self.old).past event ≡ true }
        ensures made { OnOk result (daemon self.new ≡ steps.after (daemon self.old) now event) }
        ensures given { IfOk result (λ given. given ≡ steps.given (daemon self.old) now event) }
        ensures room { OnOk result (steps.is_full (daemon self.old) event ≡ false) }
        ensures full { steps.is_full (daemon self.old) event ≡ true → IfErr result (λ refused. refused.fault ≡ StepFault.JournalFull (steps.full_count (daemon self.old))) }
        ensures full_only { IfErr result (λ refused. (n : ℕ) → refused.fault ≡ StepFault.JournalFull n → (steps.is_full (daemon self.old) event ≡ true) × (n ≡ steps.full_count (daemon self.old))) }
        ensures back { IfErr result (λ refused. refused.event ≡ event) }
        ensures unchanged { OnErr result (daemon self.new ≡ daemon self.old) }
        ensures closing { closes_place (daemon self.old).past event ≡ true → IsOk result };
}

impl<P: Past, R: Ruling, L: LoginBook> Answers for EntryCore<P, R, L> {
    ghost daemon = { λ c. c };

    fn answer(&mut self, now: u64, event: Event) -> Result<Given, Refused> {
        self.step(now, event)
    }
}

impl Answers for Core {
    ghost daemon = { λ c. c };

    fn answer(&mut self, now: u64, event: Event) -> Result<Given, Refused> {
        self.step(now, event)
    }
}

/// Why a list of steps ended before its end.
#[derive(Drop)]
pub enum ListFault {
    /// The core refused a step: what each step before it gave, and why, with the step's event.
    Refused(GivenList, Refused),
    /// Want of memory for a step's copy, or for what it gave.
    Memory,
}

impl From<Memory> for ListFault {
    ghost from_gives = { λ _ fault. fault ≡ faults.Memory };

    fn from(_memory: Memory) -> ListFault {
        ListFault::Memory
    }
}

/// Makes the steps one by one.
fn answer_each<C: Answers>(
    alloc: Global,
    core: &mut C,
    steps: &Items<Step>,
) -> Result<GivenList, ListFault>
    requires { lists.are_steppable (C.daemon core.old) steps.now ≡ true }
    ensures made { OnOk result (C.daemon core.new ≡ lists.after_all (C.daemon core.old) steps.now) }
    ensures given { IfOk result (λ given. given ≡ lists.all_given (C.daemon core.old) steps.now) }
    ensures room { OnOk result (lists.have_room (C.daemon core.old) steps.now ≡ true) }
    ensures early { IfErr result (λ fault. lists.EndsEarly (C.daemon core.old) (C.daemon core.new) steps.now fault) }
{
    let mut given = GivenList::new(alloc);
    for step in steps.items() {
        match core.answer(step.now, step.event.copy()?) {
            Ok(answer) => given.push(answer)?,
            Err(refused) => return Err(ListFault::Refused(given, refused)),
        }
    }
    Ok(given)
}

/// Makes all steps, in order: the core ends as the abstract daemon does, and each step gives what the daemon gives. The first step
/// that the core refuses ends the list.
pub fn answer_all<C: Answers>(
    alloc: Global,
    core: &mut C,
    steps: &Items<Step>,
) -> Result<GivenList, ListFault>
    requires { lists.are_steppable (C.daemon core.old) steps.now ≡ true }
    ensures made { OnOk result (C.daemon core.new ≡ lists.after_all (C.daemon core.old) steps.now) }
    ensures given { IfOk result (λ given. given ≡ lists.all_given (C.daemon core.old) steps.now) }
    ensures room { OnOk result (lists.have_room (C.daemon core.old) steps.now ≡ true) }
    ensures early { IfErr result (λ fault. lists.EndsEarly (C.daemon core.old) (C.daemon core.new) steps.now fault) }

    // However the list ends.
    ensures reached { reaching.Reaches (C.daemon core.old) (C.daemon core.new) }
    ensures legal { growth.KeepsGrown (C.daemon core.old) (C.daemon core.new) }
{
    answer_each(alloc, core, steps)
}
