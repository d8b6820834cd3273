// Both cores, side by side.
ghost use Rattle.std.specs.Prelude.{◌≤◌, ◌<◌, ◌^◌, length};

use crate::events::event;
use crate::forgetting::print_numbers;
use crate::givens::print_given;
use crate::kinds::is_steppable;
use crate::output::{print, print_digits, print_line, print_number, print_word};
use crate::replies::print_reply;
use crate::settings;
use crate::words::{Words, is};
use sd_base::{Copied, Memory};
use sd_core::{Core, OpenFault, PlainCore};
use sd_rules::{Event, Given, Refused, Rows, Settings, StepFault};
use std::alloc::Global;

/// The two cores, which are to answer alike.
pub struct Cores {
    pub settings: Settings,
    pub core: Core,
    pub plain: PlainCore,
}

impl Drop for Cores {
    fn drop(self) {
        let Cores {
            settings: _,
            core: _,
            plain: _,
        } = self;
    }
}

/// How many servers of each kind the settings may have.
const SERVERS: u32 = 32;

/// The same with no more servers than a core may have.
pub fn few_servers(mut settings: Settings) -> Settings
    ensures primaries { result.primaries ≤ 32 }
    ensures backups { result.backups ≤ 32 }
{
    settings.primaries = settings.primaries.min(SERVERS);
    settings.backups = settings.backups.min(SERVERS);
    settings
}

/// What a core answers to a step.
type Answer = Result<Given, Refused>;

fn if_alike(plain: &Option<Answer>, core: Option<Answer>) -> Option<Answer> {
    if *plain == core { core } else { None }
}

/// A step of the core, where it can be made.
fn step_core(core: &mut Core, now: u64, event: Event) -> Option<Answer> {
    if is_steppable(core.journal(), &event) {
        Some(core.step(now, event))
    } else {
        None
    }
}

fn step_plain(plain: &mut PlainCore, now: u64, event: Event) -> Option<Answer> {
    if is_steppable(plain.journal(), &event) {
        Some(plain.step(now, event))
    } else {
        None
    }
}

fn print_fault(out: &mut Vec<u8>, fault: StepFault) -> Result<(), Memory> {
    match fault {
        StepFault::JournalFull(count) => {
            print(out, b"full")?;
            print_number(out, count)
        }
        StepFault::Memory => Err(Memory),
    }
}

fn last_moment(core: &Core) -> u64 {
    match core.journal() {
        [] => 0,
        [.., last] => last.moment,
    }
}

fn is_comment(line: &[u8]) -> bool {
    matches!(line, [] | [b'#', ..])
}

impl Cores {
    /// Both cores, opened with the same rows.
    pub fn open_with(alloc: Global, settings: Settings, rows: Rows) -> Result<Cores, OpenFault>
        requires { length rows < 2 ^ 32 }
    {
        let settings = few_servers(settings);
        let plain = PlainCore::open(alloc, settings.copy()?, rows.copy()?)?;
        let core = Core::open(alloc, settings.copy()?, rows)?;
        Ok(Cores {
            settings,
            core,
            plain,
        })
    }

    /// Both cores, with no entry.
    pub fn open(alloc: Global, settings: Settings) -> Result<Cores, Memory> {
        match Cores::open_with(alloc, settings, Rows::new(alloc)) {
            Ok(cores) => Ok(cores),
            // No row is no bad row.
            Err(_fault) => Err(Memory),
        }
    }

    /// Has both cores forget, and prints what stays and what is handed back.
    fn print_forgotten(&mut self, out: &mut Vec<u8>) -> Result<(), Memory> {
        let (back, plain) = (self.core.forget()?, self.plain.forget()?);
        if back != plain || self.core.journal() != self.plain.journal() {
            return print_line(out, b"the cores forget different entries");
        }
        print_numbers(out, b"stay", self.core.journal())?;
        print_numbers(out, b"back", back.items())
    }

    fn print_entry(&self, out: &mut Vec<u8>, line: &[u8], given: &Given) -> Result<(), Memory> {
        print_digits(out, given.number)?;
        print_number(out, last_moment(&self.core))?;
        print_word(out, line)?;
        print_reply(out, given.reply)?;
        print_given(out, given)?;
        print(out, b"\n")
    }

    fn print_step(
        &self,
        out: &mut Vec<u8>,
        line: &[u8],
        step: &Option<Answer>,
    ) -> Result<(), Memory> {
        match step {
            Some(Ok(given)) => self.print_entry(out, line, given),
            Some(Err(refused)) => {
                print_fault(out, refused.fault)?;
                print(out, b"\n")
            }
            None => print_line(out, b"no step, or the cores differ"),
        }
    }

    /// What both cores answer, where a step can be made and they answer alike.
    fn answer(&mut self, now: u64, event: Event) -> Result<Option<Answer>, Memory> {
        let copy = event.copy()?;
        let plain = step_plain(&mut self.plain, now, copy);
        let core = step_core(&mut self.core, now, event);
        Ok(if_alike(&plain, core))
    }

    /// Makes the step of a line and prints the entry that it makes.
    fn step(&mut self, alloc: Global, line: &[u8], out: &mut Vec<u8>) -> Result<(), Memory> {
        let mut words = Words::new(line);
        let now = words.number();
        let told = words.rest();
        let event = event(alloc, &mut words)?;
        let answer = self.answer(now, event)?;
        self.print_step(out, told, &answer)
    }

    /// Carries out one line.
    pub fn play(&mut self, alloc: Global, line: &[u8], out: &mut Vec<u8>) -> Result<(), Memory> {
        if is_comment(line) {
            return print_line(out, line);
        }
        let mut words = Words::new(line);
        let name = words.word();
        if is(name, b"settings") {
            *self = Cores::open(alloc, settings::read(alloc, &mut words)?)?;
            print_line(out, line)
        } else if is(name, b"forget") {
            self.print_forgotten(out)
        } else {
            self.step(alloc, line, out)
        }
    }
}
