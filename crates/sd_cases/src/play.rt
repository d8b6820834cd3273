// What each line does.
use crate::asked::print_asked;
use crate::keeping::{open_rows, print_kept, reopen};
use crate::marks::print_marks;
use crate::paces::print_pace;
use crate::restarted::print_restarted;
use crate::row_lines::row;
use crate::servers::print_servers;
use crate::waits::print_waits;
use sd_base::Memory;
use sd_core::OpenFault;
use sd_rules::Rows;
use sd_steps::cores::Cores;
use sd_steps::output::{print, print_line, print_number};
use sd_steps::settings;
use sd_steps::words::{Words, is};
use std::alloc::Global;
use std::mem;

/// The cores, the rows with which they are opened next, what was printed, and whether runs print how long they took.
pub struct Play {
    cores: Cores,
    rows: Rows,
    out: Vec<u8>,
    is_timed: bool,
}

impl Drop for Play {
    fn drop(self) {
        let Play {
            cores: _,
            rows: _,
            out: _,
            is_timed: _,
        } = self;
    }
}

impl Play {
    pub fn new(alloc: Global, is_timed: bool) -> Result<Play, Memory> {
        let settings = settings::read(alloc, &mut Words::new(b""))?;
        Ok(Play {
            cores: Cores::open(alloc, settings)?,
            rows: Rows::new(alloc),
            out: Vec::new(alloc),
            is_timed,
        })
    }

    pub fn printed(self) -> Vec<u8> {
        let Play {
            cores: _,
            rows: _,
            out,
            is_timed: _,
        } = self;
        out
    }

    /// Opens the cores with the rows of the lines before.
    fn open(&mut self, alloc: Global) -> Result<(), OpenFault> {
        let rows = mem::replace(&mut self.rows, Rows::new(alloc));
        open_rows(alloc, &mut self.cores, rows)
    }

    /// Carries out a line of fixed calls, or one that any journal has.
    fn play_any(&mut self, alloc: Global, line: &[u8]) -> Result<(), Memory> {
        if is(line, b"waits") {
            print_waits(alloc, &mut self.out)
        } else if is(line, b"servers") {
            print_servers(alloc, &mut self.out)
        } else {
            self.cores.play(alloc, line, &mut self.out)
        }
    }

    /// Prints what is said of the journal where a line asks for it, or carries out one of another kind.
    fn tell(&mut self, alloc: Global, line: &[u8]) -> Result<(), Memory> {
        let mut words = Words::new(line);
        let name = words.word();
        let entries = self.cores.core.journal();
        let settings = &self.cores.settings;
        if is(name, b"kept") {
            print_kept(&self.cores, &mut self.out)
        } else if is(name, b"restarted") {
            print_restarted(alloc, &mut self.out, entries)
        } else if is(name, b"marks") {
            print_marks(alloc, &mut self.out, settings, entries, words.rest())
        } else if is(name, b"asked") {
            print_asked(alloc, &mut self.out, settings, entries, words.rest())
        } else {
            self.play_any(alloc, line)
        }
    }

    /// Carries out a line of rows or of a restart, or one of another kind.
    fn play(&mut self, alloc: Global, line: &[u8]) -> Result<(), OpenFault> {
        let mut words = Words::new(line);
        let name = words.word();
        if is(name, b"reopen") {
            reopen(alloc, &mut self.cores)?;
            print_line(&mut self.out, line)?;
        } else if is(name, b"row") {
            self.rows.push(row(alloc, &mut words)?)?;
            print_line(&mut self.out, line)?;
        } else if is(name, b"open") {
            print_line(&mut self.out, line)?;
            self.open(alloc)?;
        } else {
            self.tell(alloc, line)?;
        }
        Ok(())
    }

    /// Carries out one line, and prints which row was bad where one was.
    pub fn line(&mut self, rt: &HostRuntime, line: &[u8]) -> Result<(), Memory> {
        let mut words = Words::new(line);
        if is(words.word(), b"pace") {
            return print_pace(rt, &mut self.out, words.rest(), self.is_timed);
        }
        match self.play(rt.alloc(), line) {
            Ok(()) => Ok(()),
            Err(OpenFault::BadRows(place)) => {
                print(&mut self.out, b"bad row")?;
                print_number(&mut self.out, u64::from(place))?;
                print(&mut self.out, b"\n")
            }
            Err(OpenFault::Memory) => Err(Memory),
        }
    }
}
