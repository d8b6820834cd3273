// The rows that cores keep, and cores that are opened with rows.
ghost use Rattle.std.specs.Prelude.{◌<◌, ◌^◌, length, IfOk, IfSome};

use crate::rows::print_rows;
use sd_base::{Copied, Memory};
use sd_core::{Core, OpenFault, PlainCore};
use sd_restart::restart;
use sd_rules::Rows;
use sd_steps::cores::{Cores, few_servers};
use sd_steps::output::print_line;
use std::alloc::Global;

/// How many rows the cores may be opened with.
const ROWS: usize = 1000;

/// The rows that both cores keep, where they keep the same.
fn kept(core: &Core, plain: &PlainCore) -> Result<Option<Rows>, Memory>
    ensures { IfOk result (λ rows. IfSome rows (λ rows. length rows < 2 ^ 32)) }
{
    let rows = core.kept()?;
    if rows == plain.kept()? {
        Ok(Some(rows))
    } else {
        Ok(None)
    }
}

/// Prints the rows that both cores keep.
pub fn print_kept(cores: &Cores, out: &mut Vec<u8>) -> Result<(), Memory> {
    match kept(&cores.core, &cores.plain)? {
        Some(rows) => print_rows(out, &rows),
        None => print_line(out, b"the cores keep different rows"),
    }
}

/// Opens both cores with rows, where these are not too many.
pub fn open_rows(alloc: Global, cores: &mut Cores, rows: Rows) -> Result<(), OpenFault> {
    if rows.len() < ROWS {
        *cores = Cores::open_with(alloc, cores.settings.copy()?, rows)?;
    }
    Ok(())
}

/// Opens both cores again with the rows that they keep, as a restart does.
pub fn reopen(alloc: Global, cores: &mut Cores) -> Result<(), OpenFault> {
    let settings = few_servers(cores.settings.copy()?);
    if let Some(rows) = kept(&cores.core, &cores.plain)? {
        cores.plain = PlainCore::open(alloc, settings.copy()?, rows)?;
        cores.core = restart(alloc, &cores.core, settings)?;
    }
    Ok(())
}
