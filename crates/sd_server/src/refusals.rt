//! Why serving did not begin, and what is written of it.
ghost use Rattle.std.specs.Prelude.{◌≡◌, ◌++◌, IfOk, OnOk};
ghost use Rattle.sd_server.specs.Refusals as refusals;
ghost use Rattle.sd_server.specs.HostStores.{bad_store};

use sd_base::Memory;
use sd_conf::ConfFault;
use sd_wire::fields::{push_bytes, push_numbered};
use std::alloc::Global;

/// Why serving did not begin.
#[derive(Drop)]
pub enum Stop {
    /// The configuration, or the seed, could not be read.
    ReadFault,
    /// The configuration has more than 1 MiB.
    TooLong,
    Refused(ConfFault),
    /// The store could not be opened, or read.
    StoreFault,
    /// The store is none: the place of the first blob that is the bytes of no row, or of the first row that is against the rules,
    /// or the unknown version of a head.
    BadStore(u32),
    DoorFault,
    Memory,
}

fn push_why(alloc: Global, out: &mut Vec<u8>, fault: &ConfFault) -> Result<(), Memory>
    ensures { OnOk result (out.new.items ≡ out.old.items ++ refusals.why_refused fault.now) }
{
    match fault {
        ConfFault::BadLine(line) => push_numbered(alloc, out, b"BadLine ", u64::from(*line)),
        ConfFault::NoSection(line) => push_numbered(alloc, out, b"NoSection ", u64::from(*line)),
        ConfFault::BadValue(line) => push_numbered(alloc, out, b"BadValue ", u64::from(*line)),
        ConfFault::ManyDomains(count) => {
            push_numbered(alloc, out, b"ManyDomains ", u64::from(*count))
        }
        ConfFault::NoDomain => push_bytes(out, b"NoDomain"),
        ConfFault::Missing(option) => {
            push_bytes(out, b"Missing ")?;
            push_bytes(out, option.bytes())
        }
        ConfFault::Memory => Ok(()),
    }
}

/// What is written where a configuration is refused.
pub fn refused_text(alloc: Global, fault: &ConfFault) -> Result<Vec<u8>, Memory>
    ensures { IfOk result (λ text. text.items ≡ refusals.refused (refusals.why_refused fault.now)) }
{
    let mut text = Vec::new(alloc);
    push_bytes(&mut text, b"refused ")?;
    push_why(alloc, &mut text, fault)?;
    push_bytes(&mut text, b"\n")?;
    Ok(text)
}

/// What is written where a store is none.
pub fn bad_store_text(alloc: Global, number: u32) -> Result<Vec<u8>, Memory>
    ensures { IfOk result (λ text. text.items ≡ bad_store number) }
{
    let mut text = Vec::new(alloc);
    push_numbered(alloc, &mut text, b"bad store ", u64::from(number))?;
    push_bytes(&mut text, b"\n")?;
    Ok(text)
}
