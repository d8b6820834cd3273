//! Why serving did not begin, and what is written of it.
ghost use Rattle.std.specs.Prelude.{◌≡◌, ◌≢◌, ◌++◌, codes, IfOk, OnOk};
ghost use Rattle.std.specs.Io.KnownBytes.{Appends};
ghost use Rattle.sd_base.specs.Causes.{Rose};
ghost use Rattle.sd_ldap_server.specs.Refusals as refusals;
ghost use Rattle.sd_ldif.specs.declared.LdifFault.{LdifFault as LdifFaultValue};

use sd_base::{Memory, Sink};
use sd_ldif::LdifFault;
use sd_tools::endings::end;
use sd_tools::{NO_MEMORY, READ_FAULT, Status, TOO_LONG, WRITE_FAULT};
use sd_wire::fields::{push_bytes, push_numbered};
use std::alloc::Global;

/// The doors could not be made, or failed.
pub const DOOR_FAULT: Status = 9;

/// The LDIF is refused.
pub const REFUSED: Status = 10;

/// Why serving did not begin.
#[derive(Clone, Copy, PartialEq, Eq)]
pub enum Stop {
    /// The LDIF could not be read.
    ReadFault,
    /// The LDIF has more than 64 MiB.
    TooLong,
    Refused(LdifFault),
    Memory,
}

impl From<Memory> for Stop {
    ghost use Rattle.std.specs.Prelude.{◌≡◌};
    ghost use Rattle.sd_ldap_server.specs.declared.refusals.Stop.TheVariants as stops;

    ghost from_gives = { λ _ stop. stop ≡ stops.Memory };

    fn from(_error: Memory) -> Stop {
        Stop::Memory
    }
}

fn push_why(alloc: Global, out: &mut Vec<u8>, fault: LdifFault) -> Result<(), Memory>
    ensures { OnOk result (out.new.items ≡ out.old.items ++ refusals.why_refused fault) }
{
    match fault {
        LdifFault::BadLine(line) => push_numbered(alloc, out, b"BadLine ", u64::from(line)),
        LdifFault::BadBase64(line) => push_numbered(alloc, out, b"BadBase64 ", u64::from(line)),
        LdifFault::NoDn(line) => push_numbered(alloc, out, b"NoDn ", u64::from(line)),
        LdifFault::Memory => Ok(()),
    }
}

/// What is written where an LDIF is refused.
fn refused_text(alloc: Global, fault: LdifFault) -> Result<Vec<u8>, Memory>
    ensures { IfOk result (λ text. text.items ≡ refusals.refused fault) }
{
    let mut text = Vec::new(alloc);
    push_bytes(&mut text, b"refused ")?;
    push_why(alloc, &mut text, fault)?;
    push_bytes(&mut text, b"\n")?;
    Ok(text)
}

/// Tells why serving did not begin.
pub fn tell<W: Sink>(alloc: Global, sink: &mut W, stop: Stop) -> Status
    ensures status { refusals.IsStopStatus result }
    ensures read { result ≡ READ_FAULT → (stop ≡ Stop.ReadFault) × (sink.new ≡ sink.old) }
    ensures long { result ≡ TOO_LONG → (stop ≡ Stop.TooLong) × Appends (W.held sink.old) (W.held sink.new) (codes "too long\n") }
    ensures refused { result ≡ REFUSED → (fault : LdifFaultValue) × (stop ≡ Stop.Refused fault) × Appends (W.held sink.old) (W.held sink.new) (refusals.refused fault) }
    ensures write { result ≡ WRITE_FAULT → Rose (W.faults sink.old) (W.faults sink.new) }
    ensures no_memory { result ≡ NO_MEMORY → sink.new ≡ sink.old }
{
    match stop {
        Stop::ReadFault => READ_FAULT,
        Stop::TooLong => end(sink, TOO_LONG, b"too long\n"),
        Stop::Refused(fault) => match refused_text(alloc, fault) {
            Ok(text) => end(sink, REFUSED, text.as_slice()),
            Err(Memory) => NO_MEMORY,
        },
        Stop::Memory => NO_MEMORY,
    }
}
