//! The text of the status file.
use crate::news::Place;
use sd_base::{Items, Memory, Text};
use sd_wire::fields::{push_bytes, push_numbered, push_worded};
use std::alloc::Global;

/// How a server stands: since when it fell, or 0.
#[derive(Drop)]
pub struct Standing {
    pub place: Place,
    pub fell: u64,
}

/// How the daemon stands. Moments are seconds since 1970, or 0 where there is none.
#[derive(Drop)]
pub struct Status {
    pub up: u64,
    pub servers: Items<Standing>,
    /// Since when an outage stands, and until when.
    pub outage: Option<(u64, u64)>,
    pub entries: u64,
    pub room: u64,
    pub users: u64,
    pub groups: u64,
    pub stored: u64,
}

fn push_standing(alloc: Global, out: &mut Vec<u8>, standing: &Standing) -> Result<(), Memory> {
    push_numbered(alloc, out, b"server ", u64::from(standing.place.number))?;
    push_worded(out, b" ", standing.place.host.bytes())?;
    push_numbered(alloc, out, b":", u64::from(standing.place.port))?;
    if standing.fell == 0 {
        push_bytes(out, b" well\n")
    } else {
        push_numbered(alloc, out, b" fell ", standing.fell)?;
        push_bytes(out, b"\n")
    }
}

fn push_outage(alloc: Global, out: &mut Vec<u8>, outage: Option<(u64, u64)>) -> Result<(), Memory> {
    match outage {
        Some((since, until)) => {
            push_numbered(alloc, out, b"outage since ", since)?;
            push_numbered(alloc, out, b" until ", until)?;
            push_bytes(out, b"\n")
        }
        None => push_bytes(out, b"outage no\n"),
    }
}

fn push_line(alloc: Global, out: &mut Vec<u8>, key: &[u8], number: u64) -> Result<(), Memory> {
    push_numbered(alloc, out, key, number)?;
    push_bytes(out, b"\n")
}

/// The text of the status file.
pub fn status_text(alloc: Global, status: &Status) -> Result<Text, Memory> {
    let mut out = Vec::new(alloc);
    push_line(alloc, &mut out, b"up ", status.up)?;
    for standing in status.servers.items() {
        push_standing(alloc, &mut out, standing)?;
    }
    push_outage(alloc, &mut out, status.outage)?;
    push_line(alloc, &mut out, b"entries ", status.entries)?;
    push_line(alloc, &mut out, b"room ", status.room)?;
    push_line(alloc, &mut out, b"users ", status.users)?;
    push_line(alloc, &mut out, b"groups ", status.groups)?;
    push_line(alloc, &mut out, b"stored ", status.stored)?;
    Text::from_bytes(alloc, out.as_slice())
}
