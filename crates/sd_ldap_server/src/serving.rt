//! The loop that lets clients in.
ghost use Rattle.std.specs.Prelude.{◌≡◌, ◌≤◌, true, OnErr, OnOk};
ghost use Rattle.sd_base.specs.Causes.{Rose};

use sd_base::{Sink, Source};
use sd_doors::{DoorFailed, Doors};
use sd_stub::{Directory, serve_link};
use std::sync::Wait;

/// Serves a client to the end of its link, however that comes.
fn serve_client<S: Source + Drop, W: Sink + Drop>(
    directory: &Directory,
    mut source: S,
    mut sink: W,
) {
    let _ = serve_link(directory, &mut source, &mut sink);
}

/// Serves the clients that come through doors, one after the other, until no more will come.
pub fn serve_clients<R: Wait, D: Doors>(
    rt: &R,
    directory: &Directory,
    doors: &mut D,
) -> Result<(), DoorFailed>
where
    D::In: Drop,
    D::Out: Drop,
    ensures ended { OnOk result (D.ended doors.new ≡ true) }
    ensures failed { OnErr result (Rose (D.faults doors.old) (D.faults doors.new)) }
    ensures later { D.faults doors.old ≤ D.faults doors.new }
{
    for _ in rt.forever() {
        match doors.accept()? {
            Some((source, sink)) => serve_client(directory, source, sink),
            None => return Ok(()),
        }
    }
    unreachable!()
}
