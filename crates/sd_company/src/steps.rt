// What a seat does beside the sessions, and what is told of a desk at its end.
ghost use Rattle.std.specs.Prelude.{◌≡◌};
ghost use Rattle.sd_desk.specs.Desks.{front, IsOwn, HoldsNoTurn};
ghost use Rattle.sd_desk.specs.Steps.{MayStep};

use sd_base::Memory;
use sd_core::Core;
use sd_desk::{Desk, DeskSeat};
use sd_rules::Event;
use std::alloc::Global;
use std::sync::Wait;

/// Makes a step, whose reply nobody reads.
pub fn step<R: Wait>(rt: &R, desk: &Desk, seat: &mut DeskSeat, event: Event)
    requires own { IsOwn desk.now seat.old }
    requires free { HoldsNoTurn seat.old }
    requires may { MayStep (front desk.now seat.old) event }
    ensures own { IsOwn desk.now seat.new }
    ensures free { HoldsNoTurn seat.new }
{
    let _ = desk.step(rt, seat, 0, event);
}

/// Rests until so many entries were made, or the daemon is to end.
pub fn rest_until<R: Wait>(rt: &R, desk: &Desk, seat: &mut DeskSeat, entries: u64)
    requires own { IsOwn desk.now seat.old }
    requires free { HoldsNoTurn seat.old }
    ensures own { IsOwn desk.now seat.new }
    ensures free { HoldsNoTurn seat.new }
{
    for _ in rt.forever() {
        if desk.stopping(rt, seat) || seat.counts().next > entries {
            break;
        }
        desk.rest(rt, seat);
    }
}

fn tell_journal(alloc: Global, core: &Core, out: &mut Vec<u8>) -> Result<(), Memory> {
    for entry in core.journal() {
        let (number, reply) = (entry.number, entry.reply);
        let said = format!(in alloc; "  {number} {reply:?}\n")?;
        out.extend_from_slice(said.as_bytes())?;
    }
    Ok(())
}

/// Ends a desk, and tells its journal.
pub fn close(alloc: Global, desk: Desk, seat: DeskSeat, out: &mut Vec<u8>) -> Result<(), Memory>
    requires own { IsOwn desk seat }
    requires free { HoldsNoTurn seat }
{
    match desk.close(seat) {
        Ok(core) => tell_journal(alloc, &core, out),
        Err(_held) => {
            out.extend_from_slice(b"the turn was taken at the end\n")?;
            Ok(())
        }
    }
}
