//! When the rows of the journal are put into the store.
ghost use Rattle.std.specs.Prelude.{◌≡◌, true, OnErr, OnOk};
ghost use Rattle.sd_base.specs.Causes.{Rose};
ghost use Rattle.sd_desk.specs.Desks.{front, IsOwn, HoldsNoTurn};
ghost use Rattle.sd_keeper.specs.Keeping.{has_failed, TellsLast};
ghost use Rattle.sd_server.specs.Stores.{failed_by, faults_by, told_by, HoldsOldOrReached, HoldsReached, IsLater, Stays};

use sd_desk::{Desk, DeskSeat};
use sd_keeper::{Keeper, KeeperFault, flush};
use std::alloc::Global;
use std::sync::Wait;

/// How long rows wait for a flush, in seconds.
const WAIT: u64 = 60;

/// How long they wait where a login brought a hash: a reboot without warning is to lose little.
const WAIT_OF_HASHES: u64 = 1;

/// When rows were flushed last.
#[derive(Clone, Copy)]
pub struct LastFlush {
    /// The moment of the last flush, also of one that failed, in seconds.
    pub moment: u64,
    /// How many hashes had come by the last that did not fail.
    pub hashes: u64,
}

impl LastFlush {
    ghost use Rattle.std.specs.Prelude.{◌≡◌};
    ghost use Rattle.sd_server.specs.Stores.{is_due};

    /// Whether rows are to be flushed at a moment when so many hashes have come. A clock that was set back is as good
    /// as one that went on.
    fn is_due(&self, moment: u64, hashes: u64) -> bool
        ensures { result ≡ is_due self.now moment hashes }
    {
        let wait = if hashes == self.hashes {
            WAIT
        } else {
            WAIT_OF_HASHES
        };
        wait <= moment.abs_diff(self.moment)
    }
}

/// Puts the rows of the journal into the store, where there is one.
pub fn store_rows<R: Wait, K: Keeper>(
    rt: &R,
    alloc: Global,
    desk: &Desk,
    seat: &mut DeskSeat,
    keeper: &mut Option<K>,
) -> Result<(), KeeperFault>
    requires own { IsOwn desk.now seat.old }
    requires free { HoldsNoTurn seat.old }
    ensures seat { IsLater desk.now seat.old seat.new }
    ensures stored { OnOk result (HoldsReached (front desk.now seat.old) (told_by K.told keeper.old) (told_by K.told keeper.new)) }
    ensures same { OnErr result (told_by K.told keeper.new ≡ told_by K.told keeper.old) }
    ensures last { TellsLast (failed_by K.failed keeper.old) (failed_by K.failed keeper.new) result }
    ensures stays { Stays K.faults keeper.old keeper.new }
    ensures cause { has_failed result ≡ true → Rose (faults_by K.faults keeper.old) (faults_by K.faults keeper.new) }
{
    match keeper {
        Some(keeper) => {
            let rows = desk.kept(rt, seat)?;
            flush(alloc, keeper, &rows)
        }
        None => Ok(()),
    }
}

/// Puts the rows of the journal into the store, where there is one and it is time.
pub fn store_in_time<R: Wait, K: Keeper>(
    rt: &R,
    alloc: Global,
    desk: &Desk,
    seat: &mut DeskSeat,
    keeper: &mut Option<K>,
    moment: u64,
    last: &mut LastFlush,
)
    requires own { IsOwn desk.now seat.old }
    requires free { HoldsNoTurn seat.old }
    ensures seat { IsLater desk.now seat.old seat.new }
    ensures stored { HoldsOldOrReached (front desk.now seat.old) (told_by K.told keeper.old) (told_by K.told keeper.new) }
    ensures stays { Stays K.faults keeper.old keeper.new }
{
    let hashes = seat.counts().hashes;
    if !last.is_due(moment, hashes) {
        return;
    }
    last.moment = moment;
    if store_rows(rt, alloc, desk, seat, keeper).is_ok() {
        last.hashes = hashes;
    }
}
