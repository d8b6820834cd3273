//! The network of TCP.
ghost use Rattle.std.specs.Prelude.{◌≡◌, false, None};

use crate::network::Network;
use sd_doors::{DoorFailed, TcpDoors};
use std::net::Net;
use std::time::Clock;

/// The network of TCP. No connection is ever told to be the last, and no address is told.
#[derive(Drop)]
pub struct TcpNetwork<'r, R> {
    rt: &'r R,
    door_faults: u64,
}

impl<'r, R> TcpNetwork<'r, R> {
    pub fn new(rt: &'r R) -> TcpNetwork<'r, R>
        ensures { result.door_faults ≡ 0 }
    {
        TcpNetwork { rt, door_faults: 0 }
    }
}

impl<'r, R: Net + Clock> Network for TcpNetwork<'r, R> {
    type Door = TcpDoors<'r, R>;

    ghost listened = { λ _. None };

    ghost ended = { λ _. false };

    ghost door_faults = { λ n. n.door_faults };

    fn listen(&mut self, address: &str) -> Result<TcpDoors<'r, R>, DoorFailed> {
        match TcpDoors::open(self.rt, address) {
            Ok(doors) => Ok(doors),
            Err(_) => {
                self.door_faults = self.door_faults.saturating_add(1);
                Err(DoorFailed)
            }
        }
    }

    fn done_doors(&mut self, doors: TcpDoors<'r, R>) {
        if doors.faults() > 0 {
            self.door_faults = self.door_faults.saturating_add(1);
        }
    }
}
