//! Clocks.
ghost use Rattle.std.specs.Prelude.{◌≡◌, ℕ, List, [], Some};
ghost use Rattle.std.specs.declared.option.Option.{Option};
ghost use Rattle.sd_clock.specs.Readings.{FollowsOn, readings_of, reading_at};

use std::marker::Model;

/// What tells the moment, in whole seconds. It can't fail.
pub trait Clock {
    /// The moments given so far, the first first, where the clock tells them.
    ghost readings: { Self → Option (List ℕ) };

    /// The moment, in seconds since 1970-01-01 00:00:00 UTC.
    fn now(&mut self) -> u64
        ensures { FollowsOn (readings self.old) result (readings self.new) };
}

/// A clock in memory: it gives its moments in turn and then the last one again; without moments it gives 0. It
/// tells its readings until its count of calls stands at the greatest u64.
#[derive(Drop)]
pub struct MemoryClock {
    moments: Vec<u64>,
    calls: u64,
}

impl Model for MemoryClock {
    ghost use Rattle.sd_clock.specs.Readings.{Moments};

    ghost Value = { Moments };

    ghost view = { λ c. record { moments = c.moments.items; calls = c.calls } };
}

/// The moment at a place, or the last one behind all.
fn moment_at(moments: &[u64], place: u64) -> u64
    ensures { result ≡ reading_at moments.now place }
{
    let last = moments.len().saturating_sub(1) as u64;
    match moments.get(place.min(last) as usize) {
        Some(moment) => *moment,
        None => 0,
    }
}

impl MemoryClock {
    /// A clock of these moments, in seconds.
    pub fn new(moments: Vec<u64>) -> MemoryClock
        ensures made { result ≡ record { moments = moments.items; calls = 0 } }
        ensures readings { ⟦<MemoryClock as Clock>⟧.readings result ≡ Some [] }
    {
        MemoryClock { moments, calls: 0 }
    }
}

impl Clock for MemoryClock {
    ghost readings = { readings_of };

    fn now(&mut self) -> u64
        ensures follows { FollowsOn (readings_of self.old) result (readings_of self.new) }
        ensures moment { result ≡ reading_at self.old.moments self.old.calls }
    {
        let moment = moment_at(&self.moments, self.calls);
        self.calls = self.calls.saturating_add(1);
        moment
    }
}
