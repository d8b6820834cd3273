// The servers of a domain, which contracts see as how many there are and the falls that can still count.
ghost use Rattle.std.specs.Prelude.{◌≡◌, ℕ, ◌+◌, ◌≤◌, ◌==◌, ◌&&◌, ◌||◌, nat_lt, not, [], OnOk, OnErr, Some, false};
ghost use Rattle.sd_failover.specs.Falls as told;

use crate::falls::{Fall, drop_closed, drop_replaced, drop_spent, is_down, mark_online, release};
use sd_base::Memory;
use std::alloc::Global;
use std::marker::Model;

/// The servers of a domain and the falls that keep some of them from being picked.
///
/// A fall is kept while it can count: until a later one of the same server stands for it, or an online came after it
/// and its request is closed. So, while moments do not go back, a server has at most one fall for each request that was
/// not closed when it last fell.
pub struct Servers {
    count: u32,
    falls: Vec<Fall>,
}

impl Drop for Servers {
    fn drop(self) {
        let Servers { count: _, falls: _ } = self;
    }
}

impl Model for Servers {
    ghost use Rattle.sd_failover.specs.Falls.{Told};

    ghost Value = { Told };

    ghost view = { λ s. record { servers = s.count; falls = s.falls.items } };
}

impl Servers {
    /// Servers of which none has fallen, primaries first.
    pub fn new(alloc: Global, primaries: u32, backups: u32) -> Servers
        requires { primaries + backups ≤ 64 }
        ensures { result ≡ record { servers = primaries + backups; falls = [] } }
    {
        Servers {
            count: primaries + backups,
            falls: Vec::new(alloc),
        }
    }

    /// The first server that is not down for this request at this moment, in seconds.
    pub fn pick(&self, request: u64, moment: u64) -> Option<u32>
        ensures { result ≡ told.picked_server self.now request moment }
    {
        let falls = self.falls.as_slice();
        (0..self.count).find(|server| !is_down(falls, request, moment, *server))
    }

    /// A server fell under a request that is not closed; after want of memory nothing is told.
    pub fn fell(&mut self, request: u64, server: u32, moment: u64) -> Result<(), Memory>
        ensures ok { OnOk result (self.new ≡ record self.old { falls = told.with_fall (record { request = Some request; server = server; moment = moment; online_since = false }) self.old.falls }) }
        ensures err { OnErr result (self.new ≡ self.old) }

        // What was told before counts as before, although some falls are kept no longer.
        ensures under { OnOk result ((r s : ℕ) → told.has_fallen_under self.new.falls r s ≡ (told.has_fallen_under self.old.falls r s || ((request == r) && (server == s)))) }
        ensures lately { OnOk result ((t s : ℕ) → told.has_fallen_lately self.new.falls t s ≡ (told.has_fallen_lately self.old.falls t s || ((server == s) && nat_lt t (moment + 30)))) }
    {
        self.falls.reserve(1)?;
        let fall = Fall {
            request: Some(request),
            server,
            moment,
            online_since: false,
        };
        drop_replaced(&mut self.falls, &fall);
        self.falls.push(fall)?;
        Ok(())
    }

    /// The directory can be reached again.
    pub fn online(&mut self)
        ensures falls { self.new ≡ record self.old { falls = told.after_online self.old.falls } }

        // Each request goes on without the servers that fell under it, and no server fell lately.
        ensures under { (r s : ℕ) → told.has_fallen_under self.new.falls r s ≡ told.has_fallen_under self.old.falls r s }
        ensures lately { (t s : ℕ) → told.has_fallen_lately self.new.falls t s ≡ false }
    {
        drop_closed(&mut self.falls);
        mark_online(&mut self.falls);
    }

    /// A request or login attempt is closed.
    pub fn closed(&mut self, request: u64)
        ensures falls { self.new ≡ record self.old { falls = told.after_closed request self.old.falls } }

        // Under this request no server counts as fallen any more; all else counts as before.
        ensures under { (r s : ℕ) → told.has_fallen_under self.new.falls r s ≡ (not (r == request) && told.has_fallen_under self.old.falls r s) }
        ensures lately { (t s : ℕ) → told.has_fallen_lately self.new.falls t s ≡ told.has_fallen_lately self.old.falls t s }
    {
        drop_spent(&mut self.falls, request);
        release(&mut self.falls, request);
    }
}
