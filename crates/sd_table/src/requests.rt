// The request table, which contracts see as the open requests with their keys and the waiting tickets with their requests
// and outcomes.
ghost use Rattle.std.specs.Prelude.{◌≡◌, ℕ, ◌==◌, [], OnOk, OnErr, OnSome, Some, None, is_none, true, false, if◌then◌else◌};
ghost use Rattle.std.specs.Option.{option_copied, option_map};
ghost use Rattle.sd_rules.specs.declared.keys.Key.{Key};
ghost use Rattle.sd_rules.specs.Keys.{same_key};
ghost use Rattle.sd_table.specs.Table as table;

use crate::waited::{Waited, give};
use crate::{keys, tickets};
use sd_base::Memory;
use sd_rules::{Key, Outcome};
use std::alloc::Global;
use std::collections::{BTreeMap, HashMap};
use std::marker::Model;

/// The open requests and the tickets that wait, each by its number.
///
/// The time of a call grows with the logarithm of their number, and that of `close` not with the tickets of the request:
/// its outcome is kept once, until the last of them has taken it or left.
pub struct Requests {
    keys: BTreeMap<u64, Key>,
    numbers: HashMap<Key, u64>,
    tickets: BTreeMap<u64, u64>,
    waited: BTreeMap<u64, Waited>,
}

impl Drop for Requests {
    fn drop(self) {
        let Requests {
            keys: _,
            numbers: _,
            tickets: _,
            waited: _,
        } = self;
    }
}

impl Model for Requests {
    ghost use Rattle.std.specs.Ordering.{nat_cmp};
    ghost use Rattle.std.specs.BTreeMap as tree;
    ghost use Rattle.std.specs.HashMap as hash;
    ghost use Rattle.sd_table.specs.Table.{Table};
    ghost use Rattle.sd_table.specs.Kept.{keys_equal, seen_tickets, IsKept};

    ghost Value = { Table };

    ghost view = { λ r. record { requests = r.keys.entries; tickets = seen_tickets r.tickets.entries (tree.get nat_cmp r.waited) } };

    ghost invariant = { λ r. IsKept r.keys.entries (hash.get keys_equal r.numbers) r.tickets.entries (tree.get nat_cmp r.waited) };
}

impl Requests {
    /// A table with no request and no ticket.
    pub fn new(alloc: Global) -> Requests
        ensures { result ≡ record { requests = []; tickets = [] } }
    {
        Requests {
            keys: BTreeMap::new(alloc),
            numbers: HashMap::new(alloc),
            tickets: BTreeMap::new(alloc),
            waited: BTreeMap::new(alloc),
        }
    }

    /// The request that is open for a key.
    pub fn running(&self, key: &Key) -> Option<u64>
        ensures { result ≡ table.open_for self.now.requests key.now }
    {
        keys::number_of(&self.numbers, key)
    }

    /// The key of a request, while it is open.
    pub fn key(&self, number: u64) -> Option<&Key>
        ensures key { option_copied result ≡ table.at_number self.now.requests number }

        // No two open requests have the same key.
        ensures alone { (k : Key) → table.at_number self.now.requests number ≡ Some k → table.open_for self.now.requests k ≡ Some number }
    {
        self.keys.get(&number)
    }

    /// The request that a ticket waits for.
    pub fn waits(&self, ticket: u64) -> Option<u64>
        ensures { result ≡ table.waits_for self.now ticket }
    {
        self.tickets.get(&ticket).copied()
    }

    /// Opens a request for a key that has none open.
    pub fn lead(&mut self, number: u64, key: &Key) -> Result<(), Memory>
        requires free { table.open_for self.old.requests key.now ≡ None }
        requires new { table.is_named self.old number ≡ false }
        ensures ok { OnOk result (self.new ≡ table.with_request number key.now self.old) }
        ensures err { OnErr result (self.new ≡ self.old) }

        // The same by each number, and by each key.
        ensures keys { OnOk result ((n : ℕ) → table.at_number self.new.requests n ≡ (if n == number then Some key.now else table.at_number self.old.requests n)) }
        ensures numbers { OnOk result ((k : Key) → table.open_for self.new.requests k ≡ (if same_key key.now k then Some number else table.open_for self.old.requests k)) }
    {
        keys::add(&mut self.keys, &mut self.numbers, number, key)?;
        Ok(())
    }

    /// Lets a ticket wait for an open request.
    pub fn join(&mut self, number: u64, ticket: u64) -> Result<(), Memory>
        requires open_request { table.is_open_request self.old number ≡ true }
        requires new { table.is_named self.old ticket ≡ false }
        ensures ok { OnOk result (self.new ≡ table.with_ticket number ticket self.old) }
        ensures err { OnErr result (self.new ≡ self.old) }

        // The same by each ticket.
        ensures each { OnOk result ((t : ℕ) → table.at_number self.new.tickets t ≡ (if t == ticket then Some (record { request = number; outcome = None }) else table.at_number self.old.tickets t)) }
    {
        tickets::add(&mut self.tickets, &mut self.waited, number, ticket)?;
        Ok(())
    }

    /// Closes an open request, and gives its outcome to each of its tickets.
    pub fn close(&mut self, number: u64, outcome: Outcome)
        requires { table.is_open_request self.old number ≡ true }
        ensures table { self.new ≡ table.after_close number outcome self.old }

        // The same by each number, by each key and by each ticket.
        ensures keys { (n : ℕ) → table.at_number self.new.requests n ≡ (if n == number then None else table.at_number self.old.requests n) }
        ensures numbers { (key k : Key) → table.at_number self.old.requests number ≡ Some key → table.open_for self.new.requests k ≡ (if same_key key k then None else table.open_for self.old.requests k) }
        ensures each { (t : ℕ) → table.at_number self.new.tickets t ≡ option_map (table.with_outcome number outcome) (table.at_number self.old.tickets t) }
    {
        keys::remove(&mut self.keys, &mut self.numbers, number);
        give(&mut self.waited, number, outcome);
    }

    /// The outcome for a ticket that waits and whose request is closed; the ticket waits no more then.
    pub fn take(&mut self, ticket: u64) -> Option<Outcome>
        ensures outcome { result ≡ table.outcome_for self.old ticket }
        // None exactly where the ticket does not wait or its request is open.
        ensures none { is_none result ≡ table.has_none_to_take self.old ticket }

        ensures table { self.new ≡ table.after_take ticket self.old }
        ensures each { OnSome result ((t : ℕ) → table.at_number self.new.tickets t ≡ (if t == ticket then None else table.at_number self.old.tickets t)) }
    {
        let outcome = tickets::outcome_of(&self.tickets, &self.waited, ticket)?;
        self.leave(ticket);
        Some(outcome)
    }

    /// Lets a ticket wait no more, if it does.
    pub fn leave(&mut self, ticket: u64)
        ensures table { self.new ≡ table.without_ticket ticket self.old }
        ensures each { (t : ℕ) → table.at_number self.new.tickets t ≡ (if t == ticket then None else table.at_number self.old.tickets t) }
    {
        tickets::remove(&mut self.tickets, &mut self.waited, ticket);
    }
}
