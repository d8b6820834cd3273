//! Clients that wait with a whole frame.
ghost use Rattle.std.specs.Prelude.{◌≡◌, ◌++◌, ◌<◌, [], ◌∷◌, length, option_copied, slice_get, IfOk};
ghost use Rattle.sd_unix.specs.Lobbies as lobbies;

use sd_base::Memory;
use std::alloc::Global;
use std::collections::VecDeque;
use std::marker::Model;

/// The most clients that wait in a line.
pub const MOST_IN_LINE: usize = 768;

/// Clients in the order in which their frames came whole.
#[derive(Drop)]
pub struct Line<C: Drop> {
    clients: VecDeque<C>,
}

impl<C: Drop> Model for Line<C> {
    ghost use Rattle.std.specs.Prelude.{List, ◌≤◌};
    ghost use Rattle.std.specs.VecDeque.{deque_len, deque_capacity};

    ghost Value = { List C };

    ghost view = { λ l. l.clients.items };

    ghost invariant = { λ l. (deque_len l.clients ≤ 768) × (768 ≤ deque_capacity l.clients) };
}

impl<C: Drop> Line<C> {
    /// An empty line, with the room for every client.
    pub fn new(alloc: Global) -> Result<Line<C>, Memory>
        ensures { IfOk result (λ line. line ≡ []) }
    {
        Ok(Line {
            clients: VecDeque::with_capacity(alloc, MOST_IN_LINE)?,
        })
    }

    /// How many wait.
    pub fn len(&self) -> usize
        ensures { result ≡ length self.now }
    {
        self.clients.len()
    }

    /// Who has waited for longest.
    pub fn first(&self) -> Option<&C>
        ensures { option_copied result ≡ slice_get self.now 0 }
    {
        self.clients.get(0)
    }

    /// Takes who has waited for longest.
    pub fn next(&mut self) -> Option<C>
        ensures { lobbies.TakesHead self.old result self.new }
    {
        self.clients.pop_front()
    }

    /// Puts a client behind all others. Of a full line the one that has waited for longest leaves.
    pub fn join(&mut self, client: C) -> Option<C>
        ensures left { result ≡ lobbies.sent_away MOST_IN_LINE self.old }
        ensures new { self.new ≡ lobbies.with_room MOST_IN_LINE self.old ++ client ∷ [] }
    {
        let left = self.make_room();
        self.clients.push_back_reserved(client);
        left
    }

    /// Makes room for one client.
    fn make_room(&mut self) -> Option<C>
        ensures left { result ≡ lobbies.sent_away MOST_IN_LINE self.old }
        ensures new { self.new ≡ lobbies.with_room MOST_IN_LINE self.old }
        ensures room { length self.new < MOST_IN_LINE }
    {
        if self.clients.len() >= MOST_IN_LINE {
            return self.clients.pop_front();
        }
        None
    }
}
