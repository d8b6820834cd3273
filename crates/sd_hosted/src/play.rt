// Plays a daemon, and prints what it wrote and left.
use crate::case::{Case, StoreWord};
use crate::doors::Coming;
use crate::host::WorkedHost;
use crate::keeper::CountedKeeper;
use sd_base::{Blobs, Copied, Memory, MemorySink, Numbers};
use sd_ldif::read_ldif;
use sd_provider::short_directory;
use sd_server::serve;
use sd_stub::{Directory, Mode};
use sd_wire::fields::push_number;
use sd_wire::number_of_four;
use std::alloc::Global;
use std::collections::VecDeque;
use std::sync::{Mutex, Wait};
use std::thread::Threads;

/// What stands in the directory.
const ENTRIES: &[u8] = b"\
dn: uid=alice,cn=users,cn=accounts,dc=test
objectClass: posixAccount
uid: alice
cn: Alice Liddell
uidNumber: 1000
gidNumber: 1000
homeDirectory: /home/alice
loginShell: /bin/sh
userPassword: wonderland

dn: uid=bob,cn=users,cn=accounts,dc=test
objectClass: posixAccount
uid: bob
cn: bob
uidNumber: 1001
gidNumber: 1001
homeDirectory: /home/bob
loginShell: /bin/sh

";

/// Plays daemons one after the other.
#[derive(Drop)]
pub struct Player<'r, R> {
    rt: &'r R,
    alloc: Global,
    directory: Directory,
    /// What the store of the daemon before holds.
    left: Blobs,
}

fn directory(alloc: Global) -> Result<Directory, Memory> {
    match read_ldif(alloc, ENTRIES) {
        Ok(entries) => short_directory(alloc, entries.items()),
        Err(_) => Err(Memory),
    }
}

/// The first reply without its length, and the replies behind it.
fn cut_reply(sent: &[u8]) -> (&[u8], &[u8]) {
    if sent.len() < 4 {
        return (sent, &[]);
    }
    let (length, rest) = sent.split_at(4);
    rest.split_at((number_of_four(length) as usize).min(rest.len()))
}

/// Prints what a client was told, a line for each reply.
fn print_replies(alloc: Global, out: &mut Vec<u8>, client: u64, sent: &[u8]) -> Result<(), Memory> {
    let mut left = sent;
    for _ in 0..sent.len() {
        if left.is_empty() {
            break;
        }
        let (reply, rest) = cut_reply(left);
        push_number(alloc, out, client)?;
        out.extend_from_slice(b": ")?;
        out.extend_from_slice(reply)?;
        out.push(b'\n')?;
        left = rest;
    }
    Ok(())
}

/// Prints the first octet of each blob, and how many octets it has.
fn print_blobs(alloc: Global, out: &mut Vec<u8>, blobs: &Blobs) -> Result<(), Memory> {
    for blob in blobs.items() {
        let octets = blob.bytes();
        out.extend_from_slice(b"kept ")?;
        push_number(
            alloc,
            out,
            u64::from(octets.first().copied().unwrap_or(255)),
        )?;
        out.push(b' ')?;
        push_number(alloc, out, octets.len() as u64)?;
        out.push(b'\n')?;
    }
    Ok(())
}

/// A list for each client of what it is sent.
fn lists_of(alloc: Global, count: usize) -> Result<Vec<Mutex<Vec<u8>>>, Memory> {
    let mut lists = Vec::new(alloc);
    for _ in 0..count {
        lists.push(Mutex::new(Vec::new(alloc)))?;
    }
    Ok(lists)
}

/// The clients in their order.
fn coming_of<'a>(
    alloc: Global,
    clients: Vec<Vec<u8>>,
    lists: &'a [Mutex<Vec<u8>>],
) -> Result<VecDeque<Coming<'a>>, Memory> {
    let mut coming = VecDeque::new(alloc);
    for (asks, sent) in clients.into_iter().zip(lists) {
        coming.push_back(Coming { asks, sent })?;
    }
    Ok(coming)
}

impl<'r, R: Threads + Wait + Sync> Player<'r, R> {
    pub fn new(rt: &'r R, alloc: Global) -> Result<Player<'r, R>, Memory> {
        Ok(Player {
            rt,
            alloc,
            directory: directory(alloc)?,
            left: Blobs::new(alloc),
        })
    }

    /// What the store of a daemon has at its beginning.
    fn blobs_of(&self, case: &Case) -> Result<Blobs, Memory> {
        match case.store {
            StoreWord::Again => self.left.copy(),
            StoreWord::Own | StoreWord::None => case.blobs.copy(),
        }
    }

    /// Prints what clients were told.
    fn print_told(
        &self,
        out: &mut Vec<u8>,
        lists: &[Mutex<Vec<u8>>],
        is_silent: bool,
    ) -> Result<(), Memory> {
        let mut client = 0u64;
        let mut first = Vec::new(self.alloc);
        let mut are_alike = true;
        for list in lists {
            let sent = list.lock(self.rt);
            client = client.saturating_add(1);
            if client == 1 {
                first.extend_from_slice(sent.as_slice())?;
            }
            are_alike = are_alike && first.as_slice() == sent.as_slice();
            if !is_silent {
                print_replies(self.alloc, out, client, sent.as_slice())?;
            }
        }
        if is_silent {
            let told: &[u8] = if are_alike {
                b"all were told the same\n"
            } else {
                b"not all were told the same\n"
            };
            out.extend_from_slice(told)?;
        }
        Ok(())
    }

    /// Prints what a store holds, and keeps it for the daemon behind.
    fn print_kept(&mut self, out: &mut Vec<u8>, kept: Option<CountedKeeper>) -> Result<(), Memory> {
        if let Some(keeper) = kept {
            print_blobs(self.alloc, out, keeper.blobs())?;
            self.left = keeper.blobs().copy()?;
        }
        Ok(())
    }

    /// Lets a daemon serve to its end; gives its status and its keeper.
    fn serve<'x>(
        &'x self,
        case: Case,
        lists: &'x [Mutex<Vec<u8>>],
        sink: &mut MemorySink,
    ) -> Result<(u8, Option<CountedKeeper>), Memory> {
        let alloc = self.alloc;
        let blobs = self.blobs_of(&case)?;
        let store = match case.store {
            StoreWord::None => None,
            StoreWord::Own | StoreWord::Again => Some("store"),
        };
        let mut host = WorkedHost {
            rt: &*self.rt,
            alloc,
            conf: case.conf,
            directory: &self.directory,
            mode: if case.is_down { Mode::Down } else { Mode::Up },
            coming: coming_of(alloc, case.clients, lists)?,
            failing_door: case.failing_door,
            moments: case.moments,
            blobs,
            failing_store: case.failing_store,
            kept: None,
            source_faults: 0,
            door_faults: 0,
            gave: false,
            ended: false,
            store_faults: 0,
            store_failed: false,
        };
        let status = serve(self.rt, alloc, "conf", "socket", store, sink, &mut host);
        Ok((status, host.kept))
    }

    /// Plays a daemon, and prints what it wrote and left.
    pub fn play(&mut self, case: Case, out: &mut Vec<u8>) -> Result<(), Memory> {
        let alloc = self.alloc;
        let is_silent = case.is_silent;
        let lists = lists_of(alloc, case.clients.len())?;
        let mut sink = MemorySink::new(Vec::new(alloc), Numbers::new(alloc));
        let (status, kept) = self.serve(case, lists.as_slice(), &mut sink)?;
        out.extend_from_slice(sink.bytes())?;
        out.extend_from_slice(b"= ")?;
        push_number(alloc, out, u64::from(status))?;
        out.push(b'\n')?;
        self.print_told(out, lists.as_slice(), is_silent)?;
        self.print_kept(out, kept)
    }
}
