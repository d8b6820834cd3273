// The word `directory`: how it ends, and two clients over TCP.
ghost use Rattle.std.specs.Prelude.{◌≡◌, None};
ghost use Rattle.std.specs.Option.{ForSome};

use sd_base::{Memory, MemorySink, MemorySource, Numbers};
use sd_doors::{DoorFailed, Doors, MemoryDoors, TcpDoors};
use sd_ldap_server::{Network, TcpNetwork, directory, is_address};
use sd_tools::Status;
use std::alloc::Global;
use std::collections::VecDeque;
use std::io;
use std::io::{Read, Write};
use std::net::{Net, TcpListener, TcpStream};
use std::sync::Wait;
use std::thread::{Threads, join};
use std::time::Clock;

/// The bind of an anonymous client, and its answer.
const BIND: [u8; 14] = [48, 12, 2, 1, 1, 96, 7, 2, 1, 3, 4, 0, 128, 0];

const BOUND: [u8; 14] = [48, 12, 2, 1, 1, 97, 7, 10, 1, 0, 4, 0, 4, 0];

/// Doors through which so many connections come, and then none.
#[derive(Drop)]
struct FewDoors<D: Doors + Drop> {
    doors: D,
    left: u32,
    gave: bool,
    ended: bool,
    faults: u64,
}

impl<D: Doors + Drop> Doors for FewDoors<D> {
    type In = D::In;

    type Out = D::Out;

    ghost gave = { λ d. d.gave };

    ghost ended = { λ d. d.ended };

    ghost faults = { λ d. d.faults };

    fn accept(&mut self) -> Result<Option<(D::In, D::Out)>, DoorFailed> {
        if self.left == 0 {
            self.ended = true;
            return Ok(None);
        }
        self.left -= 1;
        match self.doors.accept() {
            Ok(Some(client)) => {
                self.gave = true;
                Ok(Some(client))
            }
            Ok(None) => {
                self.ended = true;
                Ok(None)
            }
            Err(DoorFailed) => {
                self.faults = self.faults.saturating_add(1);
                Err(DoorFailed)
            }
        }
    }
}

/// The one address of the network here.
const ADDRESS: &str = "localhost:389";

/// A network that has these doors at one address, once.
#[derive(Drop)]
struct OneAddress<D: Doors + Drop> {
    doors: Option<FewDoors<D>>,
    ended: bool,
    faults: u64,
    ghost unfailed: { ForSome doors (λ d. d.faults ≡ 0) },
}

impl<D: Doors + Drop> Network for OneAddress<D> {
    type Door = FewDoors<D>;

    ghost listened = { λ _. None };

    ghost ended = { λ n. n.ended };

    ghost door_faults = { λ n. n.faults };

    fn listen(&mut self, address: &str) -> Result<FewDoors<D>, DoorFailed> {
        let doors = self.doors.take();
        match doors {
            Some(doors) if address == ADDRESS => Ok(doors),
            _ => {
                self.faults = self.faults.saturating_add(1);
                Err(DoorFailed)
            }
        }
    }

    fn done_doors(&mut self, doors: FewDoors<D>) {
        self.ended = doors.ended;
        if doors.faults > 0 {
            self.faults = self.faults.saturating_add(1);
        }
    }
}

fn network_of<D: Doors + Drop>(doors: D, left: u32) -> OneAddress<D> {
    OneAddress {
        doors: Some(FewDoors {
            doors,
            left,
            gave: false,
            ended: false,
            faults: 0,
        }),
        ended: false,
        faults: 0,
    }
}

/// The list of one call that is to fail; 0 is none.
fn failing(alloc: Global, call: u32) -> Result<Numbers, Memory> {
    let mut numbers = Numbers::new(alloc);
    numbers.push(call)?;
    Ok(numbers)
}

/// An LDIF, the address, and which calls on it, on the sink and on the doors are to fail.
#[derive(Clone, Copy)]
struct Served {
    ldif: &'static str,
    address: &'static str,
    failing_read: u32,
    failing_write: u32,
    failing_accept: u32,
}

const fn unfailing(ldif: &'static str) -> Served {
    Served {
        ldif,
        address: ADDRESS,
        failing_read: 0,
        failing_write: 0,
        failing_accept: 0,
    }
}

/// The status and the output of a case.
fn ending_of<R: Wait>(rt: &R, alloc: Global, case: &Served) -> Result<(Status, Vec<u8>), Memory> {
    let ldif = Vec::from_slice(alloc, case.ldif.as_bytes())?;
    let mut source = MemorySource::new(ldif, failing(alloc, case.failing_read)?);
    let mut sink = MemorySink::new(Vec::new(alloc), failing(alloc, case.failing_write)?);
    let doors = MemoryDoors::new(VecDeque::new(alloc), failing(alloc, case.failing_accept)?);
    let mut network = network_of(doors, 9);
    let status = directory(
        rt,
        alloc,
        &mut source,
        case.address,
        &mut sink,
        &mut network,
    );
    Ok((status, Vec::from_slice(alloc, sink.bytes())?))
}

/// Words that are addresses, and words that are none.
const WORDS: [&str; 11] = [
    "localhost:389",
    "127.0.0.1:1",
    "a_b-c.d:65535",
    "localhost:65536",
    "localhost:0",
    "localhost:0389",
    "localhost:",
    "localhost",
    ":389",
    "local host:389",
    "::1:389",
];

/// What a client that binds is answered.
fn bind<R: Net>(net: &R, address: &str) -> io::Result<[u8; 14]> {
    let mut stream = TcpStream::connect(net, address)?;
    stream.write_all(&BIND)?;
    let mut answer = [0u8; 14];
    stream.read_exact(&mut answer)?;
    Ok(answer)
}

/// The status of the word over a directory of no entries, for two clients.
fn serve_two<R: Wait + Net + Clock>(rt: &R, alloc: Global, doors: TcpDoors<'_, R>) -> Status {
    let mut network = network_of(doors, 2);
    let mut source = MemorySource::new(Vec::new(alloc), Numbers::new(alloc));
    let mut sink = MemorySink::new(Vec::new(alloc), Numbers::new(alloc));
    directory(rt, alloc, &mut source, ADDRESS, &mut sink, &mut network)
}

/// How the word ends at an address of this host over a directory of no entries, and what is written.
fn ending_at<R: Wait + Net + Clock>(
    rt: &R,
    alloc: Global,
    address: &str,
) -> Result<(Status, Vec<u8>), Memory> {
    let mut network = TcpNetwork::new(rt);
    let mut source = MemorySource::new(Vec::new(alloc), Numbers::new(alloc));
    let mut sink = MemorySink::new(Vec::new(alloc), Numbers::new(alloc));
    let status = directory(rt, alloc, &mut source, address, &mut sink, &mut network);
    Ok((status, Vec::from_slice(alloc, sink.bytes())?))
}

/// The status of the word in a thread, and what two clients that bind are answered meanwhile, one after the other.
fn bind_twice<R>(rt: &R, alloc: Global, address: &str) -> io::Result<(Status, [[u8; 14]; 2])>
where
    R: Threads + Wait + Net<Listener = TcpListener, Stream = TcpStream> + Clock + Sync,
{
    let doors = TcpDoors::open(rt, address)?;
    let (status, answers) = join(
        rt,
        move || serve_two(rt, alloc, doors),
        || -> io::Result<[[u8; 14]; 2]> { Ok([bind(rt, address)?, bind(rt, address)?]) },
    );
    Ok((status, answers?))
}

fn print_ending(
    alloc: Global,
    out: &mut Vec<u8>,
    output: &[u8],
    status: Status,
) -> Result<(), Memory> {
    out.extend_from_slice(output)?;
    out.extend_from_slice(format!(in alloc; "= {status}\n")?.as_bytes())?;
    Ok(())
}

/// How the word ends over an LDIF, without one, and where a call fails.
fn print_endings<R: Wait>(rt: &R, alloc: Global, out: &mut Vec<u8>) -> Result<(), Memory> {
    let mut cases = [
        unfailing(""),
        unfailing("dn: dc=test\ncn: a\n"),
        unfailing("cn: a\n"),
        unfailing("dn: dc=test\ncn:: a\n"),
        unfailing("dn: dc=test\ncn:< a\n"),
        unfailing(""),
        unfailing(""),
        unfailing(""),
        unfailing("cn: a\n"),
    ];
    cases[5].failing_read = 1;
    cases[6].failing_accept = 1;
    cases[7].address = "localhost:390";
    cases[8].failing_write = 1;
    for case in &cases {
        let (status, output) = ending_of(rt, alloc, case)?;
        print_ending(alloc, out, output.as_slice(), status)?;
    }
    Ok(())
}

fn print_word(out: &mut Vec<u8>, word: &str) -> Result<(), Memory> {
    out.extend_from_slice(word.as_bytes())?;
    let kind = if is_address(word.as_bytes()) {
        " is an address\n"
    } else {
        " is none\n"
    };
    out.extend_from_slice(kind.as_bytes())?;
    Ok(())
}

/// Listens at a port of this host, and gives its number too.
fn listen<R>(net: &R) -> io::Result<(TcpListener, u16)>
where
    R: Net<Listener = TcpListener, Stream = TcpStream>,
{
    let listener = TcpListener::bind(net, "127.0.0.1:0")?;
    let port = listener.local_addr()?.port();
    Ok((listener, port))
}

/// How the word ends at an address that is taken.
fn print_taken<R: Wait + Net + Clock>(
    rt: &R,
    alloc: Global,
    address: &str,
    out: &mut Vec<u8>,
) -> Result<(), Memory> {
    let (status, output) = ending_at(rt, alloc, address)?;
    print_ending(alloc, out, output.as_slice(), status)
}

/// How the word ends for two clients that bind, and whether both are told that they are bound.
fn are_bound<R>(rt: &R, alloc: Global, address: &str) -> io::Result<(Status, bool)>
where
    R: Threads + Wait + Net<Listener = TcpListener, Stream = TcpStream> + Clock + Sync,
{
    let (status, answers) = bind_twice(rt, alloc, address)?;
    Ok((status, answers == [BOUND, BOUND]))
}

fn print_bound<R>(rt: &R, alloc: Global, address: &str, out: &mut Vec<u8>) -> Result<(), Memory>
where
    R: Threads + Wait + Net<Listener = TcpListener, Stream = TcpStream> + Clock + Sync,
{
    match are_bound(rt, alloc, address) {
        Ok((status, true)) => print_ending(alloc, out, b"both are bound\n", status),
        Ok((status, false)) => print_ending(alloc, out, b"other answers\n", status),
        Err(_) => Ok(out.extend_from_slice(b"no connection\n")?),
    }
}

/// How the word ends where its port is taken, and then with two clients.
fn print_over_tcp<R>(rt: &R, alloc: Global, out: &mut Vec<u8>) -> Result<(), Memory>
where
    R: Threads + Wait + Net<Listener = TcpListener, Stream = TcpStream> + Clock + Sync,
{
    let Ok((listener, port)) = listen(rt) else {
        return Ok(out.extend_from_slice(b"no socket\n")?);
    };
    let address = format!(in alloc; "127.0.0.1:{port}")?;
    print_taken(rt, alloc, address.as_str(), out)?;
    drop(listener);
    print_bound(rt, alloc, address.as_str(), out)
}

/// Prints how the word `directory` ends, in memory and over TCP.
pub fn print_directories<R>(rt: &R, alloc: Global, out: &mut Vec<u8>) -> Result<(), Memory>
where
    R: Threads + Wait + Net<Listener = TcpListener, Stream = TcpStream> + Clock + Sync,
{
    out.extend_from_slice(b"== the word directory\n")?;
    print_endings(rt, alloc, out)?;
    for word in WORDS {
        print_word(out, word)?;
    }
    print_over_tcp(rt, alloc, out)
}
