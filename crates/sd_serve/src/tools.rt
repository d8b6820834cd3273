// The tools `query` and `cache` over a link that is made at a socket.
ghost use Rattle.std.specs.Prelude.{◌≡◌, ◌≢◌, ◌⊎◌, ◌≤◌, [], ◌∷◌, map, string_bytes, is_some, true, None};
ghost use Rattle.std.specs.Io.KnownBytes.{Appends};
ghost use Rattle.sd_base.specs.Causes.{Rose};
ghost use Rattle.sd_serve.specs.Outsides.{IsDialledTwice, LinksFirst, LinksOften};
ghost use Rattle.sd_serve.specs.Promises.{Asks, IsWithin, Voids};
ghost use Rattle.sd_serve.specs.Words.{is_stop};
ghost use Rattle.sd_tools.specs.Endings as endings;
ghost use Rattle.sd_tools.specs.Options.{requests_of};
ghost use Rattle.sd_tools.specs.Queries.{query_of};
ghost use Rattle.sd_tools.specs.Replies.{with_pieces};

use crate::outside::Outside;
use crate::words::is_stop;
use sd_base::{Memory, Sink, Source};
use sd_tools::endings::end;
use sd_tools::{
    DONE, NO_DAEMON, NO_MEMORY, READ_FAULT, Status, USAGE, WRITE_FAULT, cache, has_form_of_cache,
    has_form_of_query, query,
};
use std::alloc::Global;

/// Connects, and asks the daemon what words ask. Where no link is made, no input is read.
fn ask_at<S: Source, W: Sink, O: Outside>(
    alloc: Global,
    socket: &str,
    rest: &[String],
    source: &mut S,
    sink: &mut W,
    outside: &mut O,
) -> Status
    requires { is_some (query_of (map string_bytes rest.now)) ≡ true }
    ensures asks { Asks S.left (map string_bytes rest.now) source.old source.new (O.told outside.old) (O.told outside.new) (W.held sink.old) (W.held sink.new) result }
    ensures within { IsWithin (map string_bytes rest.now) (S.left source.old) (¬ (O.dialled outside.new ≡ O.dialled outside.old)) result }
    ensures links { LinksFirst socket.now (O.dialled outside.old) (O.dialled outside.new) (source.new ≡ source.old) }
    ensures later { O.link_faults outside.old ≤ O.link_faults outside.new }
    ensures linked { result ≡ DONE → O.dialled outside.new ≡ with_pieces (O.dialled outside.old) (socket.now ∷ []) }
    ensures no_daemon { result ≡ NO_DAEMON → Rose (O.link_faults outside.old) (O.link_faults outside.new) }
    ensures read_fault { result ≡ READ_FAULT → Rose (S.faults source.old) (S.faults source.new) × (sink.new ≡ sink.old) }
    ensures write_fault { result ≡ WRITE_FAULT → Rose (W.faults sink.old) (W.faults sink.new) }
    ensures no_memory { result ≡ NO_MEMORY → sink.new ≡ sink.old }
{
    let Ok(mut link) = outside.connect(socket) else {
        return end(sink, NO_DAEMON, b"no daemon\n");
    };
    let status = query(alloc, rest, source, sink, &mut link);
    outside.done_link(link);
    status
}

/// Makes an empty connection, so that a daemon that waits for a client looks up. A failure changes nothing.
fn wake<O: Outside>(socket: &str, outside: &mut O)
    ensures told { O.told outside.new ≡ O.told outside.old }
    ensures links { LinksFirst socket.now (O.dialled outside.old) (O.dialled outside.new) (Rose (O.link_faults outside.old) (O.link_faults outside.new)) }
{
    if let Ok(link) = outside.connect(socket) {
        outside.done_link(link);
    }
}

/// Wakes a daemon that was told to end.
fn wake_stopped<O: Outside>(status: Status, socket: &str, rest: &[String], outside: &mut O)
    ensures told { O.told outside.new ≡ O.told outside.old }
    ensures links { LinksFirst socket.now (O.dialled outside.old) (O.dialled outside.new) (status ≡ DONE → is_stop (map string_bytes rest.now) ≡ true → Rose (O.link_faults outside.old) (O.link_faults outside.new)) }
    ensures others { status ≢ DONE → outside.new ≡ outside.old }
{
    if status == DONE && is_stop(rest) {
        wake(socket, outside);
    }
}

/// Connects, asks the daemon what words ask, and wakes a daemon that was told to end.
fn ask_and_wake<S: Source, W: Sink, O: Outside>(
    alloc: Global,
    socket: &str,
    rest: &[String],
    source: &mut S,
    sink: &mut W,
    outside: &mut O,
) -> Status
    requires { is_some (query_of (map string_bytes rest.now)) ≡ true }
    ensures asks { Asks S.left (map string_bytes rest.now) source.old source.new (O.told outside.old) (O.told outside.new) (W.held sink.old) (W.held sink.new) result }
    ensures within { IsWithin (map string_bytes rest.now) (S.left source.old) (¬ (O.dialled outside.new ≡ O.dialled outside.old)) result }
    ensures links { LinksOften socket.now (O.dialled outside.old) (O.dialled outside.new) (source.new ≡ source.old) }
    ensures woken { result ≡ DONE → is_stop (map string_bytes rest.now) ≡ true → IsDialledTwice socket.now (O.dialled outside.old) (O.dialled outside.new) ⊎ Rose (O.link_faults outside.old) (O.link_faults outside.new) }
    ensures no_daemon { result ≡ NO_DAEMON → Rose (O.link_faults outside.old) (O.link_faults outside.new) }
    ensures read_fault { result ≡ READ_FAULT → Rose (S.faults source.old) (S.faults source.new) × (sink.new ≡ sink.old) }
    ensures write_fault { result ≡ WRITE_FAULT → Rose (W.faults sink.old) (W.faults sink.new) }
    ensures no_memory { result ≡ NO_MEMORY → sink.new ≡ sink.old }
{
    let status = ask_at(alloc, socket, rest, source, sink, outside);
    wake_stopped(status, socket, rest, outside);
    status
}

/// `query`, whose form is tested before anything is read or sent.
pub fn query_at<S: Source, W: Sink, O: Outside>(
    alloc: Global,
    socket: &str,
    rest: &[String],
    source: &mut S,
    sink: &mut W,
    outside: &mut O,
) -> Status
    ensures status { endings.IsStatusOfQuery result }
    ensures asks { result ≢ USAGE → Asks S.left (map string_bytes rest.now) source.old source.new (O.told outside.old) (O.told outside.new) (W.held sink.old) (W.held sink.new) result }
    ensures within { IsWithin (map string_bytes rest.now) (S.left source.old) (¬ (O.dialled outside.new ≡ O.dialled outside.old)) result }
    ensures links { LinksOften socket.now (O.dialled outside.old) (O.dialled outside.new) (source.new ≡ source.old) }
    ensures woken { result ≡ DONE → is_stop (map string_bytes rest.now) ≡ true → IsDialledTwice socket.now (O.dialled outside.old) (O.dialled outside.new) ⊎ Rose (O.link_faults outside.old) (O.link_faults outside.new) }
    ensures no_daemon { result ≡ NO_DAEMON → Rose (O.link_faults outside.old) (O.link_faults outside.new) }
    ensures usage { result ≡ USAGE → (query_of (map string_bytes rest.now) ≡ None) × Appends (W.held sink.old) (W.held sink.new) endings.usage }
    ensures usage_exactly { query_of (map string_bytes rest.now) ≡ None → (source.new ≡ source.old) × (outside.new ≡ outside.old) × (result ≢ WRITE_FAULT → result ≢ NO_MEMORY → result ≡ USAGE) }
    ensures read_fault { result ≡ READ_FAULT → Rose (S.faults source.old) (S.faults source.new) × (sink.new ≡ sink.old) }
    ensures write_fault { result ≡ WRITE_FAULT → Rose (W.faults sink.old) (W.faults sink.new) }
    ensures no_memory { result ≡ NO_MEMORY → sink.new ≡ sink.old }
{
    match has_form_of_query(alloc, rest) {
        Ok(true) => ask_and_wake(alloc, socket, rest, source, sink, outside),
        Ok(false) => end(sink, USAGE, b"usage\n"),
        Err(Memory) => NO_MEMORY,
    }
}

/// Connects, and has the answers asked anew that words name.
fn void_at<W: Sink, O: Outside>(
    alloc: Global,
    socket: &str,
    rest: &[String],
    sink: &mut W,
    outside: &mut O,
) -> Status
    requires { is_some (requests_of (map string_bytes rest.now)) ≡ true }
    ensures voids { Voids (map string_bytes rest.now) (O.told outside.old) (O.told outside.new) (W.held sink.old) (W.held sink.new) result }
    ensures links { LinksFirst socket.now (O.dialled outside.old) (O.dialled outside.new) (Unit {0}) }
    ensures no_daemon { result ≡ NO_DAEMON → Rose (O.link_faults outside.old) (O.link_faults outside.new) }
    ensures write_fault { result ≡ WRITE_FAULT → Rose (W.faults sink.old) (W.faults sink.new) }
    ensures no_memory { result ≡ NO_MEMORY → sink.new ≡ sink.old }
{
    let Ok(mut link) = outside.connect(socket) else {
        return end(sink, NO_DAEMON, b"no daemon\n");
    };
    let status = cache(alloc, rest, sink, &mut link);
    outside.done_link(link);
    status
}

/// `cache`, whose form is tested before anything is sent.
pub fn cache_at<W: Sink, O: Outside>(
    alloc: Global,
    socket: &str,
    rest: &[String],
    sink: &mut W,
    outside: &mut O,
) -> Status
    ensures status { endings.IsStatusOfCache result }
    ensures voids { result ≢ USAGE → Voids (map string_bytes rest.now) (O.told outside.old) (O.told outside.new) (W.held sink.old) (W.held sink.new) result }
    ensures links { LinksFirst socket.now (O.dialled outside.old) (O.dialled outside.new) (Unit {0}) }
    ensures no_daemon { result ≡ NO_DAEMON → Rose (O.link_faults outside.old) (O.link_faults outside.new) }
    ensures usage { result ≡ USAGE → (requests_of (map string_bytes rest.now) ≡ None) × Appends (W.held sink.old) (W.held sink.new) endings.usage }
    ensures usage_exactly { requests_of (map string_bytes rest.now) ≡ None → (outside.new ≡ outside.old) × (result ≢ WRITE_FAULT → result ≢ NO_MEMORY → result ≡ USAGE) }
    ensures write_fault { result ≡ WRITE_FAULT → Rose (W.faults sink.old) (W.faults sink.new) }
    ensures no_memory { result ≡ NO_MEMORY → sink.new ≡ sink.old }
{
    match has_form_of_cache(alloc, rest) {
        Ok(true) => void_at(alloc, socket, rest, sink, outside),
        Ok(false) => end(sink, USAGE, b"usage\n"),
        Err(Memory) => NO_MEMORY,
    }
}
