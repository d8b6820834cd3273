// The program.
ghost use Rattle.std.specs.Prelude.{◌≡◌, ◌≢◌, ◌⊎◌, map, string_bytes, true};
ghost use Rattle.std.specs.Io.KnownBytes.{Appends};
ghost use Rattle.sd_base.specs.Causes.{Rose};
ghost use Rattle.sd_serve.specs.Outsides.{IsDialledTwice, LinksFirst, LinksOften};
ghost use Rattle.sd_serve.specs.Promises.{Asks, Directories, IsWithin, Loads, Nets, Numbers, Plays, Prints, Rules, Serves, Voids};
ghost use Rattle.sd_serve.specs.Words.{behind_operand, first_of, has_second, HasNoForm, IsStatus, is_stop, kind_of, NeedsNoHost, operand_of, ReadsInput};
ghost use Rattle.sd_storm.specs.Words.{requests_of};
ghost use Rattle.sd_tools.specs.Endings as endings;

use crate::directories::directory_at;
use crate::netgroups::netgroup_at;
use crate::outside::Outside;
use crate::storms::storm_by;
use crate::sudo::sudo_at;
use crate::texts::{HELP, VERSION};
use crate::tools::{cache_at, query_at};
use crate::words::{Kind, first_of, kind_of, operand_of, second_of};
use sd_base::{Sink, Source};
use sd_clock::Gate;
use sd_dial::Dialer;
use sd_doors::Doors;
use sd_idmap::idmap;
use sd_ldap_server::Network;
use sd_scenario::scenario;
use sd_server::{Equipment, Host, serve};
use sd_tools::endings::end;
use sd_tools::{DONE, NO_DAEMON, NO_MEMORY, READ_FAULT, Status, USAGE, WRITE_FAULT};
use std::alloc::Global;
use std::sync::Wait;
use std::thread::Threads;

/// Prints a text.
fn print<S: Source, W: Sink>(text: &[u8], source: &mut S, sink: &mut W) -> Status
    ensures prints { Prints W.held text.now source.old source.new sink.old sink.new result }
    ensures write_fault { result ≡ WRITE_FAULT → Rose (W.faults sink.old) (W.faults sink.new) }
{
    let _ = source;
    end(sink, DONE, text)
}

/// Plays the scenario that the input gives.
fn play<S: Source, W: Sink>(alloc: Global, words: &[String], source: &mut S, sink: &mut W) -> Status
    requires { kind_of (map string_bytes words.now) ≡ Kind.Scenario }
    ensures plays { Plays S.left S.faults W.held W.faults source.old source.new sink.old sink.new result }
    ensures known { result ≢ USAGE }
    ensures read_fault { result ≡ READ_FAULT → Rose (S.faults source.old) (S.faults source.new) × (sink.new ≡ sink.old) }
    ensures write_fault { result ≡ WRITE_FAULT → Rose (W.faults sink.old) (W.faults sink.new) }
    ensures no_memory { result ≡ NO_MEMORY → sink.new ≡ sink.old }
{
    scenario(alloc, words, source, sink)
}

/// Numbers the SIDs that the input gives.
fn number<S: Source, W: Sink>(
    alloc: Global,
    words: &[String],
    source: &mut S,
    sink: &mut W,
) -> Status
    requires { kind_of (map string_bytes words.now) ≡ Kind.Idmap }
    ensures numbers { Numbers S.left S.faults W.held W.faults source.old source.new sink.old sink.new result }
    ensures known { result ≢ USAGE }
    ensures read_fault { result ≡ READ_FAULT → Rose (S.faults source.old) (S.faults source.new) × (sink.new ≡ sink.old) }
    ensures write_fault { result ≡ WRITE_FAULT → Rose (W.faults sink.old) (W.faults sink.new) }
    ensures no_memory { result ≡ NO_MEMORY → sink.new ≡ sink.old }
{
    idmap(alloc, words, source, sink)
}

/// Does what the words behind the program's name ask for, over its input, its output and what stands outside of it, and gives the
/// status that the program ends with. The words are tested before anything is read; `query` and `cache` connect before they read.
pub fn program<R, S, W, O, H, N, G>(
    rt: &R,
    alloc: Global,
    words: &[String],
    source: &mut S,
    sink: &mut W,
    outside: &mut O,
    host: &mut H,
    network: &mut N,
    gate: &G,
) -> Status
where
    R: Threads + Wait + Sync,
    S: Source,
    W: Sink,
    O: Outside,
    H: Host,
    <H::Door as Doors>::In: Send + Drop,
    <H::Door as Doors>::Out: Send + Drop,
    <<H::Tools as Equipment>::Dial as Dialer>::Line: Send,
    N: Network,
    <N::Door as Doors>::In: Drop,
    <N::Door as Doors>::Out: Drop,
    G: Gate + Sync,
    ensures status { IsStatus result }

    // What each word does, with the cause of each status that it alone has.
    ensures scenario { kind_of (map string_bytes words.now) ≡ Kind.Scenario → Plays S.left S.faults W.held W.faults source.old source.new sink.old sink.new result }
    ensures idmap { kind_of (map string_bytes words.now) ≡ Kind.Idmap → Numbers S.left S.faults W.held W.faults source.old source.new sink.old sink.new result }
    ensures netgroup { kind_of (map string_bytes words.now) ≡ Kind.Netgroup → Nets H.text_at H.source_faults W.held (map string_bytes words.now)
        (operand_of (map string_bytes words.now)) (first_of (behind_operand (map string_bytes words.now))) host.old host.new sink.old sink.new result }
    ensures sudo { kind_of (map string_bytes words.now) ≡ Kind.Sudo → Rules H.text_at H.source_faults W.held (map string_bytes words.now)
        (operand_of (map string_bytes words.now)) (first_of (behind_operand (map string_bytes words.now))) host.old host.new sink.old sink.new result }
    ensures directory { kind_of (map string_bytes words.now) ≡ Kind.Directory → Directories H.text_at H.source_faults N.listened N.ended N.door_faults W.held
        (operand_of (map string_bytes words.now)) (first_of (behind_operand (map string_bytes words.now))) host.old host.new network.old network.new
        sink.old sink.new result }
    ensures storm { kind_of (map string_bytes words.now) ≡ Kind.Storm → Loads W.held (requests_of (operand_of (map string_bytes words.now))) sink.old sink.new result }
    ensures help { kind_of (map string_bytes words.now) ≡ Kind.Help → Prints W.held HELP.now source.old source.new sink.old sink.new result }
    ensures version { kind_of (map string_bytes words.now) ≡ Kind.Version → Prints W.held VERSION.now source.old source.new sink.old sink.new result }
    ensures query { kind_of (map string_bytes words.now) ≡ Kind.Query → result ≢ USAGE → Asks S.left (behind_operand (map string_bytes words.now))
        source.old source.new (O.told outside.old) (O.told outside.new) (W.held sink.old) (W.held sink.new) result }
    ensures cache { kind_of (map string_bytes words.now) ≡ Kind.Cache → result ≢ USAGE → Voids (behind_operand (map string_bytes words.now))
        (O.told outside.old) (O.told outside.new) (W.held sink.old) (W.held sink.new) result }
    ensures serve { kind_of (map string_bytes words.now) ≡ Kind.Serve → Serves H.text_at H.source_faults H.door_faults H.gave H.ended H.stored W.held
        (operand_of (map string_bytes words.now)) (has_second (behind_operand (map string_bytes words.now))) host.old host.new sink.old sink.new result }

    // A password that was sent has at most 1024 bytes.
    ensures within { kind_of (map string_bytes words.now) ≡ Kind.Query → IsWithin (behind_operand (map string_bytes words.now)) (S.left source.old)
        (¬ (O.dialled outside.new ≡ O.dialled outside.old)) result }

    // A tool makes its link at the socket that the words name, and reads nothing before. No other word makes a link.
    ensures query_links { kind_of (map string_bytes words.now) ≡ Kind.Query → LinksOften (operand_of (map string_bytes words.now))
        (O.dialled outside.old) (O.dialled outside.new) (source.new ≡ source.old) }
    ensures cache_links { kind_of (map string_bytes words.now) ≡ Kind.Cache → (source.new ≡ source.old)
        × LinksFirst (operand_of (map string_bytes words.now)) (O.dialled outside.old) (O.dialled outside.new) (Unit {0}) }
    ensures no_link { kind_of (map string_bytes words.now) ≢ Kind.Query → kind_of (map string_bytes words.now) ≢ Kind.Cache → outside.new ≡ outside.old }

    // No other word takes anything of the host, or makes doors on the network, and those that do read no input.
    ensures no_host { NeedsNoHost (kind_of (map string_bytes words.now)) → host.new ≡ host.old }
    ensures no_network { kind_of (map string_bytes words.now) ≢ Kind.Directory → network.new ≡ network.old }
    ensures unread { ¬ (ReadsInput (kind_of (map string_bytes words.now))) → source.new ≡ source.old }

    // A daemon that was told to end is connected to once more, so that it looks up; where that fails, a fault is counted and no more.
    ensures woken { kind_of (map string_bytes words.now) ≡ Kind.Query → result ≡ DONE → is_stop (behind_operand (map string_bytes words.now)) ≡ true
        → IsDialledTwice (operand_of (map string_bytes words.now)) (O.dialled outside.old) (O.dialled outside.new) ⊎ Rose (O.link_faults outside.old) (O.link_faults outside.new) }

    // The words have no form: nothing is read or sent, and `usage` is written, where the sink takes it.
    ensures usage { result ≡ USAGE → HasNoForm (map string_bytes words.now) × Appends (W.held sink.old) (W.held sink.new) endings.usage }
    ensures usage_exactly { HasNoForm (map string_bytes words.now) → (source.new ≡ source.old) × (outside.new ≡ outside.old)
        × (result ≢ WRITE_FAULT → result ≢ NO_MEMORY → result ≡ USAGE) }

    // The source failed in this call. Nothing is written.
    ensures read_fault { ReadsInput (kind_of (map string_bytes words.now)) → result ≡ READ_FAULT
        → Rose (S.faults source.old) (S.faults source.new) × (sink.new ≡ sink.old) }

    // The sink failed in this call, or took nothing of a nonempty piece.
    ensures write_fault { result ≡ WRITE_FAULT → Rose (W.faults sink.old) (W.faults sink.new) }

    // Want of memory. Nothing is written.
    ensures no_memory { kind_of (map string_bytes words.now) ≢ Kind.Serve → result ≡ NO_MEMORY → sink.new ≡ sink.old }

    // A link could not be made, or failed, in this call.
    ensures no_daemon { result ≡ NO_DAEMON → Rose (O.link_faults outside.old) (O.link_faults outside.new) }
{
    let (path, rest) = operand_of(words);
    match kind_of(words) {
        Kind::Scenario => play(alloc, words, source, sink),
        Kind::Idmap => number(alloc, words, source, sink),
        Kind::Netgroup => netgroup_at(alloc, words, path, first_of(rest), sink, host),
        Kind::Sudo => sudo_at(alloc, words, path, first_of(rest), sink, host),
        Kind::Directory => directory_at(rt, alloc, path, first_of(rest), sink, host, network),
        Kind::Storm => storm_by(rt, alloc, words, sink, gate),
        Kind::Help => print(HELP, source, sink),
        Kind::Version => print(VERSION, source, sink),
        Kind::Query => query_at(alloc, path, rest, source, sink, outside),
        Kind::Cache => cache_at(alloc, path, rest, sink, outside),
        Kind::Serve => serve(rt, alloc, path, first_of(rest), second_of(rest), sink, host),
        Kind::Unknown => end(sink, USAGE, b"usage\n"),
    }
}
