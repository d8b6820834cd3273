// The word `sudo` over the files of a host.
ghost use Rattle.std.specs.Prelude.{◌≡◌, ◌≢◌, map, string_bytes};
ghost use Rattle.sd_base.specs.Causes.{Rose};
ghost use Rattle.sd_serve.specs.Promises.{Rules};
ghost use Rattle.sd_serve.specs.Words.{kind_of};

use crate::files::{close_both, open_both};
use crate::words::Kind;
use sd_base::Sink;
use sd_server::Host;
use sd_sudo::sudo_tool;
use sd_tools::{NO_MEMORY, READ_FAULT, Status, USAGE, WRITE_FAULT};
use std::alloc::Global;

/// Opens the two files, and answers by them which sudo rules apply to a user.
pub fn sudo_at<W: Sink, H: Host>(
    alloc: Global,
    words: &[String],
    conf: &str,
    ldif: &str,
    sink: &mut W,
    host: &mut H,
) -> Status
    requires { kind_of (map string_bytes words.now) ≡ Kind.Sudo }
    ensures rules { Rules H.text_at H.source_faults W.held (map string_bytes words.now) conf.now ldif.now host.old host.new sink.old sink.new result }
    ensures known { result ≢ USAGE }
    ensures write_fault { result ≡ WRITE_FAULT → Rose (W.faults sink.old) (W.faults sink.new) }
    ensures no_memory { result ≡ NO_MEMORY → sink.new ≡ sink.old }
{
    let Ok((mut conf, mut ldif)) = open_both(conf, ldif, host) else {
        return READ_FAULT;
    };
    let status = sudo_tool(alloc, words, &mut conf, &mut ldif, sink);
    close_both(conf, ldif, host);
    status
}
