// The program: it makes the real objects, hands them to `program` with the words behind its name, and ends with its status.
#![tactic(auto)]

mod outside;

use outside::SystemOutside;
use sd_base::{Memory, ReaderSource, WriterSink};
use sd_clock::OpenGate;
use sd_ldap_server::TcpNetwork;
use sd_serve::{NO_MEMORY, program};
use sd_system::{Health, SystemHost};
use std::process::ExitCode;
use std::{env, io};

/// The words behind the program's name.
fn words(rt: &HostRuntime) -> io::Result<Vec<String>> {
    let mut args = env::args(rt)?;
    let _name = args.next();
    Ok(args.collect(rt.alloc())?)
}

/// The words behind the program's name; none, which have no form, where one of them is not UTF-8.
fn words_or_none(rt: &HostRuntime) -> Result<Vec<String>, Memory> {
    match words(rt) {
        Ok(words) => Ok(words),
        Err(error) if error.kind() == io::ErrorKind::OutOfMemory => Err(Memory),
        Err(_) => Ok(Vec::new(rt.alloc())),
    }
}

fn main(rt: HostRuntime) -> ExitCode {
    let Ok(words) = words_or_none(&rt) else {
        return ExitCode::from(NO_MEMORY);
    };
    let mut source = ReaderSource::new(rt.stdin());
    let mut sink = WriterSink::new(rt.stdout());
    let mut outside = SystemOutside::new(&rt);
    let health = Health::new();
    let mut host = SystemHost::new(&rt, &rt, &health);
    let mut network = TcpNetwork::new(&rt);
    ExitCode::from(program(
        &rt,
        rt.alloc(),
        words.as_slice(),
        &mut source,
        &mut sink,
        &mut outside,
        &mut host,
        &mut network,
        &OpenGate,
    ))
}
