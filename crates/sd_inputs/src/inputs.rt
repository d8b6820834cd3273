//! A configuration and the entries of a directory, each read to its end.
ghost use Rattle.std.specs.Prelude.{◌≡◌, ◌≤◌, ◌⊎◌, ◌++◌, length, IfOk, IfErr, OnOk, IfSome, Err};
ghost use Rattle.sd_base.specs.Causes.{Rose};
ghost use Rattle.sd_inputs.specs.Inputs as inputs;

use sd_base::{Memory, ReadEnd, Source, Text, read_all};
use sd_conf::{ConfFault, Config, read_conf};
use sd_ldap::DirEntries;
use sd_ldif::{LdifFault, read_ldif};
use sd_wire::fields::{push_bytes, push_numbered};
use std::alloc::Global;

/// The most bytes that a configuration has: 1 MiB.
const CONF_LIMIT: usize = 1_048_576;

/// The most bytes that the entries have: 64 MiB.
const LDIF_LIMIT: usize = 67_108_864;

/// Why an input was not taken.
#[derive(Drop)]
pub enum Stop {
    /// It could not be read.
    ReadFault,
    /// It has more bytes than its limit.
    TooLong,
    /// It is refused; this is written.
    Refused(Text),
    Memory,
}

impl From<Memory> for Stop {
    ghost use Rattle.std.specs.Prelude.{◌≡◌};
    ghost use Rattle.sd_inputs.specs.declared.inputs.Stop.TheVariants as stops;

    ghost from_gives = { λ _ stop. stop ≡ stops.Memory };

    fn from(_error: Memory) -> Stop {
        Stop::Memory
    }
}

/// The name of a refusal of a configuration.
fn conf_name(fault: &ConfFault) -> &'static [u8]
    ensures { result.now ≡ inputs.conf_name fault.now }
{
    match fault {
        ConfFault::BadLine(_) => b"BadLine",
        ConfFault::NoSection(_) => b"NoSection",
        ConfFault::BadValue(_) => b"BadValue",
        ConfFault::ManyDomains(_) => b"ManyDomains",
        ConfFault::NoDomain => b"NoDomain",
        ConfFault::Missing(_) => b"Missing",
        ConfFault::Memory => b"Memory",
    }
}

fn ldif_name(fault: LdifFault) -> &'static [u8]
    ensures { result.now ≡ inputs.ldif_name fault }
{
    match fault {
        LdifFault::BadLine(_) => b"BadLine",
        LdifFault::BadBase64(_) => b"BadBase64",
        LdifFault::NoDn(_) => b"NoDn",
        LdifFault::Memory => b"Memory",
    }
}

/// The value of a refusal of a configuration, behind a space, where it has one.
fn push_conf_value(alloc: Global, out: &mut Vec<u8>, fault: &ConfFault) -> Result<(), Memory>
    ensures { OnOk result (out.new.items ≡ out.old.items ++ inputs.conf_value fault.now) }
{
    match fault {
        ConfFault::BadLine(number)
        | ConfFault::NoSection(number)
        | ConfFault::BadValue(number)
        | ConfFault::ManyDomains(number) => push_numbered(alloc, out, b" ", u64::from(*number)),
        ConfFault::Missing(option) => {
            push_bytes(out, b" ")?;
            push_bytes(out, option.bytes())
        }
        ConfFault::NoDomain | ConfFault::Memory => Ok(()),
    }
}

fn push_ldif_value(alloc: Global, out: &mut Vec<u8>, fault: LdifFault) -> Result<(), Memory>
    ensures { OnOk result (out.new.items ≡ out.old.items ++ inputs.ldif_value fault) }
{
    match fault {
        LdifFault::BadLine(line) | LdifFault::BadBase64(line) | LdifFault::NoDn(line) => {
            push_numbered(alloc, out, b" ", u64::from(line))
        }
        LdifFault::Memory => Ok(()),
    }
}

/// What is written of a refusal.
fn refused(alloc: Global, name: &[u8], value: &[u8]) -> Result<Text, Memory>
    ensures { IfOk result (λ text. text ≡ inputs.refused name.now value.now) }
{
    let mut text = Vec::new(alloc);
    push_bytes(&mut text, b"refused ")?;
    push_bytes(&mut text, name)?;
    push_bytes(&mut text, value)?;
    push_bytes(&mut text, b"\n")?;
    Text::from_bytes(alloc, &text)
}

fn conf_refused(alloc: Global, fault: &ConfFault) -> Result<Text, Memory>
    ensures { IfOk result (λ text. text ≡ inputs.conf_refused fault.now) }
{
    let mut value = Vec::new(alloc);
    push_conf_value(alloc, &mut value, fault)?;
    refused(alloc, conf_name(fault), &value)
}

fn ldif_refused(alloc: Global, fault: LdifFault) -> Result<Text, Memory>
    ensures { IfOk result (λ text. text ≡ inputs.ldif_refused fault) }
{
    let mut value = Vec::new(alloc);
    push_ldif_value(alloc, &mut value, fault)?;
    refused(alloc, ldif_name(fault), &value)
}

/// The configuration that a text has.
fn config_of(alloc: Global, conf: &[u8]) -> Result<Config, Stop>
    requires { length conf.now ≤ CONF_LIMIT }
    ensures config { IfOk result (λ config. inputs.IsConfig conf.now config) }
    ensures stop { IfErr result (λ stop. inputs.StopsReadConf stop conf.now) }
{
    match read_conf(alloc, conf) {
        Ok(config) => Ok(config),
        Err(ConfFault::Memory) => Err(Stop::Memory),
        Err(fault) => Err(Stop::Refused(conf_refused(alloc, &fault)?)),
    }
}

/// The entries that a text has.
fn entries_of(alloc: Global, ldif: &[u8]) -> Result<DirEntries, Stop>
    requires { length ldif.now ≤ LDIF_LIMIT }
    ensures entries { IfOk result (λ entries. inputs.AreEntries ldif.now entries) }
    ensures stop { IfErr result (λ stop. inputs.StopsReadLdif stop ldif.now) }
{
    match read_ldif(alloc, ldif) {
        Ok(entries) => Ok(entries),
        Err(LdifFault::Memory) => Err(Stop::Memory),
        Err(fault) => Err(Stop::Refused(ldif_refused(alloc, fault)?)),
    }
}

/// Reads a configuration to its end.
fn read_config<S: Source>(alloc: Global, conf: &mut S) -> Result<Config, Stop>
    ensures config { IfOk result (λ config. IfSome (S.left conf.old) (λ text. inputs.IsConfig text config)) }
    ensures stop { IfErr result (λ stop. IfSome (S.left conf.old) (λ text. inputs.StopsConf stop text)) }
    ensures fault { result ≡ Err Stop.ReadFault → Rose (S.faults conf.old) (S.faults conf.new) }
{
    match read_all(alloc, conf, CONF_LIMIT) {
        Ok(text) => config_of(alloc, text.as_slice()),
        Err(ReadEnd::Failed) => Err(Stop::ReadFault),
        Err(ReadEnd::TooLong) => Err(Stop::TooLong),
        Err(ReadEnd::Memory) => Err(Stop::Memory),
    }
}

/// Reads entries to their end (RFC 2849).
fn read_entries<S: Source>(alloc: Global, ldif: &mut S) -> Result<DirEntries, Stop>
    ensures entries { IfOk result (λ entries. IfSome (S.left ldif.old) (λ text. inputs.AreEntries text entries)) }
    ensures stop { IfErr result (λ stop. IfSome (S.left ldif.old) (λ text. inputs.StopsLdif stop text)) }
    ensures fault { result ≡ Err Stop.ReadFault → Rose (S.faults ldif.old) (S.faults ldif.new) }
{
    match read_all(alloc, ldif, LDIF_LIMIT) {
        Ok(text) => entries_of(alloc, text.as_slice()),
        Err(ReadEnd::Failed) => Err(Stop::ReadFault),
        Err(ReadEnd::TooLong) => Err(Stop::TooLong),
        Err(ReadEnd::Memory) => Err(Stop::Memory),
    }
}

/// A configuration, and the entries of a directory.
pub struct Inputs {
    pub config: Config,
    pub entries: DirEntries,
}

impl Drop for Inputs {
    fn drop(self) {
        let Inputs {
            config: _,
            entries: _,
        } = self;
    }
}

#[tactic(auto, using(crate::proofs::Told::both_read, crate::proofs::Told::conf_stopped, crate::proofs::Told::ldif_stopped))]
/// Reads both, the configuration first.
pub fn read_inputs<S: Source>(alloc: Global, conf: &mut S, ldif: &mut S) -> Result<Inputs, Stop>
    ensures read { IfOk result (λ read. IfSome (S.left conf.old) (λ c. IfSome (S.left ldif.old) (λ l. inputs.AreInputs c l read))) }
    ensures stops { IfErr result (λ stop. IfSome (S.left conf.old) (λ c. IfSome (S.left ldif.old) (λ l. inputs.StopsAt stop c l))) }
    ensures fault { result ≡ Err Stop.ReadFault → Rose (S.faults conf.old) (S.faults conf.new) ⊎ Rose (S.faults ldif.old) (S.faults ldif.new) }
{
    let config = read_config(alloc, conf)?;
    let entries = read_entries(alloc, ldif)?;
    Ok(Inputs { config, entries })
}
