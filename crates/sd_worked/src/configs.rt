// What configurations say.
use crate::output::{print, print_line, print_number, print_text};
use sd_base::{Memory, Texts};
use sd_conf::{ConfFault, Config, read_conf};
use sd_rules::{AccessMode, Settings};
use std::alloc::Global;

fn print_fault(alloc: Global, fault: &ConfFault, out: &mut Vec<u8>) -> Result<(), Memory> {
    match fault {
        ConfFault::BadLine(line) => print_number(alloc, out, "bad line", u64::from(*line)),
        ConfFault::NoSection(line) => print_number(alloc, out, "no section", u64::from(*line)),
        ConfFault::BadValue(line) => print_number(alloc, out, "bad value", u64::from(*line)),
        ConfFault::ManyDomains(count) => print_number(
            alloc,
            out,
            "many domains",
            u64::from(*count),
        ),
        ConfFault::NoDomain => print_line(out, b"no domain"),
        ConfFault::Missing(name) => print_text(out, b"missing", name.bytes()),
        ConfFault::Memory => Err(Memory),
    }
}

/// Whether a text is read, or why it is refused.
pub fn print_verdict(alloc: Global, text: &[u8], out: &mut Vec<u8>) -> Result<(), Memory> {
    match read_conf(alloc, text) {
        Ok(_config) => print_line(out, b"read"),
        Err(fault) => print_fault(alloc, &fault, out),
    }
}

fn print_numbers(alloc: Global, settings: &Settings, out: &mut Vec<u8>) -> Result<(), Memory> {
    for (name, number) in [
        ("user_timeout", settings.user_timeout),
        ("group_timeout", settings.group_timeout),
        ("negative_timeout", settings.negative_timeout),
        ("nowait", settings.nowait),
        ("offline_timeout", settings.offline_timeout),
        ("hbac_refresh", settings.hbac_refresh),
        ("expiration_days", settings.expiration_days),
        ("attempts", settings.attempts),
        ("delay_minutes", settings.delay_minutes),
        ("cached_auth_timeout", settings.cached_auth_timeout),
        ("journal_limit", settings.journal_limit),
        ("primaries", settings.primaries),
        ("backups", settings.backups),
    ] {
        print_number(alloc, out, name, u64::from(number))?;
    }
    Ok(())
}

fn access_word(access: AccessMode) -> &'static [u8] {
    match access {
        AccessMode::Permit => b"permit",
        AccessMode::Deny => b"deny",
        AccessMode::Simple => b"simple",
        AccessMode::Ipa => b"ipa",
    }
}

/// A line of a name and texts, with a space before each.
fn print_texts(name: &[u8], texts: &Texts, out: &mut Vec<u8>) -> Result<(), Memory> {
    print(out, name)?;
    for text in texts.items() {
        print(out, b" ")?;
        print(out, text.bytes())?;
    }
    print(out, b"\n")
}

fn print_lists(settings: &Settings, out: &mut Vec<u8>) -> Result<(), Memory> {
    print_texts(b"filter_users", &settings.filter_users, out)?;
    print_texts(b"filter_groups", &settings.filter_groups, out)?;
    print_texts(b"allow_users", &settings.simple.allow_users, out)?;
    print_texts(b"deny_users", &settings.simple.deny_users, out)?;
    print_texts(b"allow_groups", &settings.simple.allow_groups, out)?;
    print_texts(b"deny_groups", &settings.simple.deny_groups, out)?;
    print_text(out, b"access", access_word(settings.access))?;
    print_text(
        out,
        b"hashes",
        if settings.cache_credentials {
            b"stored"
        } else {
            b"none"
        },
    )?;
    print_text(out, b"hostname", settings.hostname.bytes())
}

fn print_servers(alloc: Global, config: &Config, out: &mut Vec<u8>) -> Result<(), Memory> {
    for server in config.servers.items() {
        print_text(out, b"server", server.host.bytes())?;
        print_number(alloc, out, "port", u64::from(server.port))?;
    }
    Ok(())
}

fn print_config(alloc: Global, config: &Config, out: &mut Vec<u8>) -> Result<(), Memory> {
    print_text(out, b"domain", config.domain.bytes())?;
    print_text(out, b"base", config.base.bytes())?;
    print_servers(alloc, config, out)?;
    print_number(alloc, out, "level", u64::from(config.level))?;
    print_text(out, b"pwfield", config.pwfield.bytes())?;
    print_number(alloc, out, "unknown", u64::from(config.unknown))?;
    print_numbers(alloc, &config.settings, out)?;
    print_lists(&config.settings, out)
}

/// The configuration that a text is, or why it is refused.
pub fn print_all(alloc: Global, text: &[u8], out: &mut Vec<u8>) -> Result<(), Memory> {
    match read_conf(alloc, text) {
        Ok(config) => print_config(alloc, &config, out),
        Err(fault) => print_fault(alloc, &fault, out),
    }
}
