// The records that entries are.
use crate::output::{print_line, print_text};
use sd_base::{Memory, Text};
use sd_conf::{Config, read_conf};
use sd_ldap::DirEntry;
use sd_ldif::read_ldif;
use sd_pieces::{cut, read_number};
use sd_rules::Key;
use sd_schema::{Unfit, group, rule, user};
use std::alloc::Global;

/// A configuration without options beyond those that have to be there, by which root is filtered.
const CONFIGURED: &str = "[sssd]
domains = test
[domain/test]
id_provider = ldap
ldap_uri = ldap://s0
ldap_search_base = dc=test
";

/// The key that words write: `user NAME`, `uid N`, `group NAME`, `gid N`, else the rules.
fn key(alloc: Global, words: &[u8]) -> Result<Key, Memory> {
    let (kind, name) = cut(b' ', words);
    let name = name.unwrap_or(b"");
    match kind {
        b"user" => Ok(Key::User(Text::from_bytes(alloc, name)?)),
        b"uid" => Ok(Key::Uid(read_number(name).unwrap_or(0))),
        b"group" => Ok(Key::Group(Text::from_bytes(alloc, name)?)),
        b"gid" => Ok(Key::Gid(read_number(name).unwrap_or(0))),
        _ => Ok(Key::Rules),
    }
}

/// The name of the record that an entry is.
fn print_name(
    alloc: Global,
    entry: &DirEntry,
    key: &Key,
    config: &Config,
    out: &mut Vec<u8>,
) -> Result<(), Unfit> {
    match key {
        Key::User(_) | Key::Uid(_) => {
            let found = user(alloc, entry, key, config)?;
            print_text(out, b"user", found.name.bytes())?;
        }
        Key::Group(_) | Key::Gid(_) => {
            let found = group(alloc, entry, key, config)?;
            print_text(out, b"group", found.name.bytes())?;
        }
        _ => {
            let found = rule(alloc, entry, config)?;
            print_text(out, b"rule", found.name.bytes())?;
        }
    }
    Ok(())
}

/// Of each entry of a text the name of the record that was asked for, or of the attribute that does not fit.
pub fn print_all(
    alloc: Global,
    asked: &[u8],
    text: &[u8],
    out: &mut Vec<u8>,
) -> Result<(), Memory> {
    let key = key(alloc, asked)?;
    let Ok(config) = read_conf(alloc, CONFIGURED.as_bytes()) else {
        return Err(Memory);
    };
    let Ok(entries) = read_ldif(alloc, text) else {
        return print_line(out, b"no entries");
    };
    for entry in entries.items() {
        match print_name(alloc, entry, &key, &config, out) {
            Ok(()) => {}
            Err(Unfit::Attribute(name)) => print_text(out, b"unfit", name.bytes())?,
            Err(Unfit::Memory) => return Err(Memory),
        }
    }
    Ok(())
}
