//! What a configuration says in vain.
use crate::news::News;
use sd_base::{Items, Memory, Text};
use sd_conf::ConfFault;
use sd_conf::lines::{Entry, entries};
use sd_conf::options::{Part, is_known, is_section};
use std::alloc::Global;

/// News about lines of a configuration, in their order.
pub type Passed = Items<News>;

/// The domain that a configuration names.
fn domain_of<'a>(entries: &[Entry<'a>]) -> &'a [u8] {
    for place in (0..entries.len()).rev() {
        let entry = entries[place];
        if entry.section == b"sssd".as_slice() && entry.key == b"domains".as_slice() {
            return entry.value;
        }
    }
    b"".as_slice()
}

fn is_read(domain: &[u8], section: &[u8]) -> bool {
    is_section(Part::Sssd, domain, section)
        || is_section(Part::Nss, domain, section)
        || is_section(Part::Pam, domain, section)
        || is_section(Part::Domain, domain, section)
}

/// Whether the modules of the host have this option.
fn is_of_modules(key: &[u8]) -> bool {
    key == b"min_id".as_slice() || key == b"max_id".as_slice()
}

fn useless(alloc: Global, entry: &Entry<'_>) -> Result<News, Memory> {
    let section = Text::from_bytes(alloc, entry.section)?;
    let key = Text::from_bytes(alloc, entry.key)?;
    if is_of_modules(entry.key) {
        Ok(News::OfModules(entry.line, section, key))
    } else {
        Ok(News::PassedOver(entry.line, section, key))
    }
}

/// What an option says that is read, and yet does not say all.
fn half_read(alloc: Global, entry: &Entry<'_>) -> Result<Option<News>, Memory> {
    if entry.key == b"auth_provider".as_slice() && entry.value != b"ldap".as_slice() {
        let provider = Text::from_bytes(alloc, entry.value)?;
        return Ok(Some(News::OtherProvider(entry.line, provider)));
    }
    if entry.key == b"ldap_search_base".as_slice() && entry.value.iter().any(|byte| *byte == b'?') {
        return Ok(Some(News::BaseWithFilter(entry.line)));
    }
    Ok(None)
}

fn said_of(alloc: Global, domain: &[u8], entry: &Entry<'_>) -> Result<Option<News>, Memory> {
    if !is_read(domain, entry.section) {
        return Ok(None);
    }
    if is_known(domain, entry) {
        return half_read(alloc, entry);
    }
    Ok(Some(useless(alloc, entry)?))
}

/// What the lines of a configuration say in vain. Of one that has no form nothing is said.
pub fn passed_over(alloc: Global, text: &[u8]) -> Result<Passed, Memory> {
    let mut said = Passed::new(alloc);
    let found = match entries(alloc, text) {
        Ok(found) => found,
        Err(ConfFault::Memory) => return Err(Memory),
        Err(_) => return Ok(said),
    };
    let domain = domain_of(found.as_slice());
    for place in 0..found.len() {
        if let Some(news) = said_of(alloc, domain, &found[place])? {
            said.push(news)?;
        }
    }
    Ok(said)
}
