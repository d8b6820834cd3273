// What values mean, and which values an option's rule lets stand.
ghost use Rattle.std.specs.Prelude.{◌≡◌, ℕ, Bool, List, Option, length, IfOk, is_some};
ghost use Rattle.sd_conf.specs.Values as values;
ghost use Rattle.sd_pieces.specs.Digits.{number_of};

use crate::options::Rule;
use crate::servers::servers;
use crate::texts::flag;
use sd_base::Memory;
use sd_dn::is_dn;
use sd_pieces::read_number;
use sd_rules::AccessMode;
use std::alloc::Global;

/// Where the domain's records come from: id_provider of sssd.conf(5).
#[derive(Clone, Copy)]
pub enum Provider {
    Ldap,
    Ipa,
}

/// The provider of this name.
pub fn provider_of(name: &[u8]) -> Option<Provider>
    ensures { result ≡ values.provider_of name.now }
{
    if name == b"ldap".as_slice() {
        return Some(Provider::Ldap);
    }
    if name == b"ipa".as_slice() {
        return Some(Provider::Ipa);
    }
    None
}

/// The access provider of this name.
pub fn access_of(name: &[u8]) -> Option<AccessMode>
    ensures { result ≡ values.access_of name.now }
{
    if name == b"permit".as_slice() {
        return Some(AccessMode::Permit);
    }
    if name == b"deny".as_slice() {
        return Some(AccessMode::Deny);
    }
    if name == b"simple".as_slice() {
        return Some(AccessMode::Simple);
    }
    if name == b"ipa".as_slice() {
        return Some(AccessMode::Ipa);
    }
    None
}

fn is_within(least: u32, greatest: u32, value: &[u8]) -> bool
    ensures { result ≡ values.is_within least greatest (number_of value.now) }
{
    match read_number(value) {
        Some(n) => least <= n && n <= greatest,
        None => false,
    }
}

fn are_servers(alloc: Global, is_uri: bool, value: &[u8]) -> Result<bool, Memory>
    ensures { IfOk result (λ are. are ≡ is_some (values.servers_of is_uri value.now)) }
{
    let found = servers(alloc, is_uri, value)?;
    Ok(found.is_some())
}

/// Whether the value may stand for an option of this rule.
pub fn fits(alloc: Global, rule: Rule, value: &[u8]) -> Result<bool, Memory>
    ensures { IfOk result (λ stands. stands ≡ values.fits rule value.now) }
{
    match rule {
        Rule::Any => Ok(true),
        Rule::Number(least, greatest) => Ok(is_within(least, greatest, value)),
        Rule::Flag => Ok(flag(value).is_some()),
        Rule::IdProvider => Ok(provider_of(value).is_some()),
        Rule::AuthProvider => Ok(value != b"none".as_slice()),
        Rule::AccessProvider => Ok(access_of(value).is_some()),
        Rule::Length(least, greatest) => Ok(least <= value.len() && value.len() <= greatest),
        Rule::Uris => are_servers(alloc, true, value),
        Rule::Hosts => are_servers(alloc, false, value),
        Rule::Dn => is_dn(alloc, value),
    }
}
