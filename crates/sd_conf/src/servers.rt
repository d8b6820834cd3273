// Servers, and lists of them.
ghost use Rattle.std.specs.Prelude.{◌≡◌, ℕ, Bool, List, Option, length, IfOk, map};
ghost use Rattle.std.specs.Option.{option_copied, option_map};
ghost use Rattle.std.specs.List.{list_all};
ghost use Rattle.sd_conf.specs.Values as values;
ghost use Rattle.sd_pieces.specs.Digits.{number_of};
ghost use Rattle.sd_pieces.specs.Pieces.{cut_of};
ghost use Rattle.sd_conf.specs.Options as options;

use crate::options::behind;
use crate::texts::items;
use sd_base::{Copied, Items, Memory, Text};
use sd_pieces::{cut, read_number};
use std::alloc::Global;

/// A server of the directory.
#[derive(PartialEq, Eq)]
pub struct Server {
    pub host: Text,
    pub port: u16,
}

impl Drop for Server {
    fn drop(self) {
        let Server { host: _, port: _ } = self;
    }
}

/// Servers, in the order in which they are tried.
pub type ServerList = Items<Server>;

impl Copied for Server {
    fn copy(&self) -> Result<Server, Memory> {
        Ok(Server {
            host: self.host.copy()?,
            port: self.port,
        })
    }
}

fn is_host_byte(byte: u8) -> bool
    ensures { result ≡ values.is_host_byte byte }
{
    byte.is_ascii_alphanumeric() || byte == b'.' || byte == b'-' || byte == b'_'
}

fn are_host_bytes(bytes: &[u8]) -> bool
    ensures { result ≡ list_all values.is_host_byte bytes.now }
{
    bytes.iter().all(|byte| is_host_byte(*byte))
}

fn is_host(bytes: &[u8]) -> bool
    ensures { result ≡ values.is_host bytes.now }
{
    !bytes.is_empty() && bytes.len() <= 255 && are_host_bytes(bytes)
}

fn port(value: &[u8]) -> Option<u16>
    ensures { result ≡ values.in_port_range (number_of value.now) }
{
    match read_number(value) {
        Some(n) if 1 <= n && n <= 65535 => Some(n as u16),
        _ => None,
    }
}

fn at_port(alloc: Global, host: &[u8], port: Option<u16>) -> Result<Option<Server>, Memory>
    ensures { IfOk result (λ found. found ≡ values.at_port host.now port) }
{
    let Some(port) = port else {
        return Ok(None);
    };
    if !is_host(host) {
        return Ok(None);
    }
    let host = Text::from_bytes(alloc, host)?;
    Ok(Some(Server { host, port }))
}

fn host_server(alloc: Global, host: &[u8]) -> Result<Option<Server>, Memory>
    ensures { IfOk result (λ found. found ≡ values.host_server host.now) }
{
    at_port(alloc, host, Some(389))
}

fn address(alloc: Global, bytes: &[u8]) -> Result<Option<Server>, Memory>
    ensures { IfOk result (λ found. found ≡ values.address_of (cut_of 58 bytes.now).0 (cut_of 58 bytes.now).1) }
{
    let (host, behind) = cut(b':', bytes);
    match behind {
        None => host_server(alloc, host),
        Some(value) => at_port(alloc, host, port(value)),
    }
}

fn without_slash(bytes: &[u8]) -> &[u8]
    ensures { result.now ≡ values.without_slash bytes.now }
{
    if !bytes.is_empty() && bytes[bytes.len() - 1] == b'/' {
        return &bytes[..bytes.len() - 1];
    }
    bytes
}

fn uri_server(alloc: Global, uri: &[u8]) -> Result<Option<Server>, Memory>
    ensures { IfOk result (λ found. found ≡ values.uri_server uri.now) }
{
    match behind(b"ldap://", uri) {
        None => Ok(None),
        Some(rest) => address(alloc, without_slash(rest)),
    }
}

fn item_server(alloc: Global, is_uri: bool, item: &[u8]) -> Result<Option<Server>, Memory>
    ensures { IfOk result (λ found. found ≡ values.server_of is_uri item.now) }
{
    if is_uri {
        uri_server(alloc, item)
    } else {
        host_server(alloc, item)
    }
}

fn listed(alloc: Global, is_uri: bool, items: &[&[u8]]) -> Result<Option<ServerList>, Memory>
    ensures { IfOk result (λ found. found ≡ values.servers_in is_uri (map (λ x. x.now) items.now)) }
{
    let mut found = ServerList::new(alloc);
    for item in items {
        if *item == b"_srv_".as_slice() {
            continue;
        }
        let Some(server) = item_server(alloc, is_uri, item)? else {
            return Ok(None);
        };
        found.push(server)?;
    }
    Ok(Some(found))
}

fn few(found: Option<ServerList>) -> Option<ServerList>
    ensures { result ≡ values.few found }
{
    let servers = found?;
    if servers.len() > 64 {
        return None;
    }
    Some(servers)
}

/// The servers of a list of URIs or of host names, where it is one of 64 servers at most.
pub fn servers(alloc: Global, is_uri: bool, value: &[u8]) -> Result<Option<ServerList>, Memory>
    ensures { IfOk result (λ found. found ≡ values.servers_of is_uri value.now) }
{
    let items = items(alloc, value)?;
    let found = listed(alloc, is_uri, &items)?;
    Ok(few(found))
}
