// What searches and binds come to over a link whose bytes are given.
ghost use Rattle.std.specs.Prelude.{IfOk};
ghost use Rattle.sd_ldap.specs.Sound.{IsSoundSearch};
ghost use Rattle.sd_ldap.specs.Values.{search_value};

use crate::canned::Canned;
use crate::hex::{bytes_of, cut_word};
use crate::output::{print_bytes, print_line, print_number};
use sd_base::{Items, Memory, Text, Why};
use sd_client::Client;
use sd_dial::Searched;
use sd_ldap::{Filter, SearchRequest};
use sd_rules::Bound;
use std::alloc::Global;

/// A search for all entries that have a class.
fn request_of(alloc: Global) -> Result<SearchRequest, Memory>
    ensures { IfOk result (λ request. IsSoundSearch (search_value request)) }
{
    Ok(SearchRequest {
        base: Text::from_bytes(alloc, b"dc=test")?,
        scope: 2,
        deref: 0,
        size: 0,
        time: 0,
        types_only: false,
        filter: Filter::Present(Text::from_bytes(alloc, b"objectClass")?),
        attributes: Items::new(alloc),
    })
}

fn print_failure(alloc: Global, out: &mut Vec<u8>, why: Why) -> Result<(), Memory> {
    match why {
        Why::Link => print_line(out, b"link"),
        Why::Bytes(place) => print_number(alloc, out, "bytes", place),
        Why::Code(code) => print_number(alloc, out, "busy", u64::from(code)),
        Why::Message(tag) => print_number(alloc, out, "message", u64::from(tag)),
        Why::Flood(count) => print_number(alloc, out, "flood", count),
    }
}

fn print_found(alloc: Global, out: &mut Vec<u8>, found: Searched) -> Result<(), Memory> {
    match found {
        Searched::Entries(entries) => print_number(alloc, out, "entries", entries.len() as u64),
        Searched::Code(code) => print_number(alloc, out, "code", u64::from(code)),
        Searched::Failed(why) => print_failure(alloc, out, why),
        Searched::Memory => Err(Memory),
    }
}

/// What two searches come to over one link.
pub fn print_searched(
    alloc: Global,
    out: &mut Vec<u8>,
    bytes: &[u8],
    is_endless: bool,
) -> Result<(), Memory> {
    let request = request_of(alloc)?;
    let link = Canned::new(alloc, Vec::from_slice(alloc, bytes)?, is_endless);
    let mut client = Client::new(alloc, link);
    let first = client.search(&request);
    let second = client.search(&request);
    let _ = client.end();
    print_found(alloc, out, first)?;
    print_found(alloc, out, second)
}

fn print_bound(alloc: Global, out: &mut Vec<u8>, bound: Bound) -> Result<(), Memory> {
    match bound {
        Bound::Code(code) => print_number(alloc, out, "code", u64::from(code)),
        Bound::Failed(why) => print_failure(alloc, out, why),
        Bound::Memory => Err(Memory),
    }
}

/// What a bind comes to, and what was sent.
pub fn print_bind(alloc: Global, out: &mut Vec<u8>, words: &[u8]) -> Result<(), Memory> {
    let (name, words) = cut_word(words);
    let (password, words) = cut_word(words);
    let dn = Text::from_bytes(alloc, name)?;
    let password = Text::from_bytes(alloc, password)?;
    let link = Canned::new(alloc, bytes_of(alloc, words)?, false);
    let mut client = Client::new(alloc, link);
    let bound = client.bind(&dn, &password);
    let link = client.end();
    print_bound(alloc, out, bound)?;
    for piece in link.pieces() {
        print_bytes(alloc, out, "sent", piece.bytes())?;
    }
    Ok(())
}
