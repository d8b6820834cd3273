// Triples.
ghost use Rattle.std.specs.Prelude.{◌≡◌, IfOk};
ghost use Rattle.sd_triples.specs.Grammar as grammar;

use sd_base::{Copied, Items, Memory, Text};
use std::alloc::Global;
use std::cmp::Ordering;

/// What a netgroup speaks of. An empty field stands for every host, user or domain.
#[derive(PartialEq, Eq)]
pub struct Triple {
    pub host: Text,
    pub user: Text,
    pub domain: Text,
}

impl Drop for Triple {
    fn drop(self) {
        let Triple {
            host: _,
            user: _,
            domain: _,
        } = self;
    }
}

impl Copied for Triple {
    fn copy(&self) -> Result<Triple, Memory> {
        Ok(Triple {
            host: self.host.copy()?,
            user: self.user.copy()?,
            domain: self.domain.copy()?,
        })
    }
}

/// By the bytes of the host, then of the user, then of the domain.
impl Ord for Triple {
    ghost use Rattle.sd_triples.specs.Order.{triple_cmp};
    ghost use Rattle.std.specs.Cmp.Rules.{comparing};
    ghost use Rattle.std.proofs.Common.{rules};

    ghost cmp = { triple_cmp };

    ghost total = { Prim.search (comparing, rules) };

    ghost matches_partial_cmp = { Prim.search (comparing, rules) };

    ghost matches_eq = { Prim.search (comparing, rules) };

    fn cmp(&self, other: &Triple) -> Ordering {
        self.host
            .bytes()
            .cmp(other.host.bytes())
            .then(self.user.bytes().cmp(other.user.bytes()))
            .then(self.domain.bytes().cmp(other.domain.bytes()))
    }
}

impl PartialOrd for Triple {
    ghost use Rattle.sd_triples.specs.Order.{triple_cmp};
    ghost use Rattle.std.specs.Cmp.{partial_order_from_own_ties};
    ghost use Rattle.std.specs.Cmp.Rules.{comparing};
    ghost use Rattle.std.specs.Ordering.{as_partial_cmp};
    ghost use Rattle.std.proofs.Common.{rules};

    ghost partial_cmp = { as_partial_cmp triple_cmp };

    ghost laws = { partial_order_from_own_ties (Prim.search (comparing, rules)) (Prim.search (comparing, rules)) };

    fn partial_cmp(&self, other: &Triple) -> Option<Ordering> {
        Some(self.cmp(other))
    }
}

/// A list of triples.
pub type Triples = Items<Triple>;

/// Bytes without the spaces in front of them.
fn without_front(bytes: &[u8]) -> &[u8]
    ensures { result.now ≡ grammar.without_front bytes.now }
{
    for (at, byte) in bytes.iter().enumerate() {
        if *byte != b' ' {
            return &bytes[at..];
        }
    }
    &bytes[bytes.len()..]
}

#[tactic(auto, using(crate::proofs::Trims::ends))]
/// Bytes without the spaces behind them.
fn without_end(bytes: &[u8]) -> &[u8]
    ensures { result.now ≡ grammar.without_end bytes.now }
{
    for end in (0..bytes.len()).rev() {
        if bytes[end] != b' ' {
            return &bytes[..end + 1];
        }
    }
    &bytes[..0]
}

fn trimmed(alloc: Global, bytes: &[u8]) -> Result<Text, Memory>
    ensures { IfOk result (λ text. text ≡ grammar.trimmed bytes.now) }
{
    Text::from_bytes(alloc, without_end(without_front(bytes)))
}

/// The triple of three fields, whose spaces at both ends are dropped.
pub fn triple_of(alloc: Global, host: &[u8], user: &[u8], domain: &[u8]) -> Result<Triple, Memory>
    ensures { IfOk result (λ triple. triple ≡ grammar.triple_of host.now user.now domain.now) }
{
    Ok(Triple {
        host: trimmed(alloc, host)?,
        user: trimmed(alloc, user)?,
        domain: trimmed(alloc, domain)?,
    })
}
