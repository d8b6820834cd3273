// Comparing DNs, without ASCII case.
ghost use Rattle.std.specs.Prelude.{◌≡◌, ℕ, Bool, List, length};
ghost use Rattle.std.specs.Option.{option_map_or, option_map};
ghost use Rattle.sd_dn.specs.Comparing as comparing;

use crate::{Dn, Pair, Rdn};

/// The one pair of an entry's own RDN.
#[derive(Clone, Copy)]
pub struct Leaf<'a> {
    pub name: &'a [u8],
    pub value: &'a [u8],
}

/// Whether two texts are equal without ASCII case.
pub fn same_text(a: &[u8], b: &[u8]) -> bool
    ensures { result ≡ comparing.same_text a.now b.now }
{
    if a.len() != b.len() {
        return false;
    }
    for place in 0..a.len() {
        if !a[place].eq_ignore_ascii_case(&b[place]) {
            return false;
        }
    }
    true
}

fn same_pair(a: &Pair, b: &Pair) -> bool
    ensures { result ≡ comparing.same_pair a.now b.now }
{
    same_text(a.name.bytes(), b.name.bytes()) && same_text(a.value.bytes(), b.value.bytes())
}

fn same_rdn(a: &[Pair], b: &[Pair]) -> bool
    ensures { result ≡ comparing.same_rdn a.now b.now }
{
    if a.len() != b.len() {
        return false;
    }
    for place in 0..a.len() {
        if !same_pair(&a[place], &b[place]) {
            return false;
        }
    }
    true
}

fn same_rdns(a: &[Rdn], b: &[Rdn]) -> bool
    ensures { result ≡ comparing.same_dn a.now b.now }
{
    if a.len() != b.len() {
        return false;
    }
    for place in 0..a.len() {
        if !same_rdn(a[place].items(), b[place].items()) {
            return false;
        }
    }
    true
}

/// Whether two DNs are equal: the same pairs in the same RDNs, in order, without ASCII case.
pub fn dn_equal(a: &Dn, b: &Dn) -> bool
    ensures { result ≡ comparing.same_dn a.now b.now }
{
    same_rdns(a.items(), b.items())
}

fn ends_with(dn: &[Rdn], container: &[Rdn]) -> bool
    ensures { result ≡ comparing.ends_with dn.now container.now }
{
    if dn.len() < container.len() {
        return false;
    }
    same_rdns(&dn[dn.len() - container.len()..], container)
}

/// Whether the DN is the container's or is under it.
pub fn is_at_or_under(dn: &Dn, container: &Dn) -> bool
    ensures { result ≡ comparing.ends_with dn.now container.now }
{
    ends_with(dn.items(), container.items())
}

/// Whether the DN is under the container's: the container's is a proper suffix, by RDNs.
pub fn is_under(dn: &Dn, container: &Dn) -> bool
    ensures { result ≡ comparing.is_below dn.now container.now }
{
    container.len() < dn.len() && ends_with(dn.items(), container.items())
}

/// The pair of the DN's first RDN, where that has one pair and the rest is the container's DN.
pub fn leaf_under<'a>(dn: &'a Dn, container: &Dn) -> Option<Leaf<'a>>
    ensures { option_map (λ leaf. record { name = leaf.name.now; value = leaf.value.now }) result ≡ comparing.leaf_of dn.now container.now }
{
    let [own, rest @ ..] = dn.items() else {
        return None;
    };
    let [pair] = own.items() else {
        return None;
    };
    if !same_rdns(rest, container.items()) {
        return None;
    }
    Some(Leaf {
        name: pair.name.bytes(),
        value: pair.value.bytes(),
    })
}
