// SIDs: the identifiers of a Windows domain and of what is in it.
ghost use Rattle.std.specs.Prelude.{◌≡◌, ℕ, List, [], ◌∷◌, ◌++◌, ◌==◌, ◌≤◌, length, codes, IfOk, OnOk};
ghost use Rattle.std.specs.Fmt.{decimal};
ghost use Rattle.std.specs.Cmp.Lexicographic.{pointwise};
ghost use Rattle.std.specs.Cmp.Rules.{comparing, hashing};
ghost use Rattle.std.specs.Hash as fed;
ghost use Rattle.std.proofs.Common.{rules};
ghost use Rattle.sd_idmap.specs.Sids as sids;

use sd_base::{Copied, Memory};
use sd_wire::fields::{push_bytes, push_number};
use std::alloc::Global;
use std::hash::{Hash, Hasher};
use std::marker::Model;

/// The numbers of a domain's SID: its authority, and the parts behind that. Two are equal number for number.
pub struct Domain {
    numbers: Vec<u64>,
}

impl Drop for Domain {
    fn drop(self) {
        let Domain { numbers: _ } = self;
    }
}

impl Model for Domain {
    ghost use Rattle.std.specs.Prelude.{List, ℕ};

    ghost Value = { List ℕ };

    ghost view = { λ d. d.numbers.items };
}

impl Domain {
    /// A domain of no number yet.
    pub fn new(alloc: Global) -> Domain
        ensures { result ≡ [] }
    {
        Domain {
            numbers: Vec::new(alloc),
        }
    }

    /// Its numbers, the authority first.
    pub fn numbers(&self) -> &[u64]
        ensures { result.now ≡ self.now }
    {
        self.numbers.as_slice()
    }

    /// Puts one more number at the end.
    pub fn push(&mut self, number: u64) -> Result<(), Memory>
        ensures { OnOk result (self.new ≡ self.old ++ number ∷ []) }
    {
        self.numbers.push(number)?;
        Ok(())
    }
}

impl Copied for Domain {
    fn copy(&self) -> Result<Domain, Memory> {
        let numbers = self.numbers.clone()?;
        Ok(Domain { numbers })
    }
}

impl PartialEq for Domain {
    ghost eq = { pointwise ◌==◌ };

    ghost laws = { Prim.search (comparing, rules) };

    fn eq(&self, other: &Domain) -> bool {
        self.numbers == other.numbers
    }
}

impl Eq for Domain {
    ghost laws = { Prim.search (comparing, rules) };
}

impl Hash for Domain {
    ghost hash_input = { λ d. fed.slice fed.u64 d };

    ghost respects_eq = { Prim.search (hashing, rules) };

    fn hash<H: Hasher>(&self, state: &mut H) {
        self.numbers.hash(state);
    }
}

/// A SID (Windows' security identifier, revision 1): what it is in, and its last part, which numbers it there.
pub struct Sid {
    /// The numbers in front of the last part.
    pub domain: Domain,
    /// The last part, which Windows calls the relative identifier.
    pub rid: u32,
}

impl Drop for Sid {
    fn drop(self) {
        let Sid { domain: _, rid: _ } = self;
    }
}

impl Copied for Sid {
    fn copy(&self) -> Result<Sid, Memory> {
        Ok(Sid {
            domain: self.domain.copy()?,
            rid: self.rid,
        })
    }
}

impl Sid {
    ghost use Rattle.sd_idmap.specs.Sids.{numbers_of};

    /// The SID as a domain's own: all its numbers.
    pub fn to_domain(&self) -> Result<Domain, Memory>
        ensures { IfOk result (λ domain. domain ≡ numbers_of self.now) }
    {
        let mut domain = self.domain.copy()?;
        domain.push(u64::from(self.rid))?;
        Ok(domain)
    }

    /// Whether a domain may have this SID, so that one more part fits behind it.
    pub fn is_of_a_domain(&self) -> bool
        ensures { result ≡ sids.is_domain (numbers_of self.now) }
    {
        self.domain.numbers().len() < 15
    }
}

/// Appends a part: a hyphen and a number.
pub fn push_part(alloc: Global, out: &mut Vec<u8>, number: u64) -> Result<(), Memory>
    ensures { OnOk result (out.new.items ≡ out.old.items ++ sids.part number) }
{
    push_bytes(out, b"-")?;
    push_number(alloc, out, number)
}

/// Appends the text of a domain's SID.
pub fn push_domain(alloc: Global, out: &mut Vec<u8>, domain: &Domain) -> Result<(), Memory>
    ensures { OnOk result (out.new.items ≡ out.old.items ++ sids.text_of domain.now) }
{
    push_bytes(out, b"S-1")?;
    for number in domain.numbers() {
        push_part(alloc, out, *number)?;
    }
    Ok(())
}

#[tactic(auto, using(crate::proofs::Texts::text_push))]
/// Appends the text of a SID.
pub fn push_sid(alloc: Global, out: &mut Vec<u8>, sid: &Sid) -> Result<(), Memory>
    ensures { OnOk result (out.new.items ≡ out.old.items ++ sids.text_of (sids.numbers_of sid.now)) }
{
    push_domain(alloc, out, &sid.domain)?;
    push_part(alloc, out, u64::from(sid.rid))
}
