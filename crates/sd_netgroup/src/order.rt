//! Triples in their order.
ghost use Rattle.std.specs.Prelude.{◌≡◌, IfOk};
ghost use Rattle.std.specs.List.Sorted.{IsStrictlySortedBy};
ghost use Rattle.sd_triples.specs.Order.{triple_cmp};

use sd_base::Memory;
use sd_triples::{Triple, Triples};
use std::alloc::Global;
use std::collections::BTreeSet;

/// The triples of a set as a list.
pub fn listed(alloc: Global, triples: BTreeSet<Triple>) -> Result<Triples, Memory>
    ensures same { IfOk result (λ listed. listed ≡ triples.keys) }
    ensures ordered { IfOk result (λ listed. IsStrictlySortedBy triple_cmp listed) }
{
    let mut listed = Triples::new(alloc);
    for triple in triples {
        listed.push(triple)?;
    }
    Ok(listed)
}
