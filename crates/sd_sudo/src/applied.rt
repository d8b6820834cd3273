//! The rules that apply, in their order.
ghost use Rattle.std.specs.Prelude.{◌≡◌, IfOk};
ghost use Rattle.sd_sudo.specs.Applied as applied;

use sd_base::Memory;
use sd_roles::{Asker, Nets, Role, applies};
use std::cmp::Ordering;

/// By the order as a number, then by the bytes of the name.
fn role_cmp(a: &Role, b: &Role) -> Ordering
    ensures { result ≡ applied.role_cmp a.now b.now }
{
    a.order
        .cmp(&b.order)
        .then(a.name.bytes().cmp(b.name.bytes()))
}

/// The rules that apply to an asker: by rising order, then by the bytes of the name, then as in the list.
pub fn rules_applied(roles: Vec<Role>, asker: &Asker, nets: &Nets) -> Result<Vec<Role>, Memory>
    ensures { IfOk result (λ those. applied.AreApplied roles.items asker.now nets.now those.items) }
{
    let mut those = roles;
    those.retain(|role| applies(role, asker, nets));
    those.sort_by(|a, b| role_cmp(a, b))?;
    Ok(those)
}
