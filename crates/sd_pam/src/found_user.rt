// A user that a lookup found, by whose distinguished name a server is asked for the password.
ghost use Rattle.std.specs.Prelude.{◌≡◌, Some, None, IfOk, IfErr};
ghost use Rattle.sd_rules.specs.Lookups as lookups;

use sd_base::{Copied, Memory, Shared, Text};
use sd_rules::Record;
use std::marker::Model;

/// A record that is one of a user, which contracts see as the user's distinguished name.
pub struct FoundUser {
    found: Shared<Record>,
}

impl Drop for FoundUser {
    fn drop(self) {
        let FoundUser { found: _ } = self;
    }
}

impl Model for FoundUser {
    ghost use Rattle.std.specs.Prelude.{◌≡◌, ℕ, List, [], true, unwrap_or};
    ghost use Rattle.sd_rules.specs.Lookups as lookups;
    ghost use Rattle.sd_rules.specs.AccessScript as scripts;

    ghost Value = { List ℕ };

    ghost view = { λ u. unwrap_or (lookups.dn_in u.found) [] };

    ghost invariant = { λ u. scripts.is_some_dn (lookups.dn_in u.found) ≡ true };
}

impl FoundUser {
    /// The user of a record, or the record of anything else again.
    pub fn of(found: Shared<Record>) -> Result<FoundUser, Shared<Record>>
        ensures user { IfOk result (λ user. lookups.dn_in found ≡ Some user) }
        ensures other { IfErr result (λ back. (back ≡ found) × (lookups.dn_in found ≡ None)) }
    {
        match found.value() {
            Record::User(_) => Ok(FoundUser { found }),
            _ => Err(found),
        }
    }

    /// A copy of the distinguished name, RFC 4514.
    pub fn dn(&self) -> Result<Text, Memory>
        ensures { IfOk result (λ dn. dn ≡ self.now) }
    {
        match self.found.value() {
            Record::User(user) => user.dn.copy(),
            _ => unreachable!(),
        }
    }
}
