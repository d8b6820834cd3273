// Account checks by the lists of sssd-simple(5), which compare names byte for byte.
ghost use Rattle.std.specs.Prelude.{◌≡◌};
ghost use Rattle.sd_rules.specs.Access as access;
ghost use Rattle.sd_rules.specs.Answers as answers;

use sd_base::{Text, Texts};
use sd_rules::SimpleLists;

fn lists_name(names: &Texts, name: &Text) -> bool
    ensures { result ≡ answers.lists_name names.now name.now }
{
    names.items().iter().any(|n| n == name)
}

fn lists_any(names: &Texts, groups: &Texts) -> bool
    ensures { result ≡ access.lists_any names.now groups.now }
{
    groups.items().iter().any(|group| lists_name(names, group))
}

/// Whether the lists let a user in, who is in these groups.
pub fn simple(lists: &SimpleLists, user: &Text, groups: &Texts) -> bool
    ensures { result ≡ access.simple_allows lists.now user.now groups.now }
{
    if lists_name(&lists.deny_users, user) || lists_any(&lists.deny_groups, groups) {
        return false;
    }
    if lists.allow_users.is_empty() && lists.allow_groups.is_empty() {
        return true;
    }
    lists_name(&lists.allow_users, user) || lists_any(&lists.allow_groups, groups)
}
