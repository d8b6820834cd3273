// What a mark says of a login by a stored hash.
ghost use Rattle.std.specs.Prelude.{◌≡◌};
ghost use Rattle.std.specs.Option.{option_map};
ghost use Rattle.sd_creds.specs.Marks as marked;
ghost use Rattle.sd_rules.specs.Limits as seen;

use crate::marks::Mark;
use sd_rules::limits::{Login, only_hashed, still_cached, verdict_by_hash, verdict_by_login};
use sd_rules::{Settings, Verdict};

fn usable_hash(settings: &Settings, mark: &Mark) -> Option<Login>
    ensures { option_map seen.login result ≡ marked.usable_hash settings.now mark.now }
{
    if settings.cache_credentials {
        mark.hash
    } else {
        None
    }
}

/// The verdict on a guess.
pub fn verdict_of(settings: &Settings, t: u64, mark: &Mark, named: u64, right: bool) -> Verdict
    ensures { result ≡ marked.verdict_of settings.now t mark.now named right }
{
    verdict_by_hash(
        settings,
        t,
        u128::from(mark.wrong_count),
        mark.last_wrong,
        usable_hash(settings, mark),
        named,
        right,
    )
}

/// The last online login, where it carries a hash and hashes are used.
fn usable_login(settings: &Settings, mark: &Mark) -> Option<Login>
    ensures { option_map seen.login result ≡ marked.usable_login settings.now mark.now }
{
    if settings.cache_credentials {
        only_hashed(mark.login)
    } else {
        None
    }
}

/// The entry of the login whose hash a login may use while the directory can be reached.
pub fn cached_login(settings: &Settings, t: u64, mark: &Mark) -> Option<u64>
    ensures { result ≡ marked.cached_login settings.now t mark.now }
{
    if settings.cached_auth_timeout == 0 {
        return None;
    }
    still_cached(settings, t, usable_login(settings, mark))
}

/// The verdict on a try.
pub fn verdict_of_try(settings: &Settings, t: u64, mark: &Mark, named: u64, right: bool) -> Verdict
    ensures { result ≡ marked.verdict_of_try settings.now t mark.now named right }
{
    verdict_by_login(settings, t, usable_login(settings, mark), named, right)
}
