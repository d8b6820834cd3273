//! What the sessions come to.
ghost use Rattle.std.specs.Prelude.{◌≡◌, count_by, nat_lt, not};
ghost use Rattle.std.specs.List.{range_with_len};
ghost use Rattle.sd_storm.specs.Asked as asked;

use crate::asked::USERS;
use crate::users::KNOWN;

/// What the answers to a load come to.
#[derive(Clone, Copy, PartialEq, Eq)]
pub struct Account {
    /// How many requests found their user.
    pub found: usize,
    /// How many found none.
    pub none: usize,
    /// How often the directory was asked: once for each user.
    pub leads: usize,
}

fn is_asked(user: u32, users: &[u32]) -> bool
    ensures { result ≡ asked.is_asked user users.now }
{
    users.iter().any(|other| *other == user)
}

fn found_of(users: &[u32]) -> usize
    ensures { result ≡ count_by asked.is_known users.now }
{
    users.iter().filter(|user| **user < KNOWN).count()
}

fn none_of(users: &[u32]) -> usize
    ensures { result ≡ count_by (λ user. not (asked.is_known user)) users.now }
{
    users.iter().filter(|user| KNOWN <= **user).count()
}

fn leads_of(users: &[u32]) -> usize
    ensures { result ≡ count_by (λ user. asked.is_asked user users.now) (range_with_len 0 200) }
{
    (0..USERS).filter(|user| is_asked(*user, users)).count()
}

/// What the answers come to where these users are asked for.
pub fn account_of(users: &[u32]) -> Account
    ensures { result ≡ asked.account_of users.now }
{
    Account {
        found: found_of(users),
        none: none_of(users),
        leads: leads_of(users),
    }
}
