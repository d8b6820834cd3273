// Which logins and guesses a later verdict can look at.
ghost use Rattle.std.specs.Prelude.{◌≡◌, reverse};
ghost use Rattle.std.specs.Option.{option_copied};
ghost use Rattle.sd_rules.specs.Needed as needed;

use crate::readings::is_login;
use sd_base::Text;
use sd_journal::logins::{accepts, hash_entry, last_online_login, wrongs};
use sd_rules::Entry;

/// Whether the entry of a number is the hash entry or the last online login of a user, where there is a user.
pub fn is_login_needed(all: &[Entry], number: u64, user: Option<&Text>) -> bool
    ensures { result ≡ needed.is_login_needed (reverse all.now) number (option_copied user.entry) }
{
    match user {
        Some(user) => {
            is_login(number, hash_entry(all, user))
                || is_login(number, last_online_login(all, user))
        }
        None => false,
    }
}

/// Whether the entry of a number stands after the last entry that accepted the user.
fn is_since_accepted(entries: &[Entry], user: &Text, number: u64) -> bool
    ensures { result ≡ needed.is_since_accepted (reverse entries.now) user.now number }
{
    for place in (0..entries.len()).rev() {
        let entry = &entries[place];
        if accepts(&entries[..place], user, &entry.event, entry.reply) {
            return false;
        }
        if entry.number == number {
            return true;
        }
    }
    false
}

/// Whether an entry holds wrong guesses of a user that still count, where there is a user.
pub fn is_wrong_needed(all: &[Entry], entry: &Entry, user: Option<&Text>) -> bool
    ensures { result ≡ needed.is_wrong_needed (reverse all.now) entry.now (option_copied user.entry) }
{
    match user {
        Some(user) => {
            wrongs(user, &entry.event, entry.reply) != 0
                && is_since_accepted(all, user, entry.number)
        }
        None => false,
    }
}
