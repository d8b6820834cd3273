// What single entries say of logins and guesses.
ghost use Rattle.std.specs.Prelude.{◌≡◌, reverse, None};
ghost use Rattle.std.specs.Option.{option_copied, option_map};
ghost use Rattle.sd_rules.specs.Needed as needed;
ghost use Rattle.sd_rules.specs.Limits as limits;

use sd_base::Text;
use sd_journal::logins::{hash_carried, user_of};
use sd_journal::past::is_closed;
use sd_rules::limits::Login;
use sd_rules::{Entry, Event, Row};

fn user_if_right(hashed: Option<bool>, user: Option<&Text>) -> Option<&Text>
    ensures { option_copied result ≡ needed.user_if_right hashed (option_copied user.entry) }
{
    match hashed {
        Some(_) => user,
        None => None,
    }
}

fn user_of_row(row: &Row) -> Option<&Text>
    ensures { option_copied result ≡ needed.user_of_row row.now }
{
    match row {
        Row::Hash(_, _, user, _) | Row::Online(_, _, user) => Some(user),
        _ => None,
    }
}

/// The user whose online login an entry is; `before` are the entries before it.
pub fn user_logged_in<'a>(before: &'a [Entry], entry: &'a Entry) -> Option<&'a Text>
    ensures { option_copied result ≡ needed.user_logged_in (reverse before.now) entry.now.event entry.now.reply }
{
    match &entry.event {
        Event::LoginOnline(attempt, outcome) => {
            if is_closed(entry.reply) {
                user_if_right(hash_carried(outcome.value()), user_of(before, *attempt))
            } else {
                None
            }
        }
        Event::Kept(row) => user_of_row(row),
        _ => None,
    }
}

/// The user for whom an entry may count as wrong guesses.
pub fn user_guessed(event: &Event) -> Option<&Text>
    ensures { option_copied result ≡ needed.user_guessed event.now }
{
    match event {
        Event::LoginGuess(user, _, _) => Some(user),
        Event::Kept(Row::Wrong(_, _, user, _)) => Some(user),
        _ => None,
    }
}

/// Whether a login, where there is one, is the entry of this number.
pub fn is_login(number: u64, login: Option<Login>) -> bool
    ensures { result ≡ needed.is_login number (option_map limits.login login) }
{
    match login {
        Some(login) => login.number == number,
        None => false,
    }
}

/// Whether an entry of this number is the one named, where there is one.
pub fn is_number(number: u64, named: Option<u64>) -> bool
    ensures { result ≡ needed.is_number number named }
{
    match named {
        Some(named) => named == number,
        None => false,
    }
}
