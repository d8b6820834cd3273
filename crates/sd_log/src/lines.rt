//! The lines of the log.
ghost use Rattle.std.specs.Prelude.{◌≡◌, ◌++◌, IfOk, OnOk, codes};
ghost use Rattle.sd_log.specs.Lines as texts;
ghost use Rattle.sd_log.specs.Levels as levels;

use crate::news::{Asked, Fallen, Level, News, Order, Place, Told};
use sd_base::{Memory, Text};
use sd_wire::fields::{push_bytes, push_numbered, push_numbered_within, push_worded};
use std::alloc::Global;

/// The level that a word names; any other names that of logins.
pub fn level_named(word: &[u8]) -> Level
    ensures { result ≡ levels.level_named word.now }
{
    if word == b"errors".as_slice() {
        return Level::Errors;
    }
    if word == b"changes".as_slice() {
        return Level::Changes;
    }
    if word == b"everything".as_slice() {
        return Level::Everything;
    }
    Level::Logins
}

fn level_of_order(asked: &Asked) -> Level
    ensures { result ≡ levels.level_of_asked asked.now }
{
    match asked {
        Asked::Login(_) | Asked::Access(_, _) => Level::Logins,
        Asked::Order(_) => Level::Changes,
        _ => Level::Everything,
    }
}

/// The least level at which news are logged.
pub fn level_of(news: &News) -> Level
    ensures { result ≡ levels.level_of news.now }
{
    match news {
        News::Answered(asked, _) => level_of_order(asked),
        News::Returned(_)
        | News::OutageEnded(_, _)
        | News::OutageLifted(_)
        | News::JournalHasRoom
        | News::StoreWritten => Level::Changes,
        _ => Level::Errors,
    }
}

/// Whether a login or an account check came to nothing for a reason that an administrator may want to know.
fn is_trouble(told: &Told) -> bool
    ensures { result ≡ levels.is_trouble told.now }
{
    match told {
        Told::Dark(_)
        | Told::Refused(_)
        | Told::Many(_)
        | Told::Dropped(_)
        | Told::Expired(_)
        | Told::Blocked(_)
        | Told::BlockedOnline
        | Told::NoHash => true,
        _ => false,
    }
}

/// Whether a client got what it asked for.
fn is_granted(told: &Told) -> bool
    ensures { result ≡ levels.is_granted told.now }
{
    match told {
        Told::AcceptedOnline(_)
        | Told::AcceptedOffline(_)
        | Told::GrantedPermit(_)
        | Told::GrantedSimple(_)
        | Told::GrantedRule(_, _) => true,
        _ => false,
    }
}

fn priority_of_answer(asked: &Asked, told: &Told) -> u8
    ensures { result ≡ levels.priority_of_answer asked.now told.now }
{
    match asked {
        Asked::Order(_) => 5,
        Asked::Login(_) | Asked::Access(_, _) => {
            if is_trouble(told) {
                4
            } else if is_granted(told) {
                6
            } else {
                5
            }
        }
        _ => 6,
    }
}

/// The priority of news, as syslog counts them: 3 an error, 4 a warning, 5 a notice, 6 information.
fn priority_of(news: &News) -> u8
    ensures { result ≡ levels.priority_of news.now }
{
    match news {
        News::StoreUnwritten => 3,
        News::Returned(_)
        | News::OutageEnded(_, _)
        | News::OutageLifted(_)
        | News::JournalHasRoom
        | News::StoreWritten => 5,
        News::Answered(asked, told) => priority_of_answer(asked, told),
        _ => 4,
    }
}

fn push_place(alloc: Global, out: &mut Vec<u8>, place: &Place) -> Result<(), Memory>
    ensures { OnOk result (out.new.items ≡ out.old.items ++ texts.place_text place.now) }
{
    push_numbered(alloc, out, b"server ", u64::from(place.number))?;
    push_worded(out, b" ", place.host.bytes())?;
    push_numbered(alloc, out, b":", u64::from(place.port))
}

/// What a result code says (RFC 4511 section 4.1.9), for those that servers answer.
fn code_words(code: u64) -> &'static [u8]
    ensures { result.now ≡ texts.code_words code }
{
    match code {
        3 => b" (time limit exceeded)".as_slice(),
        4 => b" (size limit exceeded)".as_slice(),
        8 => b" (stronger authentication required)".as_slice(),
        13 => b" (confidentiality required)".as_slice(),
        32 => b" (no such object)".as_slice(),
        48 => b" (inappropriate authentication)".as_slice(),
        49 => b" (invalid credentials)".as_slice(),
        50 => b" (insufficient access rights)".as_slice(),
        51 => b" (busy)".as_slice(),
        52 => b" (unavailable)".as_slice(),
        53 => b" (unwilling to perform)".as_slice(),
        _ => b"".as_slice(),
    }
}

fn push_code(alloc: Global, out: &mut Vec<u8>, code: u64) -> Result<(), Memory>
    ensures { OnOk result (out.new.items ≡ out.old.items ++ texts.code_text code) }
{
    push_numbered_within(alloc, out, b"code ", code, code_words(code))
}

fn push_fallen(alloc: Global, out: &mut Vec<u8>, why: Fallen) -> Result<(), Memory>
    ensures { OnOk result (out.new.items ≡ out.old.items ++ texts.fallen_text why) }
{
    match why {
        Fallen::NoConnection => push_bytes(out, b"no connection"),
        Fallen::TimedOut => push_bytes(out, b"timed out"),
        Fallen::Closed => push_bytes(out, b"closed the connection"),
        Fallen::Bytes(at) => push_numbered_within(alloc, out, b"bytes at ", at, b" are no LDAP"),
        Fallen::Code(code) => push_code(alloc, out, u64::from(code)),
        Fallen::Message(tag) => {
            push_numbered_within(alloc, out, b"message ", u64::from(tag), b" out of place")
        }
        Fallen::Flood(taken) => push_numbered_within(alloc, out, b"flood, ", taken, b" bytes"),
    }
}

fn push_entry(alloc: Global, out: &mut Vec<u8>, words: &[u8], entry: u64) -> Result<(), Memory>
    ensures { OnOk result (out.new.items ≡ out.old.items ++ texts.with_entry words.now entry) }
{
    push_bytes(out, words)?;
    push_numbered(alloc, out, b", entry ", entry)
}

fn push_rule(alloc: Global, out: &mut Vec<u8>, entry: u64, rule: &[u8]) -> Result<(), Memory>
    ensures { OnOk result (out.new.items ≡ out.old.items ++ texts.rule_text entry rule.now) }
{
    push_bytes(out, b"granted by rule ")?;
    push_entry(alloc, out, rule, entry)
}

/// Appends what a login was told.
fn push_login(alloc: Global, out: &mut Vec<u8>, told: &Told) -> Result<(), Memory>
    ensures { OnOk result (out.new.items ≡ out.old.items ++ texts.login_text told.now) }
{
    match told {
        Told::AcceptedOnline(n) => push_entry(alloc, out, b"accepted online", *n),
        Told::WrongOnline(n) => push_entry(alloc, out, b"wrong password online", *n),
        Told::AcceptedOffline(n) => push_entry(alloc, out, b"accepted offline", *n),
        Told::WrongOffline(n) => push_entry(alloc, out, b"wrong password offline", *n),
        Told::DeniedEmpty => push_bytes(out, b"empty password"),
        Told::Expired(moment) => {
            push_numbered(alloc, out, b"offline, and the hash expired, at ", *moment)
        }
        Told::Blocked(until) => {
            push_numbered(alloc, out, b"blocked after wrong passwords until ", *until)
        }
        Told::BlockedOnline => {
            push_bytes(out, b"blocked after wrong passwords until an online login")
        }
        Told::NoHash => push_bytes(out, b"offline, and no hash is kept"),
        _ => push_bytes(out, b"answered"),
    }
}

/// Appends what an account check or a login was told.
fn push_access(alloc: Global, out: &mut Vec<u8>, told: &Told) -> Result<(), Memory>
    ensures { OnOk result (out.new.items ≡ out.old.items ++ texts.access_text told.now) }
{
    match told {
        Told::GrantedPermit(n) => push_entry(alloc, out, b"granted by permit", *n),
        Told::GrantedSimple(n) => push_entry(alloc, out, b"granted by simple lists", *n),
        Told::GrantedRule(n, name) => push_rule(alloc, out, *n, name.bytes()),
        Told::DeniedDeny(n) => { push_entry(alloc, out, b"denied, access_provider is deny", *n) }
        Told::DeniedSimple(n) => push_entry(alloc, out, b"denied, simple lists", *n),
        Told::DeniedNoRule(n) => push_entry(alloc, out, b"denied, no rule lets in", *n),
        _ => push_login(alloc, out, told),
    }
}

fn push_old(
    alloc: Global,
    out: &mut Vec<u8>,
    words: &[u8],
    entry: u64,
    outage: u64,
) -> Result<(), Memory>
    ensures { OnOk result (out.new.items ≡ out.old.items ++ texts.old_text words.now entry outage) }
{
    push_entry(alloc, out, words, entry)?;
    push_numbered(alloc, out, b", outage ", outage)
}

fn push_refused(alloc: Global, out: &mut Vec<u8>, code: u64) -> Result<(), Memory>
    ensures { OnOk result (out.new.items ≡ out.old.items ++ texts.refused_text code) }
{
    push_bytes(out, b"refused, ")?;
    push_code(alloc, out, code)
}

/// Appends what a client was told.
fn push_told(alloc: Global, out: &mut Vec<u8>, told: &Told) -> Result<(), Memory>
    ensures { OnOk result (out.new.items ≡ out.old.items ++ texts.told_text told.now) }
{
    match told {
        Told::Found(n) => push_entry(alloc, out, b"found", *n),
        Told::Absent(n) => push_entry(alloc, out, b"not in the directory", *n),
        Told::Old(n, outage) => push_old(alloc, out, b"found earlier", *n, *outage),
        Told::OldNone(n, outage) => {
            push_old(alloc, out, b"not in the directory earlier", *n, *outage)
        }
        Told::Dark(outage) => push_numbered(alloc, out, b"no server answers, outage ", *outage),
        Told::Filtered => push_bytes(out, b"a filtered name"),
        Told::Refused(code) => push_refused(alloc, out, *code),
        Told::Many(count) => {
            push_numbered_within(alloc, out, b"refused, ", *count, b" entries fit")
        }
        Told::Dropped(n) => push_entry(alloc, out, b"given up", *n),
        Told::Done(n) => push_entry(alloc, out, b"done", *n),
        _ => push_access(alloc, out, told),
    }
}

fn push_order(out: &mut Vec<u8>, order: &Order) -> Result<(), Memory>
    ensures { OnOk result (out.new.items ≡ out.old.items ++ texts.order_text order.now) }
{
    match order {
        Order::Offline => push_bytes(out, b"offline"),
        Order::Online => push_bytes(out, b"online"),
        Order::Stop => push_bytes(out, b"stop"),
        Order::All => push_bytes(out, b"invalidate all"),
        Order::Users => push_bytes(out, b"invalidate users"),
        Order::Groups => push_bytes(out, b"invalidate groups"),
        Order::User(name) => push_worded(out, b"invalidate user ", name.bytes()),
        Order::Group(name) => push_worded(out, b"invalidate group ", name.bytes()),
    }
}

fn push_check(out: &mut Vec<u8>, user: &[u8], service: &[u8]) -> Result<(), Memory>
    ensures { OnOk result (out.new.items ≡ out.old.items ++ texts.check_text user.now service.now) }
{
    push_worded(out, b"account check of ", user)?;
    push_worded(out, b" for ", service)
}

fn push_asked_order(out: &mut Vec<u8>, order: &Order) -> Result<(), Memory>
    ensures { OnOk result (out.new.items ≡ out.old.items ++ texts.asked_order order.now) }
{
    push_bytes(out, b"administrator: ")?;
    push_order(out, order)
}

/// Appends what a client asked.
fn push_asked(alloc: Global, out: &mut Vec<u8>, asked: &Asked) -> Result<(), Memory>
    ensures { OnOk result (out.new.items ≡ out.old.items ++ texts.asked_text asked.now) }
{
    match asked {
        Asked::User(name) => push_worded(out, b"user ", name.bytes()),
        Asked::Uid(uid) => push_numbered(alloc, out, b"uid ", u64::from(*uid)),
        Asked::Group(name) => push_worded(out, b"group ", name.bytes()),
        Asked::Gid(gid) => push_numbered(alloc, out, b"gid ", u64::from(*gid)),
        Asked::GroupsOf(name) => push_worded(out, b"groups of ", name.bytes()),
        Asked::Login(user) => push_worded(out, b"login of ", user.bytes()),
        Asked::Access(user, service) => push_check(out, user.bytes(), service.bytes()),
        Asked::Order(order) => push_asked_order(out, order),
    }
}

fn push_answered(alloc: Global, out: &mut Vec<u8>, asked: &Asked, told: &Told) -> Result<(), Memory>
    ensures { OnOk result (out.new.items ≡ out.old.items ++ texts.answered_text asked.now told.now) }
{
    push_asked(alloc, out, asked)?;
    push_bytes(out, b": ")?;
    push_told(alloc, out, told)
}

fn push_fell(alloc: Global, out: &mut Vec<u8>, place: &Place, why: Fallen) -> Result<(), Memory>
    ensures { OnOk result (out.new.items ≡ out.old.items ++ texts.fell_text place.now why) }
{
    push_place(alloc, out, place)?;
    push_bytes(out, b" fell: ")?;
    push_fallen(alloc, out, why)
}

fn push_returned(alloc: Global, out: &mut Vec<u8>, place: &Place) -> Result<(), Memory>
    ensures { OnOk result (out.new.items ≡ out.old.items ++ texts.returned_text place.now) }
{
    push_place(alloc, out, place)?;
    push_bytes(out, b" answers again")
}

fn push_ended(alloc: Global, out: &mut Vec<u8>, outage: u64, entry: u64) -> Result<(), Memory>
    ensures { OnOk result (out.new.items ≡ out.old.items ++ texts.ended_text outage entry) }
{
    push_numbered(alloc, out, b"outage ", outage)?;
    push_entry(alloc, out, b" ends: the directory answers", entry)
}

fn push_refuses(alloc: Global, out: &mut Vec<u8>, code: u64) -> Result<(), Memory>
    ensures { OnOk result (out.new.items ≡ out.old.items ++ texts.refuses_text code) }
{
    push_bytes(out, b"the directory refuses: ")?;
    push_code(alloc, out, code)
}

fn push_slow(alloc: Global, out: &mut Vec<u8>, whole: u64, store: u64) -> Result<(), Memory>
    ensures { OnOk result (out.new.items ≡ out.old.items ++ texts.slow_text whole store) }
{
    push_numbered(alloc, out, b"a forget and a flush took ", whole)?;
    push_numbered_within(alloc, out, b" milliseconds, ", store, b" of them the store")
}

fn push_option(
    alloc: Global,
    out: &mut Vec<u8>,
    line: u32,
    section: &[u8],
    key: &[u8],
) -> Result<(), Memory>
    ensures { OnOk result (out.new.items ≡ out.old.items ++ texts.option_text line section.now key.now) }
{
    push_numbered(alloc, out, b"option passed over: line ", u64::from(line))?;
    push_worded(out, b", [", section)?;
    push_worded(out, b"], ", key)
}

fn push_of_modules(
    alloc: Global,
    out: &mut Vec<u8>,
    line: u32,
    section: &[u8],
    key: &[u8],
) -> Result<(), Memory>
    ensures { OnOk result (out.new.items ≡ out.old.items ++ texts.of_modules_text line section.now key.now) }
{
    push_option(alloc, out, line, section, key)?;
    push_bytes(out, b"; it belongs into /etc/bixethomi/modules.conf")
}

fn push_provider(alloc: Global, out: &mut Vec<u8>, line: u32, provider: &[u8]) -> Result<(), Memory>
    ensures { OnOk result (out.new.items ≡ out.old.items ++ texts.provider_text line provider.now) }
{
    push_numbered(alloc, out, b"line ", u64::from(line))?;
    push_worded(out, b": auth_provider = ", provider)?;
    push_bytes(out, b", but logins are asked of the LDAP servers")
}

fn push_in_clear(alloc: Global, out: &mut Vec<u8>, place: &Place) -> Result<(), Memory>
    ensures { OnOk result (out.new.items ≡ out.old.items ++ texts.in_clear_text place.now) }
{
    push_bytes(out, b"passwords of logins go in clear to ")?;
    push_place(alloc, out, place)
}

/// Appends what is said of the configuration.
fn push_warning(alloc: Global, out: &mut Vec<u8>, news: &News) -> Result<(), Memory>
    ensures { OnOk result (out.new.items ≡ out.old.items ++ texts.warning_text news.now) }
{
    match news {
        News::PassedOver(line, section, key) => {
            push_option(alloc, out, *line, section.bytes(), key.bytes())
        }
        News::OfModules(line, section, key) => {
            push_of_modules(alloc, out, *line, section.bytes(), key.bytes())
        }
        News::OtherProvider(line, provider) => {
            push_provider(alloc, out, *line, provider.bytes())
        }
        News::BaseWithFilter(line) => push_numbered_within(
            alloc,
            out,
            b"line ",
            u64::from(*line),
            b": ldap_search_base has a question mark, and no scope or filter is read",
        ),
        News::InClear(place) => push_in_clear(alloc, out, place),
        News::JournalFills => push_bytes(
            out,
            b"the journal has nine tenths of the entries that journal_limit allows",
        ),
        News::JournalHasRoom => push_bytes(out, b"the journal has room again"),
        News::StoreUnwritten => push_bytes(out, b"the store cannot be written"),
        News::StoreWritten => push_bytes(out, b"the store is written again"),
        _ => Ok(()),
    }
}

/// Appends what news say.
fn push_news(alloc: Global, out: &mut Vec<u8>, news: &News) -> Result<(), Memory>
    ensures { OnOk result (out.new.items ≡ out.old.items ++ texts.news_text news.now) }
{
    match news {
        News::Fell(place, why) => push_fell(alloc, out, place, *why),
        News::Returned(place) => push_returned(alloc, out, place),
        News::OutageBegan(n) => {
            push_numbered_within(alloc, out, b"outage ", *n, b" begins: no server answers")
        }
        News::OutageOrdered(n) => {
            push_numbered_within(
                alloc,
                out,
                b"outage ",
                *n,
                b" begins: an administrator said so",
            )
        }
        News::OutageEnded(n, entry) => push_ended(alloc, out, *n, *entry),
        News::OutageLifted(n) => {
            push_numbered_within(
                alloc,
                out,
                b"outage ",
                *n,
                b" ends: an administrator said so",
            )
        }
        News::Refuses(code) => push_refuses(alloc, out, *code),
        News::Fits(count) => push_numbered_within(
            alloc,
            out,
            b"the directory refuses: ",
            *count,
            b" entries fit where one may",
        ),
        News::Answered(asked, told) => push_answered(alloc, out, asked, told),
        News::Slow(whole, store) => push_slow(alloc, out, *whole, *store),
        _ => push_warning(alloc, out, news),
    }
}

/// Appends the priority in front of a line, as the journal of systemd reads it, and the program's name.
fn push_front(alloc: Global, out: &mut Vec<u8>, priority: u8) -> Result<(), Memory>
    ensures { OnOk result (out.new.items ≡ out.old.items ++ texts.front_text priority) }
{
    push_numbered_within(alloc, out, b"<", u64::from(priority), b">bixethomi: ")
}

/// The line of the log for news, without its line feed.
pub fn line_of(alloc: Global, news: &News) -> Result<Text, Memory>
    ensures { IfOk result (λ line. line ≡ texts.line_of news.now) }
{
    let mut out = Vec::new(alloc);
    push_front(alloc, &mut out, priority_of(news))?;
    push_news(alloc, &mut out, news)?;
    Text::from_bytes(alloc, out.as_slice())
}
