// The reply to a question, by the newest answer of its key, the bound below which that is voided, the outage that stands and the
// request that is open.
ghost use Rattle.std.specs.Prelude.{◌≡◌, None};
ghost use Rattle.std.specs.Option.{option_copied};
ghost use Rattle.sd_rules.specs.Answers as answers;
ghost use Rattle.sd_index.specs.Asked as asked;

use sd_base::{Text, Texts};
use sd_cache::Newest;
use sd_rules::{Answered, Key, Reply, Settings};

/// The least age, in seconds, at which an answer is past its midpoint.
const LEAST_MIDPOINT: u64 = 10;

fn lists_name(names: &Texts, name: &Text) -> bool
    ensures { result ≡ answers.lists_name names.now name.now }
{
    names.items().iter().any(|n| n == name)
}

/// Whether a key is never looked up.
pub fn is_filtered(settings: &Settings, key: &Key) -> bool
    ensures { result ≡ answers.is_filtered settings.now key.now }
{
    match key {
        Key::User(name) | Key::GroupsOf(name) => lists_name(&settings.filter_users, name),
        Key::Group(name) => lists_name(&settings.filter_groups, name),
        _ => false,
    }
}

fn found_timeout(settings: &Settings, key: &Key) -> u32
    ensures { result ≡ answers.found_timeout settings.now key.now }
{
    match key {
        Key::User(_) | Key::Uid(_) | Key::GroupsOf(_) => settings.user_timeout,
        Key::Group(_) | Key::Gid(_) => settings.group_timeout,
        Key::Host | Key::Rules => settings.hbac_refresh,
    }
}

fn is_found(answered: &Answered) -> bool
    ensures { result ≡ answers.is_found answered.now }
{
    matches!(answered, Answered::Found(_))
}

fn timeout_of(settings: &Settings, answer: &Newest) -> u32
    ensures { result ≡ asked.timeout_of settings.now answer.now }
{
    if is_found(&answer.answered) {
        found_timeout(settings, answer.own.value())
    } else {
        settings.negative_timeout
    }
}

fn is_voided(bound: u64, answer: &Newest) -> bool
    ensures { result ≡ asked.is_voided bound answer.now }
{
    answer.marked || answer.number < bound
}

fn is_fresh(settings: &Settings, bound: u64, t: u64, answer: &Newest) -> bool
    ensures { result ≡ asked.is_fresh settings.now bound t answer.now }
{
    !is_voided(bound, answer)
        && t.saturating_sub(answer.moment) < u64::from(timeout_of(settings, answer))
}

fn has_midpoint(key: &Key) -> bool
    ensures { result ≡ answers.has_midpoint key.now }
{
    !matches!(key, Key::Host | Key::Rules)
}

fn is_past_midpoint(settings: &Settings, t: u64, answer: &Newest) -> bool
    ensures { result ≡ asked.is_past_midpoint settings.now t answer.now }
{
    if !has_midpoint(answer.own.value()) || settings.nowait == 0 {
        return false;
    }
    let timeout = u64::from(timeout_of(settings, answer));
    let share = timeout * u64::from(settings.nowait) / 100;
    share.max(LEAST_MIDPOINT) <= t.saturating_sub(answer.moment)
}

fn reply_in_outage(outage: u64, answer: Option<&Newest>) -> Reply
    ensures { result ≡ asked.reply_in_outage outage (option_copied answer.entry) }
{
    match answer {
        Some(a) => {
            if is_found(&a.answered) {
                Reply::Old(a.number, outage)
            } else {
                Reply::OldGone(a.number, outage)
            }
        }
        None => Reply::Dark(outage),
    }
}

fn reply_by_request(number: u64, running: Option<u64>) -> Reply
    ensures { result ≡ answers.reply_by_request number running }
{
    match running {
        Some(request) => Reply::Join(request, number),
        None => Reply::Lead(number),
    }
}

fn reply_unless_fresh(
    number: u64,
    answer: Option<&Newest>,
    outage: Option<u64>,
    running: Option<u64>,
) -> Reply
    ensures { result ≡ asked.reply_unless_fresh number (option_copied answer.entry) outage running }
{
    match outage {
        Some(outage) => reply_in_outage(outage, answer),
        None => reply_by_request(number, running),
    }
}

fn reply_if_fresh(
    settings: &Settings,
    number: u64,
    t: u64,
    answer: &Newest,
    outage: Option<u64>,
    running: Option<u64>,
) -> Reply
    ensures { result ≡ asked.reply_if_fresh settings.now number t answer.now outage running }
{
    if !is_found(&answer.answered) {
        return Reply::Gone(answer.number);
    }
    if is_past_midpoint(settings, t, answer) && outage.is_none() && running.is_none() {
        return Reply::Refresh(answer.number, number);
    }
    Reply::Fresh(answer.number)
}

/// The reply to a question; `number` is that of the new entry, and `bound` the number below which the answer is voided.
pub fn reply_by_newest(
    settings: &Settings,
    number: u64,
    t: u64,
    answer: Option<&Newest>,
    bound: u64,
    outage: Option<u64>,
    running: Option<u64>,
) -> Reply
    ensures { result ≡ asked.reply_by_newest settings.now number t (option_copied answer.entry) bound outage running }
{
    match answer {
        Some(a) => {
            if is_fresh(settings, bound, t, a) {
                reply_if_fresh(settings, number, t, a, outage, running)
            } else {
                reply_unless_fresh(number, answer, outage, running)
            }
        }
        None => reply_unless_fresh(number, answer, outage, running),
    }
}
