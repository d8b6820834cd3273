// The reply to a question.
ghost use Rattle.std.specs.Prelude.{◌≡◌, reverse, None};
ghost use Rattle.std.specs.Option.{option_map};
ghost use Rattle.sd_rules.specs.Answers as answers;
ghost use Rattle.sd_journal.specs.Seen as seen;

use crate::past::{Standing, is_voided, newest, outage_at};
use crate::requests::open_for;
use sd_base::{Text, Texts};
use sd_rules::{Answered, Entry, Key, Reply, Settings};

/// The least age, in seconds, at which an answer is past its midpoint.
const LEAST_MIDPOINT: u64 = 10;

fn lists_name(names: &Texts, name: &Text) -> bool
    ensures { result ≡ answers.lists_name names.now name.now }
{
    names.items().iter().any(|n| n == name)
}

fn is_filtered(settings: &Settings, key: &Key) -> bool
    ensures { result ≡ answers.is_filtered settings.now key.now }
{
    match key {
        Key::User(name) | Key::GroupsOf(name) => lists_name(&settings.filter_users, name),
        Key::Group(name) => lists_name(&settings.filter_groups, name),
        _ => false,
    }
}

fn found_timeout(settings: &Settings, key: &Key) -> u32
    ensures { result ≡ answers.found_timeout settings.now key.now }
{
    match key {
        Key::User(_) | Key::Uid(_) | Key::GroupsOf(_) => settings.user_timeout,
        Key::Group(_) | Key::Gid(_) => settings.group_timeout,
        Key::Host | Key::Rules => settings.hbac_refresh,
    }
}

pub fn is_found(answered: &Answered) -> bool
    ensures { result ≡ answers.is_found answered.now }
{
    matches!(answered, Answered::Found(_))
}

fn timeout_of(settings: &Settings, answer: Standing<'_>) -> u32
    ensures { result ≡ answers.timeout_of settings.now (seen.standing answer.entry) }
{
    if is_found(answer.answered) {
        found_timeout(settings, answer.own)
    } else {
        settings.negative_timeout
    }
}

fn is_fresh(settings: &Settings, entries: &[Entry], t: u64, answer: Standing<'_>) -> bool
    ensures { result ≡ answers.is_fresh settings.now (reverse entries.now) t (seen.standing answer.entry) }
{
    !is_voided(entries, answer)
        && t.saturating_sub(answer.moment) < u64::from(timeout_of(settings, answer))
}

fn has_midpoint(key: &Key) -> bool
    ensures { result ≡ answers.has_midpoint key.now }
{
    !matches!(key, Key::Host | Key::Rules)
}

fn is_past_midpoint(settings: &Settings, t: u64, answer: Standing<'_>) -> bool
    ensures { result ≡ answers.is_past_midpoint settings.now t (seen.standing answer.entry) }
{
    if !has_midpoint(answer.own) || settings.nowait == 0 {
        return false;
    }
    let timeout = u64::from(timeout_of(settings, answer));
    let share = timeout * u64::from(settings.nowait) / 100;
    share.max(LEAST_MIDPOINT) <= t.saturating_sub(answer.moment)
}

fn reply_in_outage(outage: u64, answer: Option<Standing<'_>>) -> Reply
    ensures { result ≡ answers.reply_in_outage outage (option_map seen.standing answer.entry) }
{
    match answer {
        Some(a) => {
            if is_found(a.answered) {
                Reply::Old(a.number, outage)
            } else {
                Reply::OldGone(a.number, outage)
            }
        }
        None => Reply::Dark(outage),
    }
}

fn reply_by_request(number: u64, running: Option<u64>) -> Reply
    ensures { result ≡ answers.reply_by_request number running }
{
    match running {
        Some(request) => Reply::Join(request, number),
        None => Reply::Lead(number),
    }
}

fn reply_unless_fresh(
    number: u64,
    answer: Option<Standing<'_>>,
    outage: Option<u64>,
    running: Option<u64>,
) -> Reply
    ensures { result ≡ answers.reply_unless_fresh number (option_map seen.standing answer.entry) outage running }
{
    match outage {
        Some(outage) => reply_in_outage(outage, answer),
        None => reply_by_request(number, running),
    }
}

fn reply_if_fresh(
    settings: &Settings,
    number: u64,
    t: u64,
    answer: Standing<'_>,
    outage: Option<u64>,
    running: Option<u64>,
) -> Reply
    ensures { result ≡ answers.reply_if_fresh settings.now number t (seen.standing answer.entry) outage running }
{
    if !is_found(answer.answered) {
        return Reply::Gone(answer.number);
    }
    if is_past_midpoint(settings, t, answer) && outage.is_none() && running.is_none() {
        return Reply::Refresh(answer.number, number);
    }
    Reply::Fresh(answer.number)
}

fn reply_by_newest(
    settings: &Settings,
    entries: &[Entry],
    number: u64,
    t: u64,
    answer: Option<Standing<'_>>,
    outage: Option<u64>,
    running: Option<u64>,
) -> Reply
    ensures { result ≡ answers.reply_by_newest settings.now (reverse entries.now) number t (option_map seen.standing answer.entry) outage running }
{
    match answer {
        Some(a) => {
            if is_fresh(settings, entries, t, a) {
                reply_if_fresh(settings, number, t, a, outage, running)
            } else {
                reply_unless_fresh(number, answer, outage, running)
            }
        }
        None => reply_unless_fresh(number, answer, outage, running),
    }
}

/// The reply to a question at a moment; `number` is that of the new entry.
pub fn reply_to_ask(settings: &Settings, entries: &[Entry], number: u64, t: u64, key: &Key) -> Reply
    ensures { result ≡ answers.reply_to_ask settings.now (reverse entries.now) number t key.now }
{
    if is_filtered(settings, key) {
        return Reply::Filtered;
    }
    let answer = newest(entries, key);
    let outage = outage_at(settings.offline_timeout, entries, t);
    let running = open_for(entries, key);
    reply_by_newest(settings, entries, number, t, answer, outage, running)
}
