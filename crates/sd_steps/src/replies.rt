// Prints replies as a journal does: words, and one or two numbers.
use crate::output::{print_number, print_word};
use sd_base::Memory;
use sd_rules::{By, NotBy, Outcome, Refusal, Reply, Verdict};

/// The words of a text and the numbers behind them.
#[derive(Clone, Copy)]
struct Parts {
    words: &'static str,
    first: Option<u64>,
    second: Option<u64>,
}

fn plain(words: &'static str) -> Parts {
    Parts {
        words,
        first: None,
        second: None,
    }
}

fn one(words: &'static str, first: u64) -> Parts {
    Parts {
        words,
        first: Some(first),
        second: None,
    }
}

fn two(words: &'static str, first: u64, second: u64) -> Parts {
    Parts {
        words,
        first: Some(first),
        second: Some(second),
    }
}

fn of_shut(outcome: Outcome) -> Parts {
    match outcome {
        Outcome::Old(n, outage) => two("shut old", n, outage),
        Outcome::OldGone(n, outage) => two("shut oldgone", n, outage),
        Outcome::Dark(outage) => one("shut dark", outage),
        _ => plain("shut"),
    }
}

fn of_took(outcome: Outcome) -> Parts {
    match outcome {
        Outcome::Found(n) => one("took found", n),
        Outcome::Absent(n) => one("took absent", n),
        Outcome::Refused(Refusal::Code(code)) => one("took refused", u64::from(code)),
        Outcome::Refused(Refusal::Many(count)) => one("took many", u64::from(count)),
        Outcome::Old(n, outage) => two("took old", n, outage),
        Outcome::OldGone(n, outage) => two("took oldgone", n, outage),
        Outcome::Dark(outage) => one("took dark", outage),
        Outcome::Dropped(n) => one("took dropped", n),
    }
}

fn of_verdict(verdict: Verdict) -> Parts {
    match verdict {
        Verdict::Unknown => plain("unknown"),
        Verdict::Expired(moment) => one("expired", moment),
        Verdict::Blocked(Some(moment)) => one("blocked", moment),
        Verdict::Blocked(None) => plain("blocked online"),
        Verdict::Stale(n) => one("stale", n),
        Verdict::Accepted => plain("accepted"),
        Verdict::Wrong => plain("wrong"),
    }
}

fn of_granted(why: By) -> Parts {
    match why {
        By::Permit => plain("granted permit"),
        By::Simple => plain("granted simple"),
        By::Rule(n, place) => two("granted rule", n, u64::from(place)),
    }
}

fn of_denied(why: NotBy) -> Parts {
    match why {
        NotBy::Deny => plain("denied deny"),
        NotBy::Simple => plain("denied simple"),
        NotBy::NoRule => plain("denied norule"),
    }
}

fn of_login(reply: Reply) -> Parts {
    match reply {
        Reply::Offline(outage) => one("offline", outage),
        Reply::Bind(_) => plain("bind"),
        Reply::Cached(_, login) => one("cached", login),
        Reply::NoHash => plain("nohash"),
        Reply::Hash(n) => one("hash", n),
        Reply::Judged(verdict) | Reply::Tried(verdict) => of_verdict(verdict),
        Reply::Granted(why) => of_granted(why),
        Reply::Denied(why) => of_denied(why),
        _ => plain("held"),
    }
}

fn of_request(reply: Reply) -> Parts {
    match reply {
        Reply::Server(server) => one("server", u64::from(server)),
        Reply::NoServer => plain("noserver"),
        Reply::NoRequest => plain("norequest"),
        Reply::NotPicked => plain("notpicked"),
        Reply::Noted => plain("noted"),
        Reply::Again(void) => one("again", void),
        Reply::Closed => plain("closed"),
        Reply::Servable(server) => one("servable", u64::from(server)),
        Reply::Shut(outcome) => of_shut(outcome),
        Reply::NoTicket => plain("noticket"),
        Reply::NotYet(request) => one("notyet", request),
        Reply::Took(outcome) => of_took(outcome),
        Reply::Left => plain("left"),
        Reply::Done => plain("done"),
        _ => of_login(reply),
    }
}

fn of_reply(reply: Reply) -> Parts {
    match reply {
        Reply::Filtered => plain("filtered"),
        Reply::Fresh(n) => one("fresh", n),
        Reply::Refresh(n, _) => one("refresh", n),
        Reply::Gone(n) => one("gone", n),
        Reply::Old(n, outage) => two("old", n, outage),
        Reply::OldGone(n, outage) => two("oldgone", n, outage),
        Reply::Dark(outage) => one("dark", outage),
        Reply::Join(request, _) => one("join", request),
        Reply::Lead(_) => plain("lead"),
        _ => of_request(reply),
    }
}

fn print_some(out: &mut Vec<u8>, number: Option<u64>) -> Result<(), Memory> {
    match number {
        Some(number) => print_number(out, number),
        None => Ok(()),
    }
}

/// Prints a reply, with a space before each word and number.
pub fn print_reply(out: &mut Vec<u8>, reply: Reply) -> Result<(), Memory> {
    let parts = of_reply(reply);
    print_word(out, parts.words.as_bytes())?;
    print_some(out, parts.first)?;
    print_some(out, parts.second)
}
