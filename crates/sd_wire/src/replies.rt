// The texts of replies, as a journal's lines have them.
ghost use Rattle.std.specs.Prelude.{◌≡◌, ◌++◌, OnOk};
ghost use Rattle.sd_wire.specs.ReplyTexts as texts;

use crate::fields::{push_bytes, push_numbered, push_numbered_twice};
use crate::told::push_blocked;
use sd_base::Memory;
use sd_rules::{By, NotBy, Outcome, Refusal, Reply, Verdict};
use std::alloc::Global;

fn push_refused(alloc: Global, out: &mut Vec<u8>, refusal: Refusal) -> Result<(), Memory>
    ensures { OnOk result (out.new.items ≡ out.old.items ++ texts.refused_text refusal) }
{
    match refusal {
        Refusal::Code(code) => push_numbered(alloc, out, b"refused ", u64::from(code)),
        Refusal::Many(count) => push_numbered(alloc, out, b"many ", u64::from(count)),
    }
}

fn push_outcome(alloc: Global, out: &mut Vec<u8>, outcome: Outcome) -> Result<(), Memory>
    ensures { OnOk result (out.new.items ≡ out.old.items ++ texts.outcome_text outcome) }
{
    match outcome {
        Outcome::Found(n) => push_numbered(alloc, out, b"found ", n),
        Outcome::Absent(n) => push_numbered(alloc, out, b"absent ", n),
        Outcome::Refused(refusal) => push_refused(alloc, out, refusal),
        Outcome::Old(n, outage) => push_numbered_twice(alloc, out, b"old ", n, outage),
        Outcome::OldGone(n, outage) => push_numbered_twice(alloc, out, b"oldgone ", n, outage),
        Outcome::Dark(outage) => push_numbered(alloc, out, b"dark ", outage),
        Outcome::Dropped(n) => push_numbered(alloc, out, b"dropped ", n),
    }
}

fn push_shut(alloc: Global, out: &mut Vec<u8>, outcome: Outcome) -> Result<(), Memory>
    ensures { OnOk result (out.new.items ≡ out.old.items ++ texts.shut_text outcome) }
{
    push_bytes(out, b"shut ")?;
    push_outcome(alloc, out, outcome)
}

fn push_took(alloc: Global, out: &mut Vec<u8>, outcome: Outcome) -> Result<(), Memory>
    ensures { OnOk result (out.new.items ≡ out.old.items ++ texts.took_text outcome) }
{
    push_bytes(out, b"took ")?;
    push_outcome(alloc, out, outcome)
}

fn push_verdict(alloc: Global, out: &mut Vec<u8>, verdict: Verdict) -> Result<(), Memory>
    ensures { OnOk result (out.new.items ≡ out.old.items ++ texts.verdict_text verdict) }
{
    match verdict {
        Verdict::Unknown => push_bytes(out, b"unknown"),
        Verdict::Expired(moment) => push_numbered(alloc, out, b"expired ", moment),
        Verdict::Blocked(until) => push_blocked(alloc, out, until),
        Verdict::Stale(newest) => push_numbered(alloc, out, b"stale ", newest),
        Verdict::Accepted => push_bytes(out, b"accepted"),
        Verdict::Wrong => push_bytes(out, b"wrong"),
    }
}

fn push_granted(alloc: Global, out: &mut Vec<u8>, by: By) -> Result<(), Memory>
    ensures { OnOk result (out.new.items ≡ out.old.items ++ texts.granted_text by) }
{
    match by {
        By::Permit => push_bytes(out, b"granted permit"),
        By::Simple => push_bytes(out, b"granted simple"),
        By::Rule(n, place) => {
            push_numbered_twice(alloc, out, b"granted rule ", n, u64::from(place))
        }
    }
}

fn push_denied(out: &mut Vec<u8>, by: NotBy) -> Result<(), Memory>
    ensures { OnOk result (out.new.items ≡ out.old.items ++ texts.denied_text by) }
{
    match by {
        NotBy::Deny => push_bytes(out, b"denied deny"),
        NotBy::Simple => push_bytes(out, b"denied simple"),
        NotBy::NoRule => push_bytes(out, b"denied norule"),
    }
}

/// Appends the reply to the event of a login, an account check or a kept row.
fn push_login_reply(alloc: Global, out: &mut Vec<u8>, reply: Reply) -> Result<(), Memory>
    ensures { OnOk result (out.new.items ≡ out.old.items ++ texts.login_reply_text reply) }
{
    match reply {
        Reply::Offline(outage) => push_numbered(alloc, out, b"offline ", outage),
        Reply::Bind(_) => push_bytes(out, b"bind"),
        Reply::NoHash => push_bytes(out, b"nohash"),
        Reply::Hash(named) => push_numbered(alloc, out, b"hash ", named),
        Reply::Judged(verdict) => push_verdict(alloc, out, verdict),
        Reply::Cached(_, named) => push_numbered(alloc, out, b"cached ", named),
        Reply::Tried(verdict) => push_verdict(alloc, out, verdict),
        Reply::Granted(by) => push_granted(alloc, out, by),
        Reply::Denied(by) => push_denied(out, by),
        Reply::Held => push_bytes(out, b"held"),
        _ => Ok(()),
    }
}

/// Appends the reply to an event of an open request, an open attempt or a ticket.
fn push_request_reply(alloc: Global, out: &mut Vec<u8>, reply: Reply) -> Result<(), Memory>
    ensures { OnOk result (out.new.items ≡ out.old.items ++ texts.request_reply_text reply) }
{
    match reply {
        Reply::Server(server) => push_numbered(alloc, out, b"server ", u64::from(server)),
        Reply::NoServer => push_bytes(out, b"noserver"),
        Reply::NoRequest => push_bytes(out, b"norequest"),
        Reply::NotPicked => push_bytes(out, b"notpicked"),
        Reply::Noted => push_bytes(out, b"noted"),
        Reply::Again(void) => push_numbered(alloc, out, b"again ", void),
        Reply::Closed => push_bytes(out, b"closed"),
        Reply::Servable(server) => push_numbered(alloc, out, b"servable ", u64::from(server)),
        Reply::Shut(outcome) => push_shut(alloc, out, outcome),
        Reply::NoTicket => push_bytes(out, b"noticket"),
        Reply::NotYet(request) => push_numbered(alloc, out, b"notyet ", request),
        Reply::Took(outcome) => push_took(alloc, out, outcome),
        _ => push_login_reply(alloc, out, reply),
    }
}

/// Appends the text of a reply.
pub fn push_reply(alloc: Global, out: &mut Vec<u8>, reply: Reply) -> Result<(), Memory>
    ensures { OnOk result (out.new.items ≡ out.old.items ++ texts.reply_text reply) }
{
    match reply {
        Reply::Filtered => push_bytes(out, b"filtered"),
        Reply::Fresh(n) => push_numbered(alloc, out, b"fresh ", n),
        Reply::Refresh(n, _) => push_numbered(alloc, out, b"refresh ", n),
        Reply::Gone(n) => push_numbered(alloc, out, b"gone ", n),
        Reply::Old(n, outage) => push_numbered_twice(alloc, out, b"old ", n, outage),
        Reply::OldGone(n, outage) => push_numbered_twice(alloc, out, b"oldgone ", n, outage),
        Reply::Dark(outage) => push_numbered(alloc, out, b"dark ", outage),
        Reply::Join(request, _) => push_numbered(alloc, out, b"join ", request),
        Reply::Lead(_) => push_bytes(out, b"lead"),
        Reply::Left => push_bytes(out, b"left"),
        Reply::Done => push_bytes(out, b"done"),
        _ => push_request_reply(alloc, out, reply),
    }
}
