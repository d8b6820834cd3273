// The texts of what clients are told.
ghost use Rattle.std.specs.Prelude.{◌≡◌, ◌++◌, OnOk, IfOk, [], codes};
ghost use Rattle.sd_wire.specs.SaidTexts as texts;
ghost use Rattle.sd_wire.specs.Forms as forms;

use crate::fields::{
    push_bytes, push_field, push_numbered, push_numbered_twice, push_numbered_within,
};
use crate::records::push_record;
use sd_base::{Memory, Text};
use sd_rules::{Record, Said};
use std::alloc::Global;

fn push_found(
    alloc: Global,
    out: &mut Vec<u8>,
    number: u64,
    found: &Record,
    pwfield: &[u8],
) -> Result<(), Memory>
    ensures ok { OnOk result (out.new.items ≡ out.old.items ++ texts.found_text number found.now pwfield.now) }
    ensures kept { forms.Keeps out.old.items out.new.items }
{
    push_numbered(alloc, out, b"found ", number)?;
    push_bytes(out, b" ")?;
    push_record(alloc, out, found, pwfield)
}

fn push_old(
    alloc: Global,
    out: &mut Vec<u8>,
    number: u64,
    outage: u64,
    found: &Record,
    pwfield: &[u8],
) -> Result<(), Memory>
    ensures ok { OnOk result (out.new.items ≡ out.old.items ++ texts.old_text number outage found.now pwfield.now) }
    ensures kept { forms.Keeps out.old.items out.new.items }
{
    push_numbered_twice(alloc, out, b"old ", number, outage)?;
    push_bytes(out, b" ")?;
    push_record(alloc, out, found, pwfield)
}

/// Appends until when logins are blocked.
pub fn push_blocked(alloc: Global, out: &mut Vec<u8>, until: Option<u64>) -> Result<(), Memory>
    ensures ok { OnOk result (out.new.items ≡ out.old.items ++ texts.blocked_text until) }
    ensures kept { forms.Keeps out.old.items out.new.items }
{
    match until {
        Some(moment) => push_numbered(alloc, out, b"blocked ", moment),
        None => push_bytes(out, b"blocked online"),
    }
}

/// Appends what a login is told.
fn push_login(alloc: Global, out: &mut Vec<u8>, said: &Said) -> Result<(), Memory>
    ensures ok { OnOk result (out.new.items ≡ out.old.items ++ texts.login_text said.now) }
    ensures kept { forms.Keeps out.old.items out.new.items }
{
    match said {
        Said::DeniedEmpty => push_bytes(out, b"denied empty"),
        Said::AcceptedOnline(n) => push_numbered(alloc, out, b"accepted online ", *n),
        Said::WrongOnline(n) => push_numbered(alloc, out, b"wrong online ", *n),
        Said::AcceptedOffline(n) => push_numbered(alloc, out, b"accepted offline ", *n),
        Said::WrongOffline(n) => push_numbered(alloc, out, b"wrong offline ", *n),
        Said::Expired(moment) => push_numbered(alloc, out, b"expired ", *moment),
        Said::Blocked(until) => push_blocked(alloc, out, *until),
        Said::NoHash => push_bytes(out, b"nohash"),
        _ => Ok(()),
    }
}

fn push_granted_rule(
    alloc: Global,
    out: &mut Vec<u8>,
    number: u64,
    name: &[u8],
) -> Result<(), Memory>
    ensures ok { OnOk result (out.new.items ≡ out.old.items ++ texts.granted_rule_text number name.now) }
    ensures kept { forms.Keeps out.old.items out.new.items }
{
    push_numbered(alloc, out, b"granted ", number)?;
    push_bytes(out, b" rule ")?;
    push_field(out, name)
}

/// Appends what an account check is told.
fn push_access(alloc: Global, out: &mut Vec<u8>, said: &Said) -> Result<(), Memory>
    ensures ok { OnOk result (out.new.items ≡ out.old.items ++ texts.access_text said.now) }
    ensures kept { forms.Keeps out.old.items out.new.items }
{
    match said {
        Said::GrantedPermit(n) => push_numbered_within(alloc, out, b"granted ", *n, b" permit"),
        Said::GrantedSimple(n) => push_numbered_within(alloc, out, b"granted ", *n, b" simple"),
        Said::GrantedRule(n, name) => push_granted_rule(alloc, out, *n, name.bytes()),
        Said::DeniedDeny(n) => push_numbered_within(alloc, out, b"denied ", *n, b" deny"),
        Said::DeniedSimple(n) => push_numbered_within(alloc, out, b"denied ", *n, b" simple"),
        Said::DeniedNoRule(n) => push_numbered_within(alloc, out, b"denied ", *n, b" norule"),
        _ => push_login(alloc, out, said),
    }
}

/// Appends the text of what a client is told.
pub fn push_line(
    alloc: Global,
    out: &mut Vec<u8>,
    said: &Said,
    pwfield: &[u8],
) -> Result<(), Memory>
    ensures ok { OnOk result (out.new.items ≡ out.old.items ++ texts.line_of said.now pwfield.now) }
    ensures kept { forms.Keeps out.old.items out.new.items }
{
    match said {
        Said::Found(n, found) => push_found(alloc, out, *n, found.value(), pwfield),
        Said::Absent(n) => push_numbered(alloc, out, b"none ", *n),
        Said::Old(n, outage, found) => push_old(alloc, out, *n, *outage, found.value(), pwfield),
        Said::OldNone(n, outage) => push_numbered_twice(alloc, out, b"oldnone ", *n, *outage),
        Said::Dark(outage) => push_numbered(alloc, out, b"dark ", *outage),
        Said::Filtered => push_bytes(out, b"filtered"),
        Said::Refused(code) => push_numbered(alloc, out, b"refused ", u64::from(*code)),
        Said::Many(count) => push_numbered(alloc, out, b"many ", u64::from(*count)),
        Said::Dropped(n) => push_numbered(alloc, out, b"dropped ", *n),
        Said::Done(n) => push_numbered(alloc, out, b"done ", *n),
        _ => push_access(alloc, out, said),
    }
}

/// The text of what a client is told. `pwfield` stands for the password in the lines of users and groups: pwfield of
/// sssd.conf(5).
pub fn print_line(alloc: Global, said: &Said, pwfield: &Text) -> Result<Text, Memory>
    ensures { IfOk result (λ text. text ≡ texts.line_of said.now pwfield.now) }
{
    let mut out = Vec::new(alloc);
    push_line(alloc, &mut out, said, pwfield.bytes())?;
    Text::from_bytes(alloc, out.as_slice())
}
