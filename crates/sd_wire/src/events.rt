// The texts of events, as a journal's lines have them.
ghost use Rattle.std.specs.Prelude.{◌≡◌, ◌++◌, OnOk};
ghost use Rattle.sd_wire.specs.EventTexts as texts;

use crate::fields::{
    push_bytes, push_field, push_number, push_numbered, push_numbered_twice, push_worded,
};
use sd_base::{Memory, Why};
use sd_rules::{Answered, Event, Key, LoginResult, Refusal, What};
use std::alloc::Global;

fn push_key(alloc: Global, out: &mut Vec<u8>, key: &Key) -> Result<(), Memory>
    ensures { OnOk result (out.new.items ≡ out.old.items ++ texts.key_text key.now) }
{
    match key {
        Key::User(name) => push_worded(out, b"user:", name.bytes()),
        Key::Uid(uid) => push_numbered(alloc, out, b"uid:", u64::from(*uid)),
        Key::Group(name) => push_worded(out, b"group:", name.bytes()),
        Key::Gid(gid) => push_numbered(alloc, out, b"gid:", u64::from(*gid)),
        Key::GroupsOf(name) => push_worded(out, b"groups:", name.bytes()),
        Key::Host => push_bytes(out, b"host"),
        Key::Rules => push_bytes(out, b"rules"),
    }
}

fn push_why(alloc: Global, out: &mut Vec<u8>, why: Why) -> Result<(), Memory>
    ensures { OnOk result (out.new.items ≡ out.old.items ++ texts.why_text why) }
{
    match why {
        Why::Link => push_bytes(out, b" link"),
        Why::Bytes(place) => push_numbered(alloc, out, b" bytes ", place),
        Why::Code(code) => push_numbered(alloc, out, b" code ", u64::from(code)),
        Why::Message(tag) => push_numbered(alloc, out, b" message ", u64::from(tag)),
        Why::Flood(taken) => push_numbered(alloc, out, b" flood ", taken),
    }
}

fn push_answered(out: &mut Vec<u8>, answered: &Answered) -> Result<(), Memory>
    ensures { OnOk result (out.new.items ≡ out.old.items ++ texts.answered_text answered.now) }
{
    match answered {
        Answered::Found(_) => push_bytes(out, b" found"),
        Answered::Absent => push_bytes(out, b" absent"),
    }
}

fn push_refusal(alloc: Global, out: &mut Vec<u8>, refusal: Refusal) -> Result<(), Memory>
    ensures { OnOk result (out.new.items ≡ out.old.items ++ texts.refusal_text refusal) }
{
    match refusal {
        Refusal::Code(code) => push_numbered(alloc, out, b" code ", u64::from(code)),
        Refusal::Many(count) => push_numbered(alloc, out, b" many ", u64::from(count)),
    }
}

fn push_what(out: &mut Vec<u8>, what: &What) -> Result<(), Memory>
    ensures { OnOk result (out.new.items ≡ out.old.items ++ texts.what_text what.now) }
{
    match what {
        What::All => push_bytes(out, b"all"),
        What::Users => push_bytes(out, b"users"),
        What::Groups => push_bytes(out, b"groups"),
        What::User(name) => push_worded(out, b"user ", name.bytes()),
        What::Group(name) => push_worded(out, b"group ", name.bytes()),
    }
}

fn push_result(alloc: Global, out: &mut Vec<u8>, said: LoginResult) -> Result<(), Memory>
    ensures { OnOk result (out.new.items ≡ out.old.items ++ texts.result_text said) }
{
    match said {
        LoginResult::Right(_) => push_bytes(out, b" right"),
        LoginResult::Wrong => push_bytes(out, b" wrong"),
        LoginResult::Refused(code) => push_numbered(alloc, out, b" refused ", u64::from(code)),
    }
}

fn push_right(out: &mut Vec<u8>, right: bool) -> Result<(), Memory>
    ensures { OnOk result (out.new.items ≡ out.old.items ++ texts.right_text right) }
{
    if right {
        push_bytes(out, b" right")
    } else {
        push_bytes(out, b" wrong")
    }
}

fn push_ask(alloc: Global, out: &mut Vec<u8>, key: &Key) -> Result<(), Memory>
    ensures { OnOk result (out.new.items ≡ out.old.items ++ texts.ask_text key.now) }
{
    push_bytes(out, b"ask ")?;
    push_key(alloc, out, key)
}

fn push_fall(
    alloc: Global,
    out: &mut Vec<u8>,
    request: u64,
    server: u32,
    why: Why,
) -> Result<(), Memory>
    ensures { OnOk result (out.new.items ≡ out.old.items ++ texts.fall_text request server why) }
{
    push_numbered_twice(alloc, out, b"fall ", request, u64::from(server))?;
    push_why(alloc, out, why)
}

fn push_answer(
    alloc: Global,
    out: &mut Vec<u8>,
    request: u64,
    answered: &Answered,
) -> Result<(), Memory>
    ensures { OnOk result (out.new.items ≡ out.old.items ++ texts.answer_text request answered.now) }
{
    push_numbered(alloc, out, b"answer ", request)?;
    push_answered(out, answered)
}

fn push_refuse(
    alloc: Global,
    out: &mut Vec<u8>,
    request: u64,
    refusal: Refusal,
) -> Result<(), Memory>
    ensures { OnOk result (out.new.items ≡ out.old.items ++ texts.refuse_text request refusal) }
{
    push_numbered(alloc, out, b"refuse ", request)?;
    push_refusal(alloc, out, refusal)
}

fn push_void(out: &mut Vec<u8>, what: &What) -> Result<(), Memory>
    ensures { OnOk result (out.new.items ≡ out.old.items ++ texts.void_text what.now) }
{
    push_bytes(out, b"void ")?;
    push_what(out, what)
}

fn push_online(
    alloc: Global,
    out: &mut Vec<u8>,
    attempt: u64,
    said: LoginResult,
) -> Result<(), Memory>
    ensures { OnOk result (out.new.items ≡ out.old.items ++ texts.online_text attempt said) }
{
    push_numbered(alloc, out, b"result ", attempt)?;
    push_result(alloc, out, said)
}

fn push_guess(
    alloc: Global,
    out: &mut Vec<u8>,
    user: &[u8],
    named: u64,
    right: bool,
) -> Result<(), Memory>
    ensures { OnOk result (out.new.items ≡ out.old.items ++ texts.guess_text user.now named right) }
{
    push_worded(out, b"guess ", user)?;
    push_bytes(out, b" ")?;
    push_number(alloc, out, named)?;
    push_right(out, right)
}

fn push_try(
    alloc: Global,
    out: &mut Vec<u8>,
    attempt: u64,
    named: u64,
    right: bool,
) -> Result<(), Memory>
    ensures { OnOk result (out.new.items ≡ out.old.items ++ texts.try_text attempt named right) }
{
    push_numbered_twice(alloc, out, b"try ", attempt, named)?;
    push_right(out, right)
}

fn push_check(out: &mut Vec<u8>, user: &[u8], service: &[u8]) -> Result<(), Memory>
    ensures { OnOk result (out.new.items ≡ out.old.items ++ texts.check_text user.now service.now) }
{
    push_worded(out, b"access ", user)?;
    push_bytes(out, b" ")?;
    push_field(out, service)
}

/// Appends the event of a login, an account check or an operator.
fn push_login_event(alloc: Global, out: &mut Vec<u8>, event: &Event) -> Result<(), Memory>
    ensures { OnOk result (out.new.items ≡ out.old.items ++ texts.login_event_text event.now) }
{
    match event {
        Event::LoginOpen(user) => push_worded(out, b"login ", user.bytes()),
        Event::LoginOnline(attempt, said) => push_online(alloc, out, *attempt, *said.value()),
        Event::LoginLook(user) => push_worded(out, b"look ", user.bytes()),
        Event::LoginGuess(user, named, right) => {
            push_guess(alloc, out, user.bytes(), *named, *right)
        }
        Event::LoginTry(attempt, named, right) => push_try(alloc, out, *attempt, *named, *right),
        Event::Access(user, service) => push_check(out, user.bytes(), service.bytes()),
        Event::Void(what) => push_void(out, what),
        Event::Offline => push_bytes(out, b"offline"),
        Event::Online => push_bytes(out, b"online"),
        Event::Stop => push_bytes(out, b"stop"),
        _ => Ok(()),
    }
}

/// Appends the text of an event.
pub fn push_event(alloc: Global, out: &mut Vec<u8>, event: &Event) -> Result<(), Memory>
    ensures { OnOk result (out.new.items ≡ out.old.items ++ texts.event_text event.now) }
{
    match event {
        Event::Ask(key) => push_ask(alloc, out, key),
        Event::Pick(request) => push_numbered(alloc, out, b"pick ", *request),
        Event::Fall(request, server, why) => push_fall(alloc, out, *request, *server, *why),
        Event::Answer(request, answered) => push_answer(alloc, out, *request, answered),
        Event::Refuse(request, refusal) => push_refuse(alloc, out, *request, *refusal),
        Event::Outage(request) => push_numbered(alloc, out, b"outage ", *request),
        Event::Abandon(request) => push_numbered(alloc, out, b"abandon ", *request),
        Event::Collect(ticket) => push_numbered(alloc, out, b"collect ", *ticket),
        Event::Leave(ticket) => push_numbered(alloc, out, b"leave ", *ticket),
        Event::Kept(_) => push_bytes(out, b"kept"),
        _ => push_login_event(alloc, out, event),
    }
}
