// Lines that make tasks, and lines of how these go on.
ghost use Rattle.std.specs.Prelude.{◌≡◌, ℕ, [], map, IfOk};
ghost use Rattle.sd_lines.specs.Tasks as tasks;
ghost use Rattle.sd_lines.specs.Words as words;

use crate::lines::Line;
use crate::words::{id_of, is_word, one_of, pair_of};
use sd_base::{Memory, Text};
use sd_pieces::number_up_to;
use std::alloc::Global;

/// `getuser WORD`, of the words behind the first.
pub fn getuser_form(alloc: Global, ws: &[&[u8]]) -> Result<Line, Memory>
    ensures { IfOk result (λ line. line ≡ tasks.getuser_by_word (words.one_of (map (λ w. w.now) ws.now))) }
{
    let Some(name) = one_of(ws) else {
        return Ok(Line::Bad);
    };
    if !is_word(name) {
        return Ok(Line::Bad);
    }
    Ok(Line::GetUser(Text::from_bytes(alloc, name)?))
}

/// `getuid N`, of the words behind the first.
pub fn getuid_form(ws: &[&[u8]]) -> Line
    ensures { result ≡ tasks.getuid_by_word (words.one_of (map (λ w. w.now) ws.now)) }
{
    let Some(uid) = one_of(ws) else {
        return Line::Bad;
    };
    match id_of(uid) {
        Some(uid) => Line::GetUid(uid),
        None => Line::Bad,
    }
}

/// `getgroup WORD`, of the words behind the first.
pub fn getgroup_form(alloc: Global, ws: &[&[u8]]) -> Result<Line, Memory>
    ensures { IfOk result (λ line. line ≡ tasks.getgroup_by_word (words.one_of (map (λ w. w.now) ws.now))) }
{
    let Some(name) = one_of(ws) else {
        return Ok(Line::Bad);
    };
    if !is_word(name) {
        return Ok(Line::Bad);
    }
    Ok(Line::GetGroup(Text::from_bytes(alloc, name)?))
}

/// `getgid N`, of the words behind the first.
pub fn getgid_form(ws: &[&[u8]]) -> Line
    ensures { result ≡ tasks.getgid_by_word (words.one_of (map (λ w. w.now) ws.now)) }
{
    let Some(gid) = one_of(ws) else {
        return Line::Bad;
    };
    match id_of(gid) {
        Some(gid) => Line::GetGid(gid),
        None => Line::Bad,
    }
}

/// `groupsof WORD`, of the words behind the first.
pub fn groupsof_form(alloc: Global, ws: &[&[u8]]) -> Result<Line, Memory>
    ensures { IfOk result (λ line. line ≡ tasks.groupsof_by_word (words.one_of (map (λ w. w.now) ws.now))) }
{
    let Some(name) = one_of(ws) else {
        return Ok(Line::Bad);
    };
    if !is_word(name) {
        return Ok(Line::Bad);
    }
    Ok(Line::GroupsOf(Text::from_bytes(alloc, name)?))
}

fn login_line(alloc: Global, user: &[u8], password: &[u8]) -> Result<Line, Memory>
    ensures { IfOk result (λ line. line ≡ tasks.login_line user.now password.now) }
{
    if !is_word(user) {
        return Ok(Line::Bad);
    }
    let user = Text::from_bytes(alloc, user)?;
    let password = Text::from_bytes(alloc, password)?;
    Ok(Line::Login(user, password))
}

fn login_with(alloc: Global, user: &[u8], password: &[u8]) -> Result<Line, Memory>
    ensures { IfOk result (λ line. line ≡ tasks.login_with user.now password.now) }
{
    if is_word(password) {
        login_line(alloc, user, password)
    } else {
        Ok(Line::Bad)
    }
}

/// `login WORD [WORD]`, of the words behind the first.
pub fn login_form(alloc: Global, ws: &[&[u8]]) -> Result<Line, Memory>
    ensures { IfOk result (λ line. line ≡ tasks.login_form (map (λ w. w.now) ws.now)) }
{
    match ws {
        [user] => login_line(alloc, user, b""),
        [user, password] => login_with(alloc, user, password),
        _ => Ok(Line::Bad),
    }
}

fn access_line(alloc: Global, user: &[u8], service: &[u8]) -> Result<Line, Memory>
    ensures { IfOk result (λ line. line ≡ tasks.access_line user.now service.now) }
{
    if !is_word(user) {
        return Ok(Line::Bad);
    }
    if !is_word(service) {
        return Ok(Line::Bad);
    }
    let user = Text::from_bytes(alloc, user)?;
    let service = Text::from_bytes(alloc, service)?;
    Ok(Line::Access(user, service))
}

/// `access WORD WORD`, of the words behind the first.
pub fn access_form(alloc: Global, ws: &[&[u8]]) -> Result<Line, Memory>
    ensures { IfOk result (λ line. line ≡ tasks.access_by_words (words.pair_of (map (λ w. w.now) ws.now))) }
{
    match pair_of(ws) {
        Some((user, service)) => access_line(alloc, user, service),
        None => Ok(Line::Bad),
    }
}

fn step_line(task: Option<u64>, count: Option<u64>) -> Line
    ensures { result ≡ tasks.step_line task count }
{
    match (task, count) {
        (Some(task), Some(count)) => Line::Step(task, count),
        _ => Line::Bad,
    }
}

/// `step K [N]`, of the words behind the first.
pub fn step_form(ws: &[&[u8]]) -> Line
    ensures { result ≡ tasks.step_form (map (λ w. w.now) ws.now) }
{
    match ws {
        [task] => step_line(number_up_to(u64::MAX, task), Some(1)),
        [task, count] => step_line(number_up_to(u64::MAX, task), number_up_to(1000, count)),
        _ => Line::Bad,
    }
}

/// `abandon K`, of the words behind the first.
pub fn abandon_form(ws: &[&[u8]]) -> Line
    ensures { result ≡ tasks.abandon_by_word (words.one_of (map (λ w. w.now) ws.now)) }
{
    let Some(task) = one_of(ws) else {
        return Line::Bad;
    };
    match number_up_to(u64::MAX, task) {
        Some(task) => Line::Abandon(task),
        None => Line::Bad,
    }
}
