// The form of a line, by its words.
ghost use Rattle.std.specs.Prelude.{◌≡◌, ℕ, map, IfOk};
ghost use Rattle.sd_lines.specs.Lines as lines;

use crate::access::{host_form, remove_form, rule_form, service_form};
use crate::accounts::{group_form, user_form};
use crate::daemon::{at_form, server_form, void_form};
use crate::lines::Line;
use crate::tasks::{
    abandon_form, access_form, getgid_form, getgroup_form, getuid_form, getuser_form,
    groupsof_form, login_form, step_form,
};
use crate::words::words_of;
use sd_base::Memory;
use std::alloc::Global;

/// A line of one word.
fn bare(line: Line, ws: &[&[u8]]) -> Line
    ensures { result ≡ lines.bare line (map (λ w. w.now) ws.now) }
{
    match ws {
        [] => line,
        _ => Line::Bad,
    }
}

/// A line that puts an entry into the directory, or takes one out.
fn entry_form(alloc: Global, first: &[u8], ws: &[&[u8]]) -> Result<Line, Memory>
    ensures { IfOk result (λ line. line ≡ lines.entry_form first.now (map (λ w. w.now) ws.now)) }
{
    if first == b"user".as_slice() {
        return user_form(alloc, ws);
    }
    if first == b"group".as_slice() {
        return group_form(alloc, ws);
    }
    if first == b"host".as_slice() {
        return host_form(alloc, ws);
    }
    if first == b"service".as_slice() {
        return service_form(alloc, ws);
    }
    if first == b"rule".as_slice() {
        return rule_form(alloc, ws);
    }
    if first == b"remove".as_slice() {
        return remove_form(alloc, ws);
    }
    Ok(Line::Bad)
}

/// A line of what happens to the daemon at once, to its servers and to the moment, or a line of an entry.
fn event_form(alloc: Global, first: &[u8], ws: &[&[u8]]) -> Result<Line, Memory>
    ensures { IfOk result (λ line. line ≡ lines.event_form first.now (map (λ w. w.now) ws.now)) }
{
    if first == b"void".as_slice() {
        return void_form(alloc, ws);
    }
    if first == b"offline".as_slice() {
        return Ok(bare(Line::Offline, ws));
    }
    if first == b"online".as_slice() {
        return Ok(bare(Line::Online, ws));
    }
    if first == b"forget".as_slice() {
        return Ok(bare(Line::Forget, ws));
    }
    if first == b"journal".as_slice() {
        return Ok(bare(Line::Journal, ws));
    }
    if first == b"at".as_slice() {
        return Ok(at_form(ws));
    }
    if first == b"server".as_slice() {
        return Ok(server_form(ws));
    }
    entry_form(alloc, first, ws)
}

/// A line of how the tasks that were held go on, or a line of another kind.
fn held_form(alloc: Global, first: &[u8], ws: &[&[u8]]) -> Result<Line, Memory>
    ensures { IfOk result (λ line. line ≡ lines.held_form first.now (map (λ w. w.now) ws.now)) }
{
    if first == b"hold".as_slice() {
        return Ok(bare(Line::Hold, ws));
    }
    if first == b"go".as_slice() {
        return Ok(bare(Line::Go, ws));
    }
    if first == b"step".as_slice() {
        return Ok(step_form(ws));
    }
    if first == b"abandon".as_slice() {
        return Ok(abandon_form(ws));
    }
    event_form(alloc, first, ws)
}

/// A line that makes a task, or a line of another kind.
fn task_form(alloc: Global, first: &[u8], ws: &[&[u8]]) -> Result<Line, Memory>
    ensures { IfOk result (λ line. line ≡ lines.task_form first.now (map (λ w. w.now) ws.now)) }
{
    if first == b"getuser".as_slice() {
        return getuser_form(alloc, ws);
    }
    if first == b"getuid".as_slice() {
        return Ok(getuid_form(ws));
    }
    if first == b"getgroup".as_slice() {
        return getgroup_form(alloc, ws);
    }
    if first == b"getgid".as_slice() {
        return Ok(getgid_form(ws));
    }
    if first == b"groupsof".as_slice() {
        return groupsof_form(alloc, ws);
    }
    if first == b"login".as_slice() {
        return login_form(alloc, ws);
    }
    if first == b"access".as_slice() {
        return access_form(alloc, ws);
    }
    held_form(alloc, first, ws)
}

fn form_of(alloc: Global, ws: &[&[u8]]) -> Result<Line, Memory>
    ensures { IfOk result (λ line. line ≡ lines.form_of (map (λ w. w.now) ws.now)) }
{
    match ws {
        [] => Ok(Line::Blank),
        [first, rest @ ..] => task_form(alloc, first, rest),
    }
}

/// Whether a line is a comment: its very first byte is a hash sign.
pub fn is_comment(line: &[u8]) -> bool
    ensures { result ≡ lines.is_comment line.now }
{
    match line {
        [] => false,
        [first, ..] => *first == b'#',
    }
}

/// The form of a line.
pub fn line_of(alloc: Global, line: &[u8]) -> Result<Line, Memory>
    ensures { IfOk result (λ form. form ≡ lines.line_of line.now) }
{
    if is_comment(line) {
        return Ok(Line::Blank);
    }
    let ws = words_of(alloc, line)?;
    form_of(alloc, ws.as_slice())
}
