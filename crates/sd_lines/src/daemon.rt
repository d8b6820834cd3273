// Lines of the moment, of servers, and of what happens to the daemon at once.
ghost use Rattle.std.specs.Prelude.{◌≡◌, ℕ, map, IfOk};
ghost use Rattle.sd_pieces.specs.Digits.{number_up_to};
ghost use Rattle.sd_lines.specs.Daemon as daemon;
ghost use Rattle.sd_lines.specs.Words as words;

use crate::lines::Line;
use crate::words::{first_of, id_of, is_word, one_of};
use sd_base::{Memory, Text};
use sd_pieces::number_up_to;
use sd_rules::What;
use sd_stub::Mode;
use std::alloc::Global;

/// `at T`, of the words behind the first.
pub fn at_form(ws: &[&[u8]]) -> Line
    ensures { result ≡ daemon.at_moment (words.one_of (map (λ w. w.now) ws.now)) }
{
    let Some(moment) = one_of(ws) else {
        return Line::Bad;
    };
    match number_up_to(u64::MAX, moment) {
        Some(moment) => Line::At(moment),
        None => Line::Bad,
    }
}

fn plain_mode(word: &[u8]) -> Option<Mode>
    ensures { result ≡ daemon.plain_mode word.now }
{
    if word == b"up".as_slice() {
        return Some(Mode::Up);
    }
    if word == b"down".as_slice() {
        return Some(Mode::Down);
    }
    if word == b"cut".as_slice() {
        return Some(Mode::Cut);
    }
    if word == b"indef".as_slice() {
        return Some(Mode::Indef);
    }
    if word == b"long".as_slice() {
        return Some(Mode::Long);
    }
    None
}

/// `code C`, of the word behind the first.
fn code_mode(code: &[u8]) -> Option<Mode>
    ensures { result ≡ daemon.code_mode (number_up_to 90 code.now) }
{
    let code = number_up_to(90, code)?;
    if 1 <= code {
        Some(Mode::Code(code as u32))
    } else {
        None
    }
}

fn mode_of(ws: &[&[u8]]) -> Option<Mode>
    ensures { result ≡ daemon.mode_of (map (λ w. w.now) ws.now) }
{
    match ws {
        [word] => plain_mode(word),
        [word, code] => {
            if *word == b"code".as_slice() {
                code_mode(code)
            } else {
                None
            }
        }
        _ => None,
    }
}

fn server_line(server: Option<u32>, mode: Option<Mode>) -> Line
    ensures { result ≡ daemon.server_line server mode }
{
    match (server, mode) {
        (Some(server), Some(mode)) => Line::Server(server, mode),
        _ => Line::Bad,
    }
}

/// `server I MODE`, of the words behind the first.
pub fn server_form(ws: &[&[u8]]) -> Line
    ensures { result ≡ daemon.server_by_words (words.first_of (map (λ w. w.now) ws.now)) }
{
    match first_of(ws) {
        Some((server, mode)) => server_line(id_of(server), mode_of(mode)),
        None => Line::Bad,
    }
}

fn void_of_all(kind: &[u8]) -> Line
    ensures { result ≡ daemon.void_of_all kind.now }
{
    if kind == b"all".as_slice() {
        return Line::Void(What::All);
    }
    if kind == b"users".as_slice() {
        return Line::Void(What::Users);
    }
    if kind == b"groups".as_slice() {
        return Line::Void(What::Groups);
    }
    Line::Bad
}

fn void_of_named(alloc: Global, kind: &[u8], name: &[u8]) -> Result<Line, Memory>
    ensures { IfOk result (λ line. line ≡ daemon.void_of_named kind.now name.now) }
{
    if kind == b"user".as_slice() {
        let name = Text::from_bytes(alloc, name)?;
        return Ok(Line::Void(What::User(name)));
    }
    if kind == b"group".as_slice() {
        let name = Text::from_bytes(alloc, name)?;
        return Ok(Line::Void(What::Group(name)));
    }
    Ok(Line::Bad)
}

fn void_of_one(alloc: Global, kind: &[u8], name: &[u8]) -> Result<Line, Memory>
    ensures { IfOk result (λ line. line ≡ daemon.void_of_one kind.now name.now) }
{
    if is_word(name) {
        void_of_named(alloc, kind, name)
    } else {
        Ok(Line::Bad)
    }
}

/// `void` and what is invalidated, of the words behind the first.
pub fn void_form(alloc: Global, ws: &[&[u8]]) -> Result<Line, Memory>
    ensures { IfOk result (λ line. line ≡ daemon.void_form (map (λ w. w.now) ws.now)) }
{
    match ws {
        [kind] => Ok(void_of_all(kind)),
        [kind, name] => void_of_one(alloc, kind, name),
        _ => Ok(Line::Bad),
    }
}
