// Lines that put users and groups.
ghost use Rattle.std.specs.Prelude.{◌≡◌, ℕ, map, IfOk, Some};
ghost use Rattle.std.specs.Option.{option_map};
ghost use Rattle.sd_lines.specs.Accounts as accounts;
ghost use Rattle.sd_lines.specs.Words as words;

use crate::lines::{GroupLine, Line, Member, Members, UserLine};
use crate::words::{id_of, is_short_name, is_word, tag_of, three_of, two_of};
use sd_base::{Memory, Text};
use std::alloc::Global;

/// The password of the words behind a user's numbers, where these words have a form.
fn password_of(alloc: Global, ws: &[&[u8]]) -> Result<Option<Option<Text>>, Memory>
    ensures { IfOk result (λ password. password ≡ accounts.password_of (map (λ w. w.now) ws.now)) }
{
    match ws {
        [] => Ok(Some(None)),
        [word] => {
            if is_word(word) {
                Ok(Some(Some(Text::from_bytes(alloc, word)?)))
            } else {
                Ok(None)
            }
        }
        _ => Ok(None),
    }
}

fn user_with(
    alloc: Global,
    name: &[u8],
    uid: u32,
    gid: u32,
    password: Option<Option<Text>>,
) -> Result<Line, Memory>
    ensures { IfOk result (λ line. line ≡ accounts.user_with name.now uid gid password) }
{
    let Some(password) = password else {
        return Ok(Line::Bad);
    };
    if !is_short_name(name) {
        return Ok(Line::Bad);
    }
    let name = Text::from_bytes(alloc, name)?;
    Ok(Line::User(UserLine {
        name,
        uid,
        gid,
        password,
    }))
}

fn user_line(
    alloc: Global,
    name: &[u8],
    uid: Option<u32>,
    gid: Option<u32>,
    rest: &[&[u8]],
) -> Result<Line, Memory>
    ensures { IfOk result (λ line. line ≡ accounts.user_line name.now uid gid (map (λ w. w.now) rest.now)) }
{
    let (Some(uid), Some(gid)) = (uid, gid) else {
        return Ok(Line::Bad);
    };
    user_with(alloc, name, uid, gid, password_of(alloc, rest)?)
}

/// `user NAME UID GID [PASSWORD]`, of the words behind the first.
pub fn user_form(alloc: Global, ws: &[&[u8]]) -> Result<Line, Memory>
    ensures { IfOk result (λ line. line ≡ accounts.user_by_words (words.three_of (map (λ w. w.now) ws.now))) }
{
    match three_of(ws) {
        Some((name, uid, gid, rest)) => user_line(alloc, name, id_of(uid), id_of(gid), rest),
        None => Ok(Line::Bad),
    }
}

fn member_named(alloc: Global, letter: u8, name: &[u8]) -> Result<Option<Member>, Memory>
    ensures { IfOk result (λ member. member ≡ accounts.member_by_tag (Some (letter, name.now))) }
{
    if !is_short_name(name) {
        return Ok(None);
    }
    if letter == b'u' {
        return Ok(Some(Member::User(Text::from_bytes(alloc, name)?)));
    }
    if letter == b'g' {
        return Ok(Some(Member::Group(Text::from_bytes(alloc, name)?)));
    }
    Ok(None)
}

fn member_of(alloc: Global, word: &[u8]) -> Result<Option<Member>, Memory>
    ensures { IfOk result (λ member. member ≡ accounts.member_of word.now) }
{
    match tag_of(word) {
        Some((letter, name)) => member_named(alloc, letter, name),
        None => Ok(None),
    }
}

/// The members of all words, where each is one.
#[tactic(auto, using(crate::proofs::Collecting::collecting))]
fn members_of(alloc: Global, ws: &[&[u8]]) -> Result<Option<Members>, Memory>
    ensures { IfOk result (λ members. members ≡ accounts.members_of (map (λ w. w.now) ws.now)) }
{
    let mut members = Members::new(alloc);
    for word in ws {
        let Some(member) = member_of(alloc, word)? else {
            return Ok(None);
        };
        members.push(member)?;
    }
    Ok(Some(members))
}

fn group_with(
    alloc: Global,
    name: &[u8],
    gid: u32,
    members: Option<Members>,
) -> Result<Line, Memory>
    ensures { IfOk result (λ line. line ≡ accounts.group_with name.now gid members) }
{
    let Some(members) = members else {
        return Ok(Line::Bad);
    };
    if !is_short_name(name) {
        return Ok(Line::Bad);
    }
    let name = Text::from_bytes(alloc, name)?;
    Ok(Line::Group(GroupLine { name, gid, members }))
}

fn group_line(alloc: Global, name: &[u8], gid: Option<u32>, ws: &[&[u8]]) -> Result<Line, Memory>
    ensures { IfOk result (λ line. line ≡ accounts.group_line name.now gid (map (λ w. w.now) ws.now)) }
{
    match gid {
        Some(gid) => group_with(alloc, name, gid, members_of(alloc, ws)?),
        None => Ok(Line::Bad),
    }
}

/// `group NAME GID MEMBER...`, of the words behind the first.
pub fn group_form(alloc: Global, ws: &[&[u8]]) -> Result<Line, Memory>
    ensures { IfOk result (λ line. line ≡ accounts.group_by_words (words.two_of (map (λ w. w.now) ws.now))) }
{
    match two_of(ws) {
        Some((name, gid, rest)) => group_line(alloc, name, id_of(gid), rest),
        None => Ok(Line::Bad),
    }
}
