//! What the words of the tools ask.
ghost use Rattle.std.specs.Prelude.{◌≡◌, map, string_bytes, IfOk};
ghost use Rattle.sd_netgroup.specs.Words as forms;

use sd_base::{Memory, Text};
use std::alloc::Global;

/// Who may be in a netgroup. A field that is None is not asked for.
pub struct Member {
    pub host: Option<Text>,
    pub user: Option<Text>,
    pub domain: Option<Text>,
}

impl Drop for Member {
    fn drop(self) {
        let Member {
            host: _,
            user: _,
            domain: _,
        } = self;
    }
}

/// What is asked of the netgroup of a name: its triples, or whether a member is in it.
pub struct Question {
    pub name: Text,
    pub member: Option<Member>,
}

impl Drop for Question {
    fn drop(self) {
        let Question { name: _, member: _ } = self;
    }
}

fn field_of(alloc: Global, word: &[u8]) -> Result<Option<Text>, Memory>
    ensures { IfOk result (λ field. field ≡ forms.field_of word.now) }
{
    if word == b"*".as_slice() {
        return Ok(None);
    }
    Ok(Some(Text::from_bytes(alloc, word)?))
}

fn triples_about(alloc: Global, tool: &[u8], name: &[u8]) -> Result<Option<Question>, Memory>
    ensures { IfOk result (λ question. question ≡ forms.about_where tool.now name.now) }
{
    if tool != b"netgroup".as_slice() {
        return Ok(None);
    }
    Ok(Some(Question {
        name: Text::from_bytes(alloc, name)?,
        member: None,
    }))
}

fn member_of(alloc: Global, host: &[u8], user: &[u8], domain: &[u8]) -> Result<Member, Memory>
    ensures { IfOk result (λ member. member ≡ forms.member_of host.now user.now domain.now) }
{
    Ok(Member {
        host: field_of(alloc, host)?,
        user: field_of(alloc, user)?,
        domain: field_of(alloc, domain)?,
    })
}

fn about_member(
    alloc: Global,
    tool: &[u8],
    name: &[u8],
    fields: (&[u8], &[u8], &[u8]),
) -> Result<Option<Question>, Memory>
    ensures { IfOk result (λ question. question ≡ forms.about_member_where tool.now name.now fields.entry.0.now fields.entry.1.now fields.entry.2.now) }
{
    if tool != b"innetgr".as_slice() {
        return Ok(None);
    }
    let (host, user, domain) = fields;
    Ok(Some(Question {
        name: Text::from_bytes(alloc, name)?,
        member: Some(member_of(alloc, host, user, domain)?),
    }))
}

/// What words ask, where they have a form: `netgroup CONF LDIF NAME`, or `innetgr CONF LDIF NAME HOST USER DOMAIN`,
/// where `*` asks nothing of a field.
pub fn question_of(alloc: Global, words: &[String]) -> Result<Option<Question>, Memory>
    ensures { IfOk result (λ question. question ≡ forms.question_of (map string_bytes words.now)) }
{
    match words {
        [tool, _conf, _ldif, name] => triples_about(alloc, tool.as_bytes(), name.as_bytes()),
        [tool, _conf, _ldif, name, host, user, domain] => about_member(
            alloc,
            tool.as_bytes(),
            name.as_bytes(),
            (host.as_bytes(), user.as_bytes(), domain.as_bytes()),
        ),
        _ => Ok(None),
    }
}
