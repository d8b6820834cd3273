// The lines of users, groups and the groups of a user.
ghost use Rattle.std.specs.Prelude.{◌≡◌, ◌++◌, OnOk, IfOk};
ghost use Rattle.sd_wire.specs.RecordLines as lines;
ghost use Rattle.sd_wire.specs.Forms as forms;

use crate::fields::{push_bytes, push_field, push_member_name, push_number};
use sd_base::{Memory, Text};
use sd_rules::{Group, GroupRef, Groups, Record, User};
use std::alloc::Global;

fn push_head(out: &mut Vec<u8>, name: &[u8], pwfield: &[u8]) -> Result<(), Memory>
    ensures ok { OnOk result (out.new.items ≡ out.old.items ++ lines.head name.now pwfield.now) }
    ensures kept { forms.Keeps out.old.items out.new.items }
{
    push_field(out, name)?;
    push_bytes(out, b":")?;
    push_field(out, pwfield)?;
    push_bytes(out, b":")
}

fn push_numbers_of_user(alloc: Global, out: &mut Vec<u8>, user: &User) -> Result<(), Memory>
    ensures ok { OnOk result (out.new.items ≡ out.old.items ++ lines.numbers_of_user user.now) }
    ensures kept { forms.Keeps out.old.items out.new.items }
{
    push_number(alloc, out, u64::from(user.uid))?;
    push_bytes(out, b":")?;
    push_number(alloc, out, u64::from(user.gid))?;
    push_bytes(out, b":")
}

fn push_texts_of_user(out: &mut Vec<u8>, user: &User) -> Result<(), Memory>
    ensures ok { OnOk result (out.new.items ≡ out.old.items ++ lines.texts_of_user user.now) }
    ensures kept { forms.Keeps out.old.items out.new.items }
{
    push_field(out, user.gecos.bytes())?;
    push_bytes(out, b":")?;
    push_field(out, user.home.bytes())?;
    push_bytes(out, b":")?;
    push_field(out, user.shell.bytes())
}

fn push_user(alloc: Global, out: &mut Vec<u8>, user: &User, pwfield: &[u8]) -> Result<(), Memory>
    ensures ok { OnOk result (out.new.items ≡ out.old.items ++ lines.line_of_user user.now pwfield.now) }
    ensures kept { forms.Keeps out.old.items out.new.items }
{
    push_head(out, user.name.bytes(), pwfield)?;
    push_numbers_of_user(alloc, out, user)?;
    push_texts_of_user(out, user)
}

fn push_more_members(out: &mut Vec<u8>, names: &[Text]) -> Result<(), Memory>
    ensures ok { OnOk result (out.new.items ≡ out.old.items ++ lines.more_members names.now) }
    ensures kept { forms.Keeps out.old.items out.new.items }
{
    for name in names {
        push_bytes(out, b",")?;
        push_member_name(out, name.bytes())?;
    }
    Ok(())
}

fn push_members(out: &mut Vec<u8>, names: &[Text]) -> Result<(), Memory>
    ensures ok { OnOk result (out.new.items ≡ out.old.items ++ lines.members names.now) }
    ensures kept { forms.Keeps out.old.items out.new.items }
{
    match names {
        [first, rest @ ..] => {
            push_member_name(out, first.bytes())?;
            push_more_members(out, rest)
        }
        [] => Ok(()),
    }
}

fn push_group(alloc: Global, out: &mut Vec<u8>, group: &Group, pwfield: &[u8]) -> Result<(), Memory>
    ensures ok { OnOk result (out.new.items ≡ out.old.items ++ lines.line_of_group group.now pwfield.now) }
    ensures kept { forms.Keeps out.old.items out.new.items }
{
    push_head(out, group.name.bytes(), pwfield)?;
    push_number(alloc, out, u64::from(group.gid))?;
    push_bytes(out, b":")?;
    push_members(out, group.members.items())
}

/// The numbers of groups that are there.
fn numbers_of(alloc: Global, groups: &[GroupRef]) -> Result<Vec<u32>, Memory>
    ensures { IfOk result (λ numbers. numbers.items ≡ lines.numbers_of groups.now) }
{
    let mut numbers = Vec::new(alloc);
    for group in groups {
        if let Some(gid) = group.gid {
            numbers.push(gid)?;
        }
    }
    Ok(numbers)
}

fn push_more_numbers(alloc: Global, out: &mut Vec<u8>, numbers: &[u32]) -> Result<(), Memory>
    ensures ok { OnOk result (out.new.items ≡ out.old.items ++ lines.more_numbers numbers.now) }
    ensures kept { forms.Keeps out.old.items out.new.items }
{
    for number in numbers {
        push_bytes(out, b",")?;
        push_number(alloc, out, u64::from(*number))?;
    }
    Ok(())
}

fn push_numbers(alloc: Global, out: &mut Vec<u8>, numbers: &[u32]) -> Result<(), Memory>
    ensures ok { OnOk result (out.new.items ≡ out.old.items ++ lines.numbers numbers.now) }
    ensures kept { forms.Keeps out.old.items out.new.items }
{
    match numbers {
        [first, rest @ ..] => {
            push_number(alloc, out, u64::from(*first))?;
            push_more_numbers(alloc, out, rest)
        }
        [] => Ok(()),
    }
}

fn push_groups(alloc: Global, out: &mut Vec<u8>, groups: &Groups) -> Result<(), Memory>
    ensures ok { OnOk result (out.new.items ≡ out.old.items ++ lines.line_of_groups groups.now) }
    ensures kept { forms.Keeps out.old.items out.new.items }
{
    let numbers = numbers_of(alloc, groups.groups.items())?;
    push_field(out, groups.user.bytes())?;
    push_bytes(out, b":")?;
    push_numbers(alloc, out, numbers.as_slice())
}

/// Appends the line of a record: of a user or a group, or of the groups of a user.
pub fn push_record(
    alloc: Global,
    out: &mut Vec<u8>,
    found: &Record,
    pwfield: &[u8],
) -> Result<(), Memory>
    ensures ok { OnOk result (out.new.items ≡ out.old.items ++ lines.line_of_record found.now pwfield.now) }
    ensures kept { forms.Keeps out.old.items out.new.items }
{
    match found {
        Record::User(user) => push_user(alloc, out, user, pwfield),
        Record::Group(group) => push_group(alloc, out, group, pwfield),
        Record::Groups(groups) => push_groups(alloc, out, groups),
        _ => Ok(()),
    }
}
