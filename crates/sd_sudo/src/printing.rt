//! What the tool prints.
ghost use Rattle.std.specs.Prelude.{◌≡◌, ◌++◌, IfOk, OnOk};
ghost use Rattle.std.specs.Fmt.{signed_decimal};
ghost use Rattle.std.specs.List.{flat_map};
ghost use Rattle.sd_sudo.specs.Printing as printing;

use sd_base::Memory;
use sd_ldap::Attribute;
use sd_roles::Role;
use sd_wire::fields::{push_bytes, push_field};
use std::alloc::Global;

/// Appends a line of an attribute's name and a value.
fn push_value(out: &mut Vec<u8>, name: &[u8], value: &[u8]) -> Result<(), Memory>
    ensures { OnOk result (out.new.items ≡ out.old.items ++ printing.value_line name.now value.now) }
{
    push_bytes(out, b" ")?;
    push_bytes(out, name)?;
    push_bytes(out, b" ")?;
    push_field(out, value)?;
    push_bytes(out, b"\n")
}

fn push_values(out: &mut Vec<u8>, attribute: &Attribute) -> Result<(), Memory>
    ensures { OnOk result (out.new.items ≡ out.old.items ++ printing.value_lines attribute.now) }
{
    for value in attribute.values.items() {
        push_value(out, attribute.name.bytes(), value.bytes())?;
    }
    Ok(())
}

/// Appends the line of a rule's order and name.
fn push_head(alloc: Global, out: &mut Vec<u8>, role: &Role) -> Result<(), Memory>
    ensures { OnOk result (out.new.items ≡ out.old.items ++ printing.head_line role.now) }
{
    let order = role.order.to_string(alloc)?;
    push_bytes(out, order.as_bytes())?;
    push_bytes(out, b" ")?;
    push_field(out, role.name.bytes())?;
    push_bytes(out, b"\n")
}

fn push_rule(alloc: Global, out: &mut Vec<u8>, role: &Role) -> Result<(), Memory>
    ensures { OnOk result (out.new.items ≡ out.old.items ++ printing.rule_lines role.now) }
{
    push_head(alloc, out, role)?;
    for attribute in role.handed.items() {
        push_values(out, attribute)?;
    }
    Ok(())
}

/// What is printed of rules: of each its order and name, and the values that are handed to sudo, unread.
pub fn printed(alloc: Global, roles: &[Role]) -> Result<Vec<u8>, Memory>
    ensures { IfOk result (λ output. output.items ≡ printing.lines_of roles.now) }
{
    let mut out = Vec::new(alloc);
    for role in roles {
        push_rule(alloc, &mut out, role)?;
    }
    Ok(out)
}
