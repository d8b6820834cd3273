//! What the tools print.
ghost use Rattle.std.specs.Prelude.{◌≡◌, ◌++◌, IfOk, OnOk};
ghost use Rattle.std.specs.List.{flat_map};
ghost use Rattle.std.specs.Option.{option_copied};
ghost use Rattle.sd_netgroup.specs.Printing as printing;

use crate::words::Member;
use sd_base::Memory;
use sd_triples::{Triple, Triples, in_netgroup};
use sd_wire::fields::{push_bytes, push_field};
use std::alloc::Global;

/// Appends a field and what stands behind it.
fn push_ended(out: &mut Vec<u8>, field: &[u8], ending: &[u8]) -> Result<(), Memory>
    ensures { OnOk result (out.new.items ≡ out.old.items ++ printing.ended field.now ending.now) }
{
    push_field(out, field)?;
    push_bytes(out, ending)
}

fn push_triple(out: &mut Vec<u8>, triple: &Triple) -> Result<(), Memory>
    ensures { OnOk result (out.new.items ≡ out.old.items ++ printing.line_of triple.now) }
{
    push_bytes(out, b"(")?;
    push_ended(out, triple.host.bytes(), b",")?;
    push_ended(out, triple.user.bytes(), b",")?;
    push_ended(out, triple.domain.bytes(), b")\n")
}

fn push_triples(out: &mut Vec<u8>, triples: &[Triple]) -> Result<(), Memory>
    ensures { OnOk result (out.new.items ≡ out.old.items ++ printing.lines_of triples.now) }
{
    for triple in triples {
        push_triple(out, triple)?;
    }
    Ok(())
}

fn push_answer(out: &mut Vec<u8>, answer: bool) -> Result<(), Memory>
    ensures { OnOk result (out.new.items ≡ out.old.items ++ printing.answer_of answer) }
{
    if answer {
        push_bytes(out, b"yes\n")
    } else {
        push_bytes(out, b"no\n")
    }
}

fn has_member(triples: &Triples, member: &Member) -> bool
    ensures { result ≡ printing.has_member triples.now member.now }
{
    in_netgroup(
        triples,
        member.host.as_ref(),
        member.user.as_ref(),
        member.domain.as_ref(),
    )
}

/// What is printed of the triples of a netgroup: a line each, or whether a member is in it.
pub fn printed(alloc: Global, triples: &Triples, member: &Option<Member>) -> Result<Vec<u8>, Memory>
    ensures { IfOk result (λ output. output.items ≡ printing.printed triples.now member.now) }
{
    let mut out = Vec::new(alloc);
    match member {
        Some(member) => push_answer(&mut out, has_member(triples, member))?,
        None => push_triples(&mut out, triples.items())?,
    }
    Ok(out)
}
