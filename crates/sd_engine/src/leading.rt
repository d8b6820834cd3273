//! What a session leads, and the ticket that it waits with.
ghost use Rattle.std.specs.Prelude.{◌≡◌, ◌<◌, OnOk, vec_len, vec_capacity};
ghost use Rattle.sd_engine.specs.Leading as leading;

use sd_base::Memory;
use sd_rules::leading::{opened, take_out};
use sd_rules::{Reply, Verdict};

fn is_closing(reply: Reply) -> bool
    ensures { result ≡ leading.is_closing reply }
{
    matches!(
        reply,
        Reply::Closed | Reply::Shut(_) | Reply::Tried(Verdict::Accepted) | Reply::NoRequest
    )
}

/// Makes room for one more.
pub fn make_room(numbers: &mut Vec<u64>) -> Result<(), Memory>
    ensures same { numbers.new.items ≡ numbers.old.items }
    ensures room { OnOk result (vec_len numbers.new < vec_capacity numbers.new) }
    ensures keeps { vec_len numbers.old < vec_capacity numbers.old → vec_len numbers.new < vec_capacity numbers.new }
{
    numbers.reserve(1)?;
    Ok(())
}

fn put_in(numbers: &mut Vec<u64>, number: Option<u64>)
    requires { vec_len numbers.old < vec_capacity numbers.old }
    ensures { numbers.new.items ≡ leading.with_one numbers.old.items number }
{
    if let Some(number) = number {
        // There is room for it.
        let _ = numbers.push(number);
    }
}

/// Updates what is led by the reply to an event about this number, where there is room for one more.
pub fn update_leads(leads: &mut Vec<u64>, number: Option<u64>, reply: Reply)
    requires { vec_len leads.old < vec_capacity leads.old }
    ensures { leads.new.items ≡ leading.leads_after leads.old.items number reply }
{
    if is_closing(reply) {
        take_out(leads, number);
        return;
    }
    put_in(leads, opened(reply));
}

/// The ticket that is waited with after a reply.
pub fn ticket_after(waiting: Option<u64>, reply: Reply) -> Option<u64>
    ensures { result ≡ leading.ticket_after waiting reply }
{
    match reply {
        Reply::Join(_, ticket) => Some(ticket),
        Reply::Took(_) | Reply::NoTicket => None,
        _ => waiting,
    }
}
