//! Binds.
ghost use Rattle.std.specs.Prelude.{◌≡◌, ◌+◌, ◌≤◌, ◌⊎◌, length, IfSome, None};
ghost use Rattle.sd_base.specs.Causes.{Rose};
ghost use Rattle.sd_client.specs.Talk.{bind_message, IsUnbound, IsPlacedByBind, failure_by_bind};
ghost use Rattle.sd_client.specs.Calls.{AsksNothing, Asks, IsBindReply};
ghost use Rattle.sd_asking.specs.Settled.{IsSettledOver, OverTold, LinkFails, SettlesAgain};
ghost use Rattle.sd_asking.specs.Binding.{told_bind, IsToldBind, HasReply, IsBoundByAnswer, BindGoesOn, BindEnds};

use sd_base::{Text, Why};
use sd_client::Client;
use sd_dial::DirectoryLink;
use sd_rules::Bound;

/// Binds as the client does. Where the link tells the directory behind it, the code and each failure but the
/// link's own are those told.
pub fn bind<L: DirectoryLink>(client: &mut Client<L>, dn: &Text, password: &Text) -> Bound
    ensures again { IfSome client.old.failed (λ why. (result ≡ Bound.Failed why) × (client.new ≡ client.old)) }
    ensures used { (client.new.next ≡ client.old.next) ⊎ (client.new.next ≡ client.old.next + 1) }
    ensures unsent { client.new.next ≡ client.old.next → AsksNothing L.DirectoryLink client.old client.new }
    ensures no_reply { client.old.failed ≡ None → client.new.next ≡ client.old.next → IsUnbound result (Rose (L.faults client.old.link) (L.faults client.new.link) × L.refuses client.new.link) }
    ensures sent { client.new.next ≡ client.old.next + 1 → Asks L.DirectoryLink (bind_message client.old.next dn.now password.now) client.old client.new }
    ensures reply { client.new.next ≡ client.old.next + 1 → IsBindReply L.DirectoryLink client.old result client.new }
    ensures fails { client.old.failed ≡ None → client.new.failed ≡ failure_by_bind result }
    ensures placed { client.old.failed ≡ None → IsPlacedByBind result client.old.at client.new.at }
    ensures within { client.new.at ≤ length client.new.received }
    ensures short { length client.new.received ≤ 67108865 }
    ensures counted { client.new.next ≤ 2147483647 }
    ensures behind { L.behind client.new.link ≡ L.behind client.old.link }
    ensures later { L.faults client.old.link ≤ L.faults client.new.link }
    // A failure of the link has its cause, before the request was sent or behind it.
    ensures cause { client.old.failed ≡ None → result ≡ Bound.Failed Why.Link → LinkFails L.DirectoryLink client.old client.new }
    // A link that tells the bytes to come: the bytes that answer the request decide.
    ensures answered { IsSettledOver L.DirectoryLink client.old → client.new.next ≡ client.old.next + 1 → IsBoundByAnswer L.DirectoryLink client.old dn.now password.now result client.new }
    // Where all these bytes are the reply, the client is settled again.
    ensures settles { IsSettledOver L.DirectoryLink client.old → HasReply result → SettlesAgain L.DirectoryLink (bind_message client.old.next dn.now password.now) client.old client.new }
    // A link that tells the directory behind it: its entries decide.
    ensures told { OverTold L.DirectoryLink client.old (λ behind. IsToldBind result (told_bind behind (length client.old.received) client.old.next dn.now password.now)) }
    ensures goes_on { BindGoesOn L.DirectoryLink client.old dn.now password.now result client.new }
    ensures ends { BindEnds L.DirectoryLink client.old dn.now password.now result client.new }
{
    client.bind(dn, password)
}
