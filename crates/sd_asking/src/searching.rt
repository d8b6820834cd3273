//! Searches.
ghost use Rattle.std.specs.Prelude.{◌≡◌, ◌+◌, ◌≤◌, ◌⊎◌, length, IfSome, None};
ghost use Rattle.sd_base.specs.Causes.{Rose};
ghost use Rattle.sd_ldap.specs.Values.{search_value};
ghost use Rattle.sd_ldap.specs.Sound.{IsSoundSearch};
ghost use Rattle.sd_client.specs.Talk.{search_message, IsUnsearched, IsPlacedBySearch, failure_by_search};
ghost use Rattle.sd_client.specs.Calls.{AsksNothing, Asks, IsSearchReply};
ghost use Rattle.sd_asking.specs.Settled.{IsSettledOver, OverTold, LinkFails, SettlesAgain};
ghost use Rattle.sd_asking.specs.Searching.{told_search, IsToldSearch, HasReply, IsSearchedByAnswer, SearchGoesOn, SearchEnds};

use sd_base::Why;
use sd_client::Client;
use sd_dial::{DirectoryLink, Searched};
use sd_ldap::SearchRequest;

/// Searches as the client does. Where the link tells the directory behind it, the entries, the code and each
/// failure but the link's own are those told.
pub fn search<L: DirectoryLink>(client: &mut Client<L>, request: &SearchRequest) -> Searched
    requires { IsSoundSearch (search_value request.now) }
    ensures again { IfSome client.old.failed (λ why. (result ≡ Searched.Failed why) × (client.new ≡ client.old)) }
    ensures used { (client.new.next ≡ client.old.next) ⊎ (client.new.next ≡ client.old.next + 1) }
    ensures unsent { client.new.next ≡ client.old.next → AsksNothing L.DirectoryLink client.old client.new }
    ensures no_reply { client.old.failed ≡ None → client.new.next ≡ client.old.next → IsUnsearched result (Rose (L.faults client.old.link) (L.faults client.new.link) × L.refuses client.new.link) }
    ensures sent { client.new.next ≡ client.old.next + 1 → Asks L.DirectoryLink (search_message client.old.next (search_value request.now)) client.old client.new }
    ensures reply { client.new.next ≡ client.old.next + 1 → IsSearchReply L.DirectoryLink client.old result client.new }
    ensures fails { client.old.failed ≡ None → client.new.failed ≡ failure_by_search result }
    ensures placed { client.old.failed ≡ None → IsPlacedBySearch result client.old.at client.new.at }
    ensures within { client.new.at ≤ length client.new.received }
    ensures short { length client.new.received ≤ 67108865 }
    ensures counted { client.new.next ≤ 2147483647 }
    ensures behind { L.behind client.new.link ≡ L.behind client.old.link }
    ensures later { L.faults client.old.link ≤ L.faults client.new.link }
    // A failure of the link has its cause, before the request was sent or behind it.
    ensures cause { client.old.failed ≡ None → result ≡ Searched.Failed Why.Link → LinkFails L.DirectoryLink client.old client.new }
    // A link that tells the bytes to come: the bytes that answer the request decide.
    ensures answered { IsSettledOver L.DirectoryLink client.old → client.new.next ≡ client.old.next + 1 → IsSearchedByAnswer L.DirectoryLink client.old (search_value request.now) result client.new }
    // Where all these bytes are the reply, the client is settled again.
    ensures settles { IsSettledOver L.DirectoryLink client.old → HasReply result → SettlesAgain L.DirectoryLink (search_message client.old.next (search_value request.now)) client.old client.new }
    // A link that tells the directory behind it: its entries decide.
    ensures told { OverTold L.DirectoryLink client.old (λ behind. IsToldSearch result (told_search behind (length client.old.received) client.old.next (search_value request.now))) }
    ensures goes_on { SearchGoesOn L.DirectoryLink client.old (search_value request.now) result client.new }
    ensures ends { SearchEnds L.DirectoryLink client.old (search_value request.now) result client.new }
{
    client.search(request)
}
