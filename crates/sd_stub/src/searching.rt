//! Searches.
ghost use Rattle.std.specs.Prelude.{◌≡◌, length};
ghost use Rattle.sd_dn.specs.Texts.{spelled};
ghost use Rattle.sd_ldap.specs.declared.entry.DirEntry.{DirEntry};
ghost use Rattle.sd_ldap.specs.Values.{search_value};
ghost use Rattle.sd_match.specs.Answering.{is_found, found};
ghost use Rattle.sd_places.specs.Covers.{picked, at_slot, passes_at};

use sd_dn::Dn;
use sd_ldap::SearchRequest;
use sd_match::matches;
use sd_places::Placed;

/// Whether a search from a base finds an entry.
pub fn is_found(placed: &Placed, request: &SearchRequest, base: &Option<Dn>) -> bool
    requires { base.now ≡ spelled request.now.base }
    ensures { result ≡ is_found (search_value request.now) placed.now }
{
    placed.is_in_scope(request.scope, base) && matches(&request.filter, placed.entry())
}

fn is_found_at(
    slots: &[Option<Placed>],
    place: usize,
    request: &SearchRequest,
    base: &Option<Dn>,
) -> bool
    requires { base.now ≡ spelled request.now.base }
    ensures { result ≡ passes_at (λ (e : DirEntry). is_found (search_value request.now) e) (at_slot slots.now place) }
{
    match slots.get(place) {
        Some(Some(placed)) => is_found(placed, request, base),
        _ => false,
    }
}

/// How many of the entries at some places a search finds.
pub fn count_found(
    slots: &[Option<Placed>],
    places: &[usize],
    request: &SearchRequest,
    base: &Option<Dn>,
) -> usize
    requires { base.now ≡ spelled request.now.base }
    ensures { result ≡ length (found (picked slots.now places.now) (search_value request.now)) }
{
    let mut count = 0;
    for place in places {
        if is_found_at(slots, *place, request, base) {
            count += 1;
        }
    }
    count
}
