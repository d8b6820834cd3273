// Whether triples speak of a host, a user and a domain.
ghost use Rattle.std.specs.Prelude.{◌≡◌, ◌==◌, length};
ghost use Rattle.std.specs.Option.{option_copied};
ghost use Rattle.std.specs.Cmp.Lexicographic.{pointwise};
ghost use Rattle.sd_dn.specs.Comparing as comparing;
ghost use Rattle.sd_triples.specs.Matching as matching;

use crate::triples::{Triple, Triples};
use sd_base::Text;
use sd_dn::compare::same_text;

/// Whether a field of a host or a domain is empty, not asked for, or equal without ASCII case.
fn fits_name(field: &Text, asked: Option<&Text>) -> bool
    ensures { result ≡ matching.fits comparing.same_text field.now (option_copied asked.entry) }
{
    match asked {
        Some(asked) => field.bytes().is_empty() || same_text(field.bytes(), asked.bytes()),
        None => true,
    }
}

/// Whether a user's field is empty, not asked for, or equal byte for byte.
fn fits_user(field: &Text, asked: Option<&Text>) -> bool
    ensures { result ≡ matching.fits (pointwise ◌==◌) field.now (option_copied asked.entry) }
{
    match asked {
        Some(asked) => field.bytes().is_empty() || field.bytes() == asked.bytes(),
        None => true,
    }
}

/// Whether a triple speaks of a host, a user and a domain, of which those that are None are not asked for.
pub fn is_spoken_of(
    triple: &Triple,
    host: Option<&Text>,
    user: Option<&Text>,
    domain: Option<&Text>,
) -> bool
    ensures { result ≡ matching.speaks_of (option_copied host.entry) (option_copied user.entry) (option_copied domain.entry) triple.now }
{
    fits_name(&triple.host, host)
        && fits_user(&triple.user, user)
        && fits_name(&triple.domain, domain)
}

/// Whether one of the triples does. It takes no memory.
pub fn in_netgroup(
    triples: &Triples,
    host: Option<&Text>,
    user: Option<&Text>,
    domain: Option<&Text>,
) -> bool
    ensures { result ≡ matching.is_in triples.now (option_copied host.entry) (option_copied user.entry) (option_copied domain.entry) }
{
    for triple in triples.items() {
        if is_spoken_of(triple, host, user, domain) {
            return true;
        }
    }
    false
}
