// Whether a number is open.
ghost use Rattle.std.specs.Prelude.{◌≡◌};
ghost use Rattle.sd_rules.specs.Requests as requests;

use sd_past::Past;

/// Whether a request or a login attempt of this number is open.
pub fn is_open<P: Past>(past: &P, number: u64) -> bool
    ensures { result ≡ requests.is_open (P.entries past.now) number }
{
    past.is_open_request(number) || past.is_open_attempt(number)
}
