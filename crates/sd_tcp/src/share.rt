//! How the time for connecting is shared out among the addresses of a name.
ghost use Rattle.std.specs.Prelude.{◌≡◌};
ghost use Rattle.sd_tcp.specs.Shares as shares;

/// The least that an address gets, unless less is left, in milliseconds.
const LEAST_MILLIS: u64 = 500;

/// How long connecting to an address may take, where so much time is left for it and for so many addresses behind it,
/// in milliseconds.
pub fn fair_share(left: u64, behind: u32) -> u64
    ensures { result ≡ shares.fair_share left behind }
{
    let fair = left / (u64::from(behind) + 1);
    left.min(fair.max(LEAST_MILLIS))
}
