// Falls of servers: which of them keep a server from being picked, and which are kept no longer.
ghost use Rattle.std.specs.Prelude.{◌≡◌, ℕ, ◌≤◌, Bool, not, is_some, filter, map, vec_len, vec_capacity};
ghost use Rattle.sd_failover.specs.Falls as told;

/// How long a server that fell is passed over, in seconds.
pub const SECONDS_DOWN: u64 = 30;

/// A server that did not answer.
#[derive(Clone, Copy, PartialEq, Eq)]
pub struct Fall {
    /// The request or login attempt that asked it, until that is closed.
    pub request: Option<u64>,
    /// The server, counted from 0, primaries first.
    pub server: u32,
    /// When it fell, in seconds.
    pub moment: u64,
    /// Whether an `online` came after it.
    pub online_since: bool,
}

/// Whether it fell under this request, which is not closed.
pub fn is_under(fall: &Fall, request: u64) -> bool
    ensures { result ≡ told.is_under fall.now request }
{
    match fall.request {
        Some(own) => own == request,
        None => false,
    }
}

/// Whether it is a fall of this server under this request.
pub fn falls_under(fall: &Fall, request: u64, server: u32) -> bool
    ensures { result ≡ told.falls_under fall.now request server }
{
    is_under(fall, request) && fall.server == server
}

/// Whether a moment is less than thirty seconds after another, or before it.
pub fn is_shortly_after(moment: u64, fell: u64) -> bool
    ensures { result ≡ told.is_shortly_after moment fell }
{
    match fell.checked_add(SECONDS_DOWN) {
        Some(end) => moment < end,
        None => true,
    }
}

/// Whether it is a fall of this server less than thirty seconds ago, and no online came after it.
pub fn falls_lately(fall: &Fall, moment: u64, server: u32) -> bool
    ensures { result ≡ told.falls_lately fall.now moment server }
{
    !fall.online_since && fall.server == server && is_shortly_after(moment, fall.moment)
}

/// Whether this server fell under this request.
pub fn has_fallen_under(falls: &[Fall], request: u64, server: u32) -> bool
    ensures { result ≡ told.has_fallen_under falls.now request server }
{
    falls.iter().any(|fall| falls_under(fall, request, server))
}

/// Whether this server fell lately.
pub fn has_fallen_lately(falls: &[Fall], moment: u64, server: u32) -> bool
    ensures { result ≡ told.has_fallen_lately falls.now moment server }
{
    falls.iter().any(|fall| falls_lately(fall, moment, server))
}

/// Whether this server may not be picked for this request.
pub fn is_down(falls: &[Fall], request: u64, moment: u64, server: u32) -> bool
    ensures { result ≡ told.is_down falls.now request moment server }
{
    has_fallen_under(falls, request, server) || has_fallen_lately(falls, moment, server)
}

/// Whether an earlier fall counts nowhere once a later one is told.
pub fn is_replaced(earlier: &Fall, later: &Fall) -> bool
    ensures { result ≡ told.is_replaced earlier.now later.now }
{
    earlier.server == later.server
        && earlier.moment <= later.moment
        && is_of_same_request(earlier, later)
}

/// Whether a fall counts under no request, or under that of another.
pub fn is_of_same_request(earlier: &Fall, later: &Fall) -> bool
    ensures { result ≡ told.is_of_same_request earlier.now later.now }
{
    match earlier.request {
        Some(request) => is_under(later, request),
        None => true,
    }
}

/// Whether it can count nowhere once its request is closed: it fell under that, before an online.
pub fn is_spent(fall: &Fall, request: u64) -> bool
    ensures { result ≡ told.is_spent fall.now request }
{
    is_under(fall, request) && fall.online_since
}

/// A fall as it counts once an online is told.
pub fn with_online(fall: Fall) -> Fall
    ensures { result ≡ told.with_online fall }
{
    Fall {
        online_since: true,
        ..fall
    }
}

/// A fall as it counts once a request is closed.
pub fn released(fall: Fall, request: u64) -> Fall
    ensures { result ≡ told.released request fall }
{
    if is_under(&fall, request) {
        Fall {
            request: None,
            ..fall
        }
    } else {
        fall
    }
}

/// Keeps the falls that a later one does not stand for.
pub fn drop_replaced(falls: &mut Vec<Fall>, later: &Fall)
    ensures kept { falls.new.items ≡ filter (λ fall. not (told.is_replaced fall later.now)) falls.old.items }
    ensures bound { vec_len falls.new ≤ vec_len falls.old }
    ensures capacity { vec_capacity falls.new ≡ vec_capacity falls.old }
{
    falls.retain(|fall| !is_replaced(fall, later));
}

/// Keeps the falls under requests that are not closed.
pub fn drop_closed(falls: &mut Vec<Fall>)
    ensures { falls.new.items ≡ filter (λ fall. is_some fall.request) falls.old.items }
{
    falls.retain(|fall| fall.request.is_some());
}

/// Keeps the falls that can still count once a request is closed.
pub fn drop_spent(falls: &mut Vec<Fall>, request: u64)
    ensures { falls.new.items ≡ filter (λ fall. not (told.is_spent fall request)) falls.old.items }
{
    falls.retain(|fall| !is_spent(fall, request));
}

/// Lets an online come after each fall.
pub fn mark_online(falls: &mut [Fall])
    ensures { falls.new ≡ map told.with_online falls.old }
{
    for fall in falls.iter_mut() {
        *fall = with_online(*fall);
    }
}

/// Lets the falls under a request count by their moments alone.
pub fn release(falls: &mut [Fall], request: u64)
    ensures { falls.new ≡ map (told.released request) falls.old }
{
    for fall in falls.iter_mut() {
        *fall = released(*fall, request);
    }
}
