// What who makes events leads, and what an event and a reply say of it.
ghost use Rattle.std.specs.Prelude.{◌≡◌};
ghost use Rattle.sd_rules.specs.Leading as leading;

use crate::events::Event;
use crate::replies::Reply;

/// The request or attempt that an event is about.
pub fn about(event: &Event) -> Option<u64>
    ensures { result ≡ leading.about event.now }
{
    match event {
        Event::Pick(number)
        | Event::Fall(number, _, _)
        | Event::Answer(number, _)
        | Event::Refuse(number, _)
        | Event::Outage(number)
        | Event::Abandon(number)
        | Event::LoginOnline(number, _)
        | Event::LoginTry(number, _, _) => Some(*number),
        _ => None,
    }
}

/// The request or attempt that a reply says is led.
pub fn opened(reply: Reply) -> Option<u64>
    ensures { result ≡ leading.opened reply }
{
    match reply {
        Reply::Lead(number)
        | Reply::Refresh(_, number)
        | Reply::Bind(number)
        | Reply::Cached(number, _) => Some(number),
        _ => None,
    }
}

fn place_in(numbers: &[u64], number: u64) -> usize
    ensures { result ≡ leading.place_in numbers.now number }
{
    for (place, other) in numbers.iter().enumerate() {
        if *other == number {
            return place;
        }
    }
    numbers.len()
}

/// Takes a number out, where there is one.
pub fn take_out(numbers: &mut Vec<u64>, number: Option<u64>)
    ensures { numbers.new.items ≡ leading.without numbers.old.items number }
{
    let Some(number) = number else {
        return;
    };
    let place = place_in(numbers.as_slice(), number);
    if place < numbers.len() {
        numbers.remove(place);
    }
}
