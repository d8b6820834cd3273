// The outage that stands.
ghost use Rattle.std.specs.Prelude.{◌≡◌, None};
ghost use Rattle.sd_index.specs.Outages as outages;

use sd_journal::past::{ends_outage, records_outage};
use sd_rules::Entry;
use sd_rules::limits::is_within;

/// An outage that nothing has ended: the number and the moment of its entry.
#[derive(Clone, Copy, PartialEq, Eq)]
pub struct Outage {
    pub number: u64,
    pub moment: u64,
}

/// The outage that nothing has ended after one more entry.
pub fn outage_after(outage: Option<Outage>, entry: &Entry) -> Option<Outage>
    ensures { result ≡ outages.outage_after outage entry.now }
{
    if records_outage(&entry.event, entry.reply) {
        return Some(Outage {
            number: entry.number,
            moment: entry.moment,
        });
    }
    if ends_outage(&entry.event, entry.reply) {
        return None;
    }
    outage
}

/// The number of the outage that stands at a moment: its time is not over.
pub fn standing_at(outage: Option<Outage>, timeout: u32, moment: u64) -> Option<u64>
    ensures { result ≡ outages.standing_at outage timeout moment }
{
    match outage {
        Some(outage) => {
            if is_within(outage.moment, u64::from(timeout), moment) {
                Some(outage.number)
            } else {
                None
            }
        }
        None => None,
    }
}
