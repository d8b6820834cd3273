// A restart changes nothing but what it says: a core that is opened with the rows kept of another answers as that one would if it
// went on with all its entries but those of outages and of the daemon's end, with nothing open and nobody waiting.
#![tactic(auto)]

ghost use Rattle.std.specs.Prelude.{◌≡◌, ◌+◌, ◌≤◌, IfErr, IfOk};
ghost use Rattle.sd_restart.specs.Restarts as restarts;

use sd_core::{Core, OpenFault};
use sd_rules::Settings;
use std::alloc::Global;

/// A core that is opened with the rows kept of another, as it is after a restart. The settings may be others; at most 64 servers.
pub fn restart(alloc: Global, core: &Core, settings: Settings) -> Result<Core, OpenFault>
    requires { settings.primaries + settings.backups ≤ 64 }
    ensures opened { IfOk result (λ made. made ≡ restarts.restarted settings core.now) }

    // For every list of later steps.
    ensures same { IfOk result (λ made. restarts.AnswersAs made (restarts.continued settings core.now)) }

    // Rows are refused only for what is wrong with them.
    ensures fault { IfErr result (restarts.RefusedFor core.now) }
{
    match core.kept() {
        Ok(rows) => Core::open(alloc, settings, rows),
        Err(_) => Err(OpenFault::Memory),
    }
}
