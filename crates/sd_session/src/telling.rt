//! What an engine is told of the step that it named.
ghost use Rattle.std.specs.Prelude.{◌≡◌, true, IfSome};
ghost use Rattle.std.specs.Option.{ForSome};
ghost use Rattle.sd_rules.specs.Scripts.{awaits_reply, fits_found, key_at};
ghost use Rattle.sd_engine.specs.Courses.{need_of, script_at};
ghost use Rattle.sd_session.specs.Running as running;

use sd_base::Memory;
use sd_engine::{Engine, SessionEnd};
use sd_rules::Given;

/// Tells the engine what a step gave; the end of the session where memory is wanting for it.
pub fn tell(engine: &mut Engine, given: Given) -> Option<SessionEnd>
    requires ready { engine.old.is_ready ≡ true }
    requires awaited { ForSome engine.old.client (λ client. awaits_reply (need_of client) ≡ true) }
    requires kind { ForSome engine.old.client (λ client. fits_found (key_at (script_at client)) given.found ≡ true) }
    ensures { running.TellsOf result engine.old given engine.new }
{
    match engine.replied(given) {
        Ok(()) => None,
        Err(Memory) => Some(SessionEnd::Memory),
    }
}
