// Forgetting changes nothing: what a forget keeps of a journal shows to every later event what the whole journal shows.
#![tactic(auto)]

ghost use Rattle.std.specs.Prelude.{◌≡◌, List, true};
ghost use Rattle.sd_rules.specs.Reaching as reaching;
ghost use Rattle.sd_rules.specs.Steps as steps;
ghost use Rattle.sd_forgetting.specs.Orderly as orderly;
ghost use Rattle.sd_forgetting.specs.Runs as runs;

/// A law, which computes nothing: over an orderly journal, steps with forgets at any places give what the steps alone give, and
/// what is left is full only where the whole is.
pub fn forgets_nothing()
    ensures { (d : steps.Daemon) (moves : List reaching.Move) → orderly.IsOrderly d.next d.past → reaching.can_make d (runs.without_forgets moves) ≡ true → runs.ForgetsNothing d moves }
{}
