//! How scripts go on.
ghost use Rattle.std.specs.Prelude.{◌≡◌, ◌++◌, List};
ghost use Rattle.sd_rules.specs.Scripts.{Script, Seen, next_need, script_after};

/// A script that goes on from where it stands goes on as from its first need: what it saw before and what it sees from there
/// on, taken together, lead to the same place and the same need.
pub fn scripts_go_on()
    ensures place { (script : Script) (earlier later : List Seen) → script_after script (later ++ earlier) ≡ script_after (script_after script earlier) later }
    ensures need { (script : Script) (earlier later : List Seen) → next_need script (later ++ earlier) ≡ next_need (script_after script earlier) later }
{}
