//! What a value has to tell of itself, so that threads can share it by turns.
ghost use Rattle.std.specs.Prelude.{◌≡◌, ℕ, ◌<◌};
ghost use Rattle.sd_turn.specs.declared.view.History.{History};

use crate::view::History;

/// A value that stands for a history of numbered entries, under a setting.
pub trait Chronicle: Drop {
    /// What the history is a list of.
    type Entry;

    /// What stays as it is while threads share the value.
    type Setting;

    ghost setting: { Self → Self.Setting };

    ghost history: { Self → History Self.Entry };

    /// The number that an entry bears.
    ghost number: { Self.Entry → ℕ };

    /// Under a setting, the second history follows the first: whoever takes the turn and gives it back moves from one to the other.
    ghost follows: { Self.Setting → History Self.Entry → History Self.Entry → Type 0 };

    /// What the history of every value meets under its setting.
    ghost fits: { Self.Setting → History Self.Entry → Type 0 };

    /// The number that the next entry is to have.
    fn next_number(&self) -> u64
        ensures number { result ≡ (history self.now).next }
        ensures above { 0 < result }
        ensures fits { fits (setting self.now) (history self.now) };

    ghost follows_itself: { (c : Self.Setting) (x : History Self.Entry) → follows c x x };

    ghost follows_through: { (c : Self.Setting) (x y z : History Self.Entry) → follows c x y → follows c y z → follows c x z };
}
