// How the servers of a scenario's directory behave.
ghost use Rattle.std.specs.Prelude.{◌≡◌, reverse};
ghost use Rattle.sd_world.specs.Modes as modes;

use sd_stub::Mode;

/// A server that behaves otherwise from here on.
#[derive(Clone, Copy)]
pub struct Change {
    pub server: u32,
    pub mode: Mode,
}

/// How a server behaves, by the changes so far.
pub fn mode_of(changes: &[Change], server: u32) -> Mode
    ensures { result ≡ modes.mode_of (reverse changes.now) server }
{
    for place in (0..changes.len()).rev() {
        let change = changes[place];
        if change.server == server {
            return change.mode;
        }
    }
    Mode::Up
}
