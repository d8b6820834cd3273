//! What the words of the tool ask.
ghost use Rattle.std.specs.Prelude.{◌≡◌, map, string_bytes, IfOk};
ghost use Rattle.sd_sudo.specs.Words as forms;

use sd_base::{Memory, Text};
use std::alloc::Global;

fn user_where(alloc: Global, tool: &[u8], user: &[u8]) -> Result<Option<Text>, Memory>
    ensures { IfOk result (λ asked. asked ≡ forms.user_where tool.now user.now) }
{
    if tool != b"sudo".as_slice() {
        return Ok(None);
    }
    Ok(Some(Text::from_bytes(alloc, user)?))
}

/// Whose rules words ask for, where they have a form: `sudo CONF LDIF USER`.
pub fn user_asked(alloc: Global, words: &[String]) -> Result<Option<Text>, Memory>
    ensures { IfOk result (λ asked. asked ≡ forms.user_asked (map string_bytes words.now)) }
{
    match words {
        [tool, _conf, _ldif, user] => user_where(alloc, tool.as_bytes(), user.as_bytes()),
        _ => Ok(None),
    }
}
