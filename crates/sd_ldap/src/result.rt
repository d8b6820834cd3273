//! Results (RFC 4511 section 4.1.9).
ghost use Rattle.std.specs.Prelude.{◌≡◌, IfOk};

use sd_base::{Copied, Memory, Text};

/// A result code, the DN that was matched, and a message for people.
pub struct LdapResult {
    pub code: u32,
    pub dn: Text,
    pub message: Text,
}

impl Drop for LdapResult {
    fn drop(self) {
        let LdapResult {
            code: _,
            dn: _,
            message: _,
        } = self;
    }
}

impl Copied for LdapResult {
    fn copy(&self) -> Result<LdapResult, Memory> {
        Ok(LdapResult {
            code: self.code,
            dn: self.dn.copy()?,
            message: self.message.copy()?,
        })
    }
}
