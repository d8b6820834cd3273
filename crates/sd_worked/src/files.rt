// The configuration and the entries that some tools read.
use sd_plays::{cut_before, cut_line};

/// A configuration, and entries in LDIF.
#[derive(Clone, Copy)]
pub struct Files<'a> {
    pub conf: &'a [u8],
    pub ldif: &'a [u8],
}

fn or<'a>(text: &'a [u8], before: &'a [u8]) -> &'a [u8] {
    if text.is_empty() { before } else { text }
}

impl<'a> Files<'a> {
    /// Both empty.
    pub fn new() -> Files<'a> {
        Files {
            conf: &[],
            ldif: &[],
        }
    }

    /// The same with what a text has of them: a configuration in front of a line `--` and entries behind it, or entries
    /// alone.
    pub fn with(self, text: &'a [u8]) -> Files<'a> {
        let (front, behind) = cut_before(text, b"--");
        let (conf, ldif) = if behind.is_empty() {
            (behind, front)
        } else {
            (front, cut_line(behind).1)
        };
        Files {
            conf: or(conf, self.conf),
            ldif: or(ldif, self.ldif),
        }
    }
}
