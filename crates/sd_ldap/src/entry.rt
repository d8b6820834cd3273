//! Directory entries (RFC 4511 section 4.5.2).
ghost use Rattle.std.specs.Prelude.{◌≡◌, IfOk};

use sd_base::{Copied, Items, Memory, Text, Texts};

/// An attribute's name and its values.
pub struct Attribute {
    pub name: Text,
    pub values: Texts,
}

impl Drop for Attribute {
    fn drop(self) {
        let Attribute { name: _, values: _ } = self;
    }
}

pub type Attributes = Items<Attribute>;

/// An entry: its DN as it is written, and its attributes.
pub struct DirEntry {
    pub dn: Text,
    pub attributes: Attributes,
}

impl Drop for DirEntry {
    fn drop(self) {
        let DirEntry {
            dn: _,
            attributes: _,
        } = self;
    }
}

pub type DirEntries = Items<DirEntry>;

impl Copied for Attribute {
    fn copy(&self) -> Result<Attribute, Memory> {
        Ok(Attribute {
            name: self.name.copy()?,
            values: self.values.copy()?,
        })
    }
}

impl Copied for DirEntry {
    fn copy(&self) -> Result<DirEntry, Memory> {
        Ok(DirEntry {
            dn: self.dn.copy()?,
            attributes: self.attributes.copy()?,
        })
    }
}
