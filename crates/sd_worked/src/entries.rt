// What entries in LDIF say.
use crate::output::{print_number, print_text};
use sd_base::Memory;
use sd_ldap::{Attribute, DirEntry};
use sd_ldif::{LdifFault, read_ldif};
use std::alloc::Global;

fn print_attribute(attribute: &Attribute, out: &mut Vec<u8>) -> Result<(), Memory> {
    print_text(out, b"attribute", attribute.name.bytes())?;
    for value in attribute.values.items() {
        print_text(out, b"value", value.bytes())?;
    }
    Ok(())
}

fn print_entry(entry: &DirEntry, out: &mut Vec<u8>) -> Result<(), Memory> {
    print_text(out, b"entry", entry.dn.bytes())?;
    for attribute in entry.attributes.items() {
        print_attribute(attribute, out)?;
    }
    Ok(())
}

/// The entries of a text, or why it is refused.
pub fn print_all(alloc: Global, text: &[u8], out: &mut Vec<u8>) -> Result<(), Memory> {
    let entries = match read_ldif(alloc, text) {
        Ok(entries) => entries,
        Err(LdifFault::BadLine(line)) => return print_number(
            alloc,
            out,
            "bad line",
            u64::from(line),
        ),
        Err(LdifFault::BadBase64(line)) => return print_number(
            alloc,
            out,
            "bad base64",
            u64::from(line),
        ),
        Err(LdifFault::NoDn(line)) => return print_number(alloc, out, "no dn", u64::from(line)),
        Err(LdifFault::Memory) => return Err(Memory),
    };
    for entry in entries.items() {
        print_entry(entry, out)?;
    }
    Ok(())
}
