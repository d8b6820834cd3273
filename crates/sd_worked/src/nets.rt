// What netgroup triples and sudo rules in LDIF say.
use crate::output::{print, print_line, print_number};
use sd_base::{Memory, Numbers, Text, Texts};
use sd_ldap::{Attribute, DirEntry};
use sd_ldif::read_ldif;
use sd_roles::{Asker, Role, RoleFault, applies, read_role};
use sd_rules::User;
use sd_triples::{Triple, TripleFault, Triples, in_netgroup, read_triple};
use std::alloc::Global;

fn print_answer(answer: bool, out: &mut Vec<u8>) -> Result<(), Memory> {
    print_line(out, if answer { b"yes" } else { b"no" })
}

/// The fields with a bar behind each, and whether the triple speaks of the host `H1`, the user `alice` and any domain.
fn print_triple(alloc: Global, triple: Triple, out: &mut Vec<u8>) -> Result<(), Memory> {
    for field in [&triple.host, &triple.user, &triple.domain] {
        print(out, field.bytes())?;
        print(out, b"|")?;
    }
    let mut triples = Triples::new(alloc);
    triples.push(triple)?;
    let host = Text::from_bytes(alloc, b"H1")?;
    let user = Text::from_bytes(alloc, b"alice")?;
    let speaks = in_netgroup(&triples, Some(&host), Some(&user), None);
    print_answer(speaks, out)
}

/// The triple that a value is, or the place of its first bad byte.
fn print_value(alloc: Global, value: &[u8], out: &mut Vec<u8>) -> Result<(), Memory> {
    match read_triple(alloc, value) {
        Ok(triple) => print_triple(alloc, triple, out),
        Err(TripleFault::BadTriple(place)) => print_number(alloc, out, "BadTriple", place),
        Err(TripleFault::Memory) => Err(Memory),
    }
}

fn print_triples(alloc: Global, attribute: &Attribute, out: &mut Vec<u8>) -> Result<(), Memory> {
    if attribute.name.bytes() == b"nisNetgroupTriple".as_slice() {
        for value in attribute.values.items() {
            print_value(alloc, value.bytes(), out)?;
        }
    }
    Ok(())
}

fn alice(alloc: Global) -> Result<User, Memory> {
    Ok(User {
        dn: Text::from_bytes(alloc, b"")?,
        name: Text::from_bytes(alloc, b"alice")?,
        uid: 1000,
        gid: 1000,
        gecos: Text::from_bytes(alloc, b"")?,
        home: Text::from_bytes(alloc, b"")?,
        shell: Text::from_bytes(alloc, b"")?,
    })
}

fn one(alloc: Global, bytes: &[u8]) -> Result<Texts, Memory> {
    let mut texts = Texts::new(alloc);
    texts.push(Text::from_bytes(alloc, bytes)?)?;
    Ok(texts)
}

/// Alice in the groups 1000 and 2001, `staff`.
fn asker(alloc: Global) -> Result<Asker, Memory> {
    let mut gids = Numbers::new(alloc);
    gids.push(1000)?;
    gids.push(2001)?;
    Ok(Asker {
        user: alice(alloc)?,
        gids,
        groups: one(alloc, b"staff")?,
    })
}

/// The name and the order of a rule, how many attributes sudo is handed, and whether it applies to alice in the netgroup `a`.
fn print_role(alloc: Global, role: &Role, out: &mut Vec<u8>) -> Result<(), Memory> {
    let order = role.order;
    let handed: usize = role.handed.len();
    print(out, role.name.bytes())?;
    print(out, format!(in alloc; " {order} {handed} ")?.as_bytes())?;
    let is_hers = applies(role, &asker(alloc)?, &one(alloc, b"a")?);
    print_answer(is_hers, out)
}

fn print_entry(alloc: Global, entry: &DirEntry, out: &mut Vec<u8>) -> Result<(), Memory> {
    for attribute in entry.attributes.items() {
        print_triples(alloc, attribute, out)?;
    }
    match read_role(alloc, entry) {
        Ok(role) => print_role(alloc, &role, out),
        Err(RoleFault::Unfit) => Ok(()),
        Err(RoleFault::Memory) => Err(Memory),
    }
}

/// The triples of each entry of a text, and the rule that it is.
pub fn print_all(alloc: Global, text: &[u8], out: &mut Vec<u8>) -> Result<(), Memory> {
    let Ok(entries) = read_ldif(alloc, text) else {
        return print_line(out, b"no entries");
    };
    for entry in entries.items() {
        print_entry(alloc, entry, out)?;
    }
    Ok(())
}
