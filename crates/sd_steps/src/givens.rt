// Prints what a step gives beside its reply: the record, the hash and the rule's name.
use crate::output::{print_number, print_word};
use sd_base::{Memory, Shared, Text};
use sd_rules::{Given, Hash, Record};

/// Prints who or what a record is of.
pub fn print_record(out: &mut Vec<u8>, found: &Record) -> Result<(), Memory> {
    match found {
        Record::User(user) => {
            print_word(out, user.name.bytes())?;
            print_number(out, u64::from(user.uid))
        }
        Record::Group(group) => {
            print_word(out, group.name.bytes())?;
            print_number(out, u64::from(group.gid))
        }
        Record::Groups(groups) => print_word(out, groups.user.bytes()),
        Record::Host(host) => print_word(out, host.name.bytes()),
        Record::Rules(book) => print_number(out, book.rules.len() as u64),
    }
}

fn print_found(out: &mut Vec<u8>, found: &Option<Shared<Record>>) -> Result<(), Memory> {
    match found {
        Some(found) => {
            print_word(out, b"=")?;
            print_record(out, found.value())
        }
        None => Ok(()),
    }
}

fn print_hash(out: &mut Vec<u8>, hash: &Option<Hash>) -> Result<(), Memory> {
    match hash {
        Some(hash) => {
            print_word(out, b"=")?;
            print_number(out, u64::from(hash.salt[15]))?;
            print_number(out, u64::from(hash.digest[63]))
        }
        None => Ok(()),
    }
}

fn print_rule(out: &mut Vec<u8>, rule: &Option<Text>) -> Result<(), Memory> {
    match rule {
        Some(rule) => {
            print_word(out, b"=")?;
            print_word(out, rule.bytes())
        }
        None => Ok(()),
    }
}

/// Prints `=` and the record, the hash's last bytes or the rule's name, where the step gives one.
pub fn print_given(out: &mut Vec<u8>, given: &Given) -> Result<(), Memory> {
    print_found(out, &given.found)?;
    print_hash(out, &given.hash)?;
    print_rule(out, &given.rule)
}
