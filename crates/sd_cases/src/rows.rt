// Prints the rows that are kept of a journal, each on a line of its own.
use sd_base::{Memory, Text};
use sd_rules::{Answered, Hash, Key, Row, Rows};
use sd_steps::givens::print_record;
use sd_steps::output::{print, print_digits, print_number, print_word};

/// The kind of a key and the colon that parts it from a name.
fn print_named(out: &mut Vec<u8>, kind: &[u8], name: &Text) -> Result<(), Memory> {
    print_word(out, kind)?;
    print(out, name.bytes())
}

fn print_numbered(out: &mut Vec<u8>, kind: &[u8], number: u32) -> Result<(), Memory> {
    print_word(out, kind)?;
    print_digits(out, u64::from(number))
}

/// Prints a key with a space before it.
pub fn print_key(out: &mut Vec<u8>, key: &Key) -> Result<(), Memory> {
    match key {
        Key::User(name) => print_named(out, b"user:", name),
        Key::Uid(number) => print_numbered(out, b"uid:", *number),
        Key::Group(name) => print_named(out, b"group:", name),
        Key::Gid(number) => print_numbered(out, b"gid:", *number),
        Key::GroupsOf(name) => print_named(out, b"groups:", name),
        Key::Host => print_word(out, b"host"),
        Key::Rules => print_word(out, b"rules"),
    }
}

fn print_answered(out: &mut Vec<u8>, answered: &Answered) -> Result<(), Memory> {
    match answered {
        Answered::Found(found) => {
            print_word(out, b"found")?;
            print_record(out, found.value())
        }
        Answered::Absent => print_word(out, b"absent"),
    }
}

fn print_voided(out: &mut Vec<u8>, voided: bool) -> Result<(), Memory> {
    if voided {
        print_word(out, b"voided")
    } else {
        Ok(())
    }
}

/// The name of a row, its number and its moment.
fn print_begin(out: &mut Vec<u8>, name: &[u8], number: u64, moment: u64) -> Result<(), Memory> {
    print(out, name)?;
    print_number(out, number)?;
    print_number(out, moment)
}

fn print_answer(
    out: &mut Vec<u8>,
    key: &Key,
    answered: &Answered,
    voided: bool,
) -> Result<(), Memory> {
    print_key(out, key)?;
    print_answered(out, answered)?;
    print_voided(out, voided)
}

/// The user of a hash and the hash's last bytes.
fn print_hashed(out: &mut Vec<u8>, user: &Text, hash: &Hash) -> Result<(), Memory> {
    print_word(out, user.bytes())?;
    print_number(out, u64::from(hash.salt[15]))?;
    print_number(out, u64::from(hash.digest[63]))
}

fn print_counted(out: &mut Vec<u8>, user: &Text, count: u64) -> Result<(), Memory> {
    print_word(out, user.bytes())?;
    print_number(out, count)
}

fn print_name(out: &mut Vec<u8>, row: &Row) -> Result<(), Memory> {
    match row {
        Row::Head(version, next, moment) => {
            print(out, b"head")?;
            print_number(out, u64::from(*version))?;
            print_number(out, *next)?;
            print_number(out, *moment)
        }
        Row::Answer(number, moment, _, _, _) => print_begin(out, b"answer", *number, *moment),
        Row::Hash(number, moment, _, _) => print_begin(out, b"hash", *number, *moment),
        Row::Wrong(number, moment, _, _) => print_begin(out, b"wrong", *number, *moment),
        Row::Fall(number, moment, _) => print_begin(out, b"fall", *number, *moment),
        Row::Online(number, moment, _) => print_begin(out, b"online", *number, *moment),
    }
}

/// What a row holds beside its number and its moment.
fn print_held(out: &mut Vec<u8>, row: &Row) -> Result<(), Memory> {
    match row {
        Row::Head(_, _, _) => Ok(()),
        Row::Answer(_, _, key, answered, voided) => print_answer(out, key, answered, *voided),
        Row::Hash(_, _, user, hash) => print_hashed(out, user, hash.value()),
        Row::Wrong(_, _, user, count) => print_counted(out, user, *count),
        Row::Fall(_, _, server) => print_number(out, u64::from(*server)),
        Row::Online(_, _, user) => print_word(out, user.bytes()),
    }
}

fn print_row(out: &mut Vec<u8>, row: &Row) -> Result<(), Memory> {
    print_name(out, row)?;
    print_held(out, row)?;
    print(out, b"\n")
}

pub fn print_rows(out: &mut Vec<u8>, rows: &Rows) -> Result<(), Memory> {
    for row in rows.items() {
        print_row(out, row)?;
    }
    Ok(())
}
