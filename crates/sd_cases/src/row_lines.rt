// The rows of lines, as the rows that are kept are printed.
use sd_base::{Memory, Shared};
use sd_rules::Row;
use sd_steps::events::{HASH, key};
use sd_steps::records::answered;
use sd_steps::words::{Words, is};
use std::alloc::Global;

/// A row of a user, or of a server.
fn other(
    alloc: Global,
    name: &[u8],
    number: u64,
    moment: u64,
    words: &mut Words<'_>,
) -> Result<Row, Memory> {
    if is(name, b"fall") {
        return Ok(Row::Fall(number, moment, words.short()));
    }
    let user = words.text(alloc)?;
    if is(name, b"hash") {
        Ok(Row::Hash(number, moment, user, Shared::new(alloc, HASH)?))
    } else if is(name, b"wrong") {
        Ok(Row::Wrong(number, moment, user, words.number()))
    } else {
        Ok(Row::Online(number, moment, user))
    }
}

/// Takes a row off a line: `head`, the version, the next number and the moment, or another name, the number, the moment, and what
/// the row holds. Of a hash it has the user alone.
pub fn row(alloc: Global, words: &mut Words<'_>) -> Result<Row, Memory> {
    let name = words.word();
    if is(name, b"head") {
        return Ok(Row::Head(words.short(), words.number(), words.number()));
    }
    let number = words.number();
    let moment = words.number();
    if !is(name, b"answer") {
        return other(alloc, name, number, moment, words);
    }
    let key = key(alloc, words.word())?;
    let answered = answered(alloc, words)?;
    Ok(Row::Answer(number, moment, key, answered, is(words.word(), b"voided")))
}
