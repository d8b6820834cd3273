// What a question is replied at any moment, also at one before the last entry's, which a step never has.
use sd_base::Memory;
use sd_journal::answers::reply_to_ask;
use sd_rules::{Entry, Settings};
use sd_steps::events::key;
use sd_steps::output::{print, print_word};
use sd_steps::replies::print_reply;
use sd_steps::words::Words;
use std::alloc::Global;

/// Prints what a journal replies to a question: `NOW KEY`. The entry that the reply would make has the number 0, which is not printed.
pub fn print_asked(
    alloc: Global,
    out: &mut Vec<u8>,
    settings: &Settings,
    entries: &[Entry],
    words: &[u8],
) -> Result<(), Memory> {
    print(out, b"asked")?;
    print_word(out, words)?;
    let mut words = Words::new(words);
    let now = words.number();
    let key = key(alloc, words.word())?;
    print_reply(out, reply_to_ask(settings, entries, 0, now, &key))?;
    print(out, b"\n")
}
