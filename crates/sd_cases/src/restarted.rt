// What a journal would be after a restart that keeps all that it can.
use sd_base::Memory;
use sd_keeping::{counts_fit, numbers_fit, reopened};
use sd_rules::Entry;
use sd_steps::output::{print, print_digits, print_line, print_number};
use sd_steps::replies::print_reply;
use std::alloc::Global;

/// Prints the number and the moment of the next entry, and each entry's number and reply.
pub fn print_restarted(alloc: Global, out: &mut Vec<u8>, entries: &[Entry]) -> Result<(), Memory> {
    if !counts_fit(entries) {
        return print_line(out, b"the counts do not fit");
    }
    if !numbers_fit(1, entries) {
        return print_line(out, b"the numbers do not fit");
    }
    let journal = reopened(alloc, 1, 0, entries)?;
    print(out, b"next")?;
    print_number(out, journal.next)?;
    print_number(out, journal.floor)?;
    print(out, b"\n")?;
    for entry in journal.entries.iter() {
        print_digits(out, entry.number)?;
        print_reply(out, entry.reply)?;
        print(out, b"\n")?;
    }
    Ok(())
}
