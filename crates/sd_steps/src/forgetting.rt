// Prints the numbers of entries.
use crate::output::{print, print_number};
use sd_base::Memory;
use sd_rules::Entry;

/// A line of a word and the numbers of entries.
pub fn print_numbers(out: &mut Vec<u8>, word: &[u8], entries: &[Entry]) -> Result<(), Memory> {
    print(out, word)?;
    for entry in entries {
        print_number(out, entry.number)?;
    }
    print(out, b"\n")
}
