// What a call gives, behind the call in words.
use sd_base::Memory;
use sd_steps::output::{print, print_line, print_number};

/// Ends the line of a call with the number that it gives, or `none`.
pub fn print_gave(out: &mut Vec<u8>, gave: Option<u64>) -> Result<(), Memory> {
    match gave {
        Some(number) => {
            print(out, b" =")?;
            print_number(out, number)?;
            print(out, b"\n")
        }
        None => print_line(out, b" = none"),
    }
}
