// What is printed: bytes, and lines of a name and what it is given.
use sd_base::Memory;
use std::alloc::Global;

pub fn print(out: &mut Vec<u8>, bytes: &[u8]) -> Result<(), Memory> {
    out.extend_from_slice(bytes)?;
    Ok(())
}

pub fn print_line(out: &mut Vec<u8>, line: &[u8]) -> Result<(), Memory> {
    print(out, line)?;
    print(out, b"\n")
}

/// A line of a name and a number.
pub fn print_number(
    alloc: Global,
    out: &mut Vec<u8>,
    name: &str,
    number: u64,
) -> Result<(), Memory> {
    print(out, format!(in alloc; "{name} {number}\n")?.as_bytes())
}

/// A line of a name and bytes.
pub fn print_text(out: &mut Vec<u8>, name: &[u8], bytes: &[u8]) -> Result<(), Memory> {
    print(out, name)?;
    print(out, b" ")?;
    print_line(out, bytes)
}
