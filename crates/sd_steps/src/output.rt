// What is printed: words and numbers, with a space before each, and lines.
use sd_base::Memory;

/// Prints bytes as they are.
pub fn print(out: &mut Vec<u8>, bytes: &[u8]) -> Result<(), Memory> {
    out.extend_from_slice(bytes)?;
    Ok(())
}

/// Prints bytes and the end of a line.
pub fn print_line(out: &mut Vec<u8>, line: &[u8]) -> Result<(), Memory> {
    print(out, line)?;
    print(out, b"\n")
}

/// Prints bytes with a space before them.
pub fn print_word(out: &mut Vec<u8>, word: &[u8]) -> Result<(), Memory> {
    print(out, b" ")?;
    print(out, word)
}

/// Prints a number in decimal digits.
pub fn print_digits(out: &mut Vec<u8>, number: u64) -> Result<(), Memory> {
    let mut divisor = 10_000_000_000_000_000_000u64;
    let mut is_begun = false;
    for _ in 0..20 {
        let unit = divisor.max(1);
        let digit = (number / unit % 10) as u8;
        is_begun = is_begun || digit != 0 || unit == 1;
        if is_begun {
            out.push(b'0' + digit)?;
        }
        divisor /= 10;
    }
    Ok(())
}

/// Prints a number with a space before it.
pub fn print_number(out: &mut Vec<u8>, number: u64) -> Result<(), Memory> {
    print(out, b" ")?;
    print_digits(out, number)
}
