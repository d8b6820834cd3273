// Fields of printed lines, and words with numbers behind them.
ghost use Rattle.std.specs.Prelude.{◌≡◌, ◌++◌, ◌<◌, OnOk};
ghost use Rattle.std.specs.Fmt.{decimal};
ghost use Rattle.std.specs.List.{list_any};
ghost use Rattle.sd_wire.specs.Escapes as escapes;
ghost use Rattle.sd_wire.specs.Forms as forms;

use itoa::Buffer;
use sd_base::Memory;
use std::alloc::Global;

/// Appends bytes.
pub fn push_bytes(out: &mut Vec<u8>, bytes: &[u8]) -> Result<(), Memory>
    ensures ok { OnOk result (out.new.items ≡ out.old.items ++ bytes.now) }
    ensures kept { forms.Keeps out.old.items out.new.items }
{
    out.extend_from_slice(bytes)?;
    Ok(())
}

/// Appends a number in decimal.
pub fn push_number(_alloc: Global, out: &mut Vec<u8>, number: u64) -> Result<(), Memory>
    ensures ok { OnOk result (out.new.items ≡ out.old.items ++ decimal number) }
    ensures kept { forms.Keeps out.old.items out.new.items }
{
    let mut digits = Buffer::new();
    push_bytes(out, digits.format(number).as_bytes())
}

/// Appends a word and a number.
pub fn push_numbered(
    alloc: Global,
    out: &mut Vec<u8>,
    word: &[u8],
    number: u64,
) -> Result<(), Memory>
    ensures ok { OnOk result (out.new.items ≡ out.old.items ++ forms.numbered word.now number) }
    ensures kept { forms.Keeps out.old.items out.new.items }
{
    push_bytes(out, word)?;
    push_number(alloc, out, number)
}

/// Appends a word and two numbers.
pub fn push_numbered_twice(
    alloc: Global,
    out: &mut Vec<u8>,
    word: &[u8],
    number: u64,
    second: u64,
) -> Result<(), Memory>
    ensures ok { OnOk result (out.new.items ≡ out.old.items ++ forms.numbered_twice word.now number second) }
    ensures kept { forms.Keeps out.old.items out.new.items }
{
    push_bytes(out, word)?;
    push_number(alloc, out, number)?;
    push_bytes(out, b" ")?;
    push_number(alloc, out, second)
}

/// Appends a word, a number and words.
pub fn push_numbered_within(
    alloc: Global,
    out: &mut Vec<u8>,
    word: &[u8],
    number: u64,
    words: &[u8],
) -> Result<(), Memory>
    ensures ok { OnOk result (out.new.items ≡ out.old.items ++ forms.numbered_within word.now number words.now) }
    ensures kept { forms.Keeps out.old.items out.new.items }
{
    push_bytes(out, word)?;
    push_number(alloc, out, number)?;
    push_bytes(out, words)
}

fn is_escaped(byte: u8) -> bool
    ensures { result ≡ escapes.is_escaped byte }
{
    byte < b' ' || byte == 127 || byte == b':' || byte == b'\\'
}

fn is_escaped_in_name(byte: u8) -> bool
    ensures { result ≡ escapes.is_escaped_in_name byte }
{
    is_escaped(byte) || byte == b','
}

fn hex_digit(value: u8) -> u8
    requires { value < 16 }
    ensures { result ≡ escapes.hex_digit value }
{
    if value < 10 { value + b'0' } else { value + 87 }
}

fn push_escape(out: &mut Vec<u8>, byte: u8) -> Result<(), Memory>
    ensures ok { OnOk result (out.new.items ≡ out.old.items ++ escapes.escape byte) }
    ensures kept { forms.Keeps out.old.items out.new.items }
{
    push_bytes(out, &[b'\\', hex_digit(byte / 16), hex_digit(byte % 16)])
}

fn push_byte_of_field(out: &mut Vec<u8>, byte: u8) -> Result<(), Memory>
    ensures ok { OnOk result (out.new.items ≡ out.old.items ++ escapes.byte_of_field byte) }
    ensures kept { forms.Keeps out.old.items out.new.items }
{
    if is_escaped(byte) {
        push_escape(out, byte)
    } else {
        push_bytes(out, &[byte])
    }
}

fn push_byte_of_name(out: &mut Vec<u8>, byte: u8) -> Result<(), Memory>
    ensures ok { OnOk result (out.new.items ≡ out.old.items ++ escapes.byte_of_name byte) }
    ensures kept { forms.Keeps out.old.items out.new.items }
{
    if is_escaped_in_name(byte) {
        push_escape(out, byte)
    } else {
        push_bytes(out, &[byte])
    }
}

/// Whether some byte of a field does not stand for itself.
fn has_escaped(field: &[u8]) -> bool
    ensures { result ≡ list_any escapes.is_escaped field.now }
{
    field.iter().any(|byte| is_escaped(*byte))
}

/// Appends a field byte by byte.
fn push_escaped(out: &mut Vec<u8>, field: &[u8]) -> Result<(), Memory>
    ensures ok { OnOk result (out.new.items ≡ out.old.items ++ escapes.field field.now) }
    ensures kept { forms.Keeps out.old.items out.new.items }
{
    for byte in field {
        push_byte_of_field(out, *byte)?;
    }
    Ok(())
}

/// Appends a field: whole, where each of its bytes stands for itself, as in most.
#[tactic(auto, using(crate::proofs::Plain::plain_is))]
pub fn push_field(out: &mut Vec<u8>, field: &[u8]) -> Result<(), Memory>
    ensures ok { OnOk result (out.new.items ≡ out.old.items ++ escapes.field field.now) }
    ensures kept { forms.Keeps out.old.items out.new.items }
{
    if has_escaped(field) {
        push_escaped(out, field)
    } else {
        push_bytes(out, field)
    }
}

/// Appends the name of a member.
pub fn push_member_name(out: &mut Vec<u8>, name: &[u8]) -> Result<(), Memory>
    ensures ok { OnOk result (out.new.items ≡ out.old.items ++ escapes.member_name name.now) }
    ensures kept { forms.Keeps out.old.items out.new.items }
{
    for byte in name {
        push_byte_of_name(out, *byte)?;
    }
    Ok(())
}

/// Appends a word and a field.
pub fn push_worded(out: &mut Vec<u8>, word: &[u8], field: &[u8]) -> Result<(), Memory>
    ensures ok { OnOk result (out.new.items ≡ out.old.items ++ forms.worded word.now field.now) }
    ensures kept { forms.Keeps out.old.items out.new.items }
{
    push_bytes(out, word)?;
    push_field(out, field)
}
