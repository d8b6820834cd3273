//! What a line says by itself.
ghost use Rattle.std.specs.Prelude.{◌≡◌, ℕ, List, codes, Option, IfOk};
ghost use Rattle.std.specs.Option.{option_copied, option_map};
ghost use Rattle.std.specs.List.{list_all};
ghost use Rattle.sd_ldif.specs.Lines as lines;
ghost use Rattle.sd_ldif.specs.Forms as forms;

use crate::lines::Line;
use base64::DecodeAllocError;
use base64::engine::general_purpose::STANDARD;
use sd_base::{Memory, Text};
use sd_dn::compare::same_text;
use sd_pieces::cut;
use std::alloc::Global;

/// `NAME: TEXT`, or `NAME:: BASE64`.
#[derive(Clone, Copy)]
pub struct Form<'a> {
    pub name: &'a [u8],
    pub is_encoded: bool,
    pub text: &'a [u8],
}

fn is_name_byte(byte: u8) -> bool
    ensures { result ≡ forms.is_name_byte byte }
{
    byte.is_ascii_alphanumeric() || byte == b'-' || byte == b'.'
}

fn are_name_bytes(bytes: &[u8]) -> bool
    ensures { result ≡ list_all forms.is_name_byte bytes.now }
{
    bytes.iter().all(|b| is_name_byte(*b))
}

fn is_name(bytes: &[u8]) -> bool
    ensures { result ≡ forms.is_name bytes.now }
{
    match bytes {
        [] => false,
        [first, rest @ ..] => is_name_byte(*first) && are_name_bytes(rest),
    }
}

fn without_spaces(bytes: &[u8]) -> &[u8]
    ensures { result.now ≡ forms.without_spaces bytes.now }
{
    for (at, b) in bytes.iter().enumerate() {
        if *b != b' ' {
            return &bytes[at..];
        }
    }
    &[]
}

fn form_behind<'a>(name: &'a [u8], behind: &'a [u8]) -> Option<Form<'a>>
    ensures { option_map forms.seen_form result ≡ forms.form_behind name.now behind.now }
{
    match behind {
        [b'<', ..] => None,
        [b':', rest @ ..] => Some(Form {
            name,
            is_encoded: true,
            text: without_spaces(rest),
        }),
        _ => Some(Form {
            name,
            is_encoded: false,
            text: without_spaces(behind),
        }),
    }
}

/// The name and the value of a line, where it has a form.
pub fn form_of(text: &[u8]) -> Option<Form<'_>>
    ensures { option_map forms.seen_form result ≡ forms.form_of text.now }
{
    let (name, behind) = cut(b':', text);
    match behind {
        Some(behind) if is_name(name) => form_behind(name, behind),
        _ => None,
    }
}

/// The bytes of which a text is the base64 (RFC 4648 section 4), where it is one.
fn decoded(alloc: Global, text: &[u8]) -> Result<Option<Text>, Memory>
    ensures { IfOk result (λ value. value ≡ forms.decoded text.now) }
{
    match STANDARD.decode(alloc, text) {
        Ok(bytes) => Ok(Some(Text::from_bytes(alloc, bytes.as_slice())?)),
        Err(DecodeAllocError::DecodeError(_fault)) => Ok(None),
        Err(DecodeAllocError::OutOfMemory) => Err(Memory),
    }
}

/// The value that is meant, where it is no bad base64.
pub fn value_of(alloc: Global, form: &Form<'_>) -> Result<Option<Text>, Memory>
    ensures { IfOk result (λ value. value ≡ forms.value_of (forms.seen_form form.now)) }
{
    if form.is_encoded {
        return decoded(alloc, form.text);
    }
    Ok(Some(Text::from_bytes(alloc, form.text)?))
}

fn is_version(text: &[u8]) -> bool
    ensures { result ≡ forms.is_version_form (forms.form_of text.now) }
{
    match form_of(text) {
        Some(form) => {
            same_text(form.name, b"version") && !form.is_encoded && same_text(form.text, b"1")
        }
        None => false,
    }
}

fn is_comment(text: &[u8]) -> bool
    ensures { result ≡ forms.is_comment text.now }
{
    !text.is_empty() && text[0] == b'#'
}

/// Whether a line is a comment, or `version: 1` as the first line of the text.
pub fn is_passed(line: &Line) -> bool
    ensures { result ≡ forms.is_passed (lines.seen line.now) }
{
    is_comment(line.text.as_slice()) || line.number == 1 && is_version(line.text.as_slice())
}
