//! The lines of a text, and lines that continue others.
ghost use Rattle.std.specs.Prelude.{◌≡◌, ◌∷◌, ◌<◌, ℕ, List, length, IfSome, IfOk, OnOk};
ghost use Rattle.std.specs.Option.{option_copied};
ghost use Rattle.sd_ldif.specs.Lines as lines;

use sd_pieces::cut;
use std::alloc::{AllocError, Global};

/// A line without the carriage return at its end.
fn without_return(line: &[u8]) -> &[u8]
    ensures { result.now ≡ lines.without_return line.now }
{
    if !line.is_empty() && line[line.len() - 1] == b'\r' {
        return &line[..line.len() - 1];
    }
    line
}

/// A first piece as a line, which has an end where a text is left behind it.
fn ended_piece<'a>(piece: &'a [u8], rest: Option<&[u8]>) -> &'a [u8]
    ensures { result.now ≡ lines.ended_piece piece.now (option_copied rest.entry) }
{
    match rest {
        Some(_) => without_return(piece),
        None => piece,
    }
}

/// The first line, without its end, and the text behind it, where it has an end.
pub fn first_line(text: &[u8]) -> (&[u8], Option<&[u8]>)
    ensures first { lines.lines_of text.now ≡ result.0.now ∷ lines.lines_left (option_copied result.1) }
    ensures shorter { IfSome (option_copied result.1) (λ rest. length rest < length text.now) }
{
    let (piece, rest) = cut(b'\n', text);
    (ended_piece(piece, rest), rest)
}

/// A line with those that continue it.
#[derive(Drop)]
pub struct Line {
    /// The number of the first of them, counted from 1.
    pub number: u32,
    pub text: Vec<u8>,
}

impl Line {
    /// Puts a line behind it that begins with a space.
    pub fn continue_by(&mut self, next: &[u8]) -> Result<(), AllocError>
        requires { 0 < length next.now }
        ensures { OnOk result (lines.seen self.new ≡ lines.continued (lines.seen self.old) next.now) }
    {
        self.text.extend_from_slice(&next[1..])
    }

    /// Is this line from now on.
    pub fn restart(&mut self, number: u32, text: &[u8]) -> Result<(), AllocError>
        ensures { OnOk result (lines.seen self.new ≡ lines.line number text.now) }
    {
        self.number = number;
        self.text.clear();
        self.text.extend_from_slice(text)
    }
}

/// A line alone.
pub fn line_alone(alloc: Global, number: u32, text: &[u8]) -> Result<Line, AllocError>
    ensures { IfOk result (λ made. lines.seen made ≡ lines.line number text.now) }
{
    let text = Vec::from_slice(alloc, text)?;
    Ok(Line { number, text })
}
