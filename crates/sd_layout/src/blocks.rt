// The lines of a scenario with their numbers, a block of directory entries being one of them.
ghost use Rattle.std.specs.Prelude.{◌≡◌, ℕ, ◌^◌, ◌+◌, ◌<◌, ◌≤◌, ◌∷◌, [], length, map, codes, IfOk, OnOk};
ghost use Rattle.std.specs.Option.{option_copied};
ghost use Rattle.sd_ldif.specs.Records.{ldif_of};
ghost use Rattle.sd_layout.specs.Blocks as blocks;
ghost use Rattle.sd_layout.specs.Laws.{HasBlocks};
ghost use Rattle.sd_lines.specs.declared.lines.Line.TheVariants.{Bad};
ghost use Rattle.sd_lines.specs.Words as words;

use sd_base::Memory;
use sd_ldif::{LdifFault, read_ldif};
use sd_lines::words::words_of;
use sd_lines::{Line, cut, is_comment, line_of};
use std::alloc::Global;
use std::marker::Model;

/// A line of a scenario and its number, counted from 1. A block is one of them; where it is bad, the number is that of the
/// line in it that is at fault.
pub struct Statement {
    pub number: u64,
    pub line: Line,
}

impl Drop for Statement {
    fn drop(self) {
        let Statement { number: _, line: _ } = self;
    }
}

/// The first of some lines, or their first block, and what comes behind it.
pub struct Next<'a> {
    pub statement: Statement,
    /// The number of the first line behind it.
    pub number: u64,
    /// The lines behind it.
    pub rest: Option<&'a [u8]>,
}

impl Drop for Next<'_> {
    fn drop(self) {
        let Next {
            statement: _,
            number: _,
            rest: _,
        } = self;
    }
}

/// A block that has not ended.
#[derive(Drop)]
pub struct Block {
    first: u64,
    text: Vec<u8>,
}

impl Model for Block {
    ghost use Rattle.sd_layout.specs.Blocks as blocks;

    ghost Value = { blocks.Block };

    ghost view = { λ b. record { first = b.first; text = b.text.items } };
}

fn is_alone(word: &[u8], ws: &[&[u8]]) -> bool
    ensures { result ≡ blocks.is_alone word.now (map (λ w. w.now) ws.now) }
{
    match ws {
        [first] => *first == word,
        _ => false,
    }
}

/// Whether a block begins with a line, whose one word is this.
pub fn begins_block(alloc: Global, word: &[u8], line: &[u8]) -> Result<bool, Memory>
    ensures { IfOk result (λ begins. begins ≡ blocks.begins_block word.now line.now) }
{
    if is_comment(line) {
        return Ok(false);
    }
    let ws = words_of(alloc, line)?;
    Ok(is_alone(word, ws.as_slice()))
}

/// Whether a block ends with a line.
pub fn ends_block(line: &[u8]) -> bool
    ensures { result ≡ blocks.ends_block line.now }
{
    line == b".".as_slice()
}

fn bad_line(number: u64) -> Statement
    ensures { result ≡ blocks.statement number Bad }
{
    Statement {
        number,
        line: Line::Bad,
    }
}

fn refused_line(fault: LdifFault) -> u32
    ensures { result ≡ blocks.refused_line fault }
{
    match fault {
        LdifFault::BadLine(line) | LdifFault::BadBase64(line) | LdifFault::NoDn(line) => line,
        LdifFault::Memory => 0,
    }
}

impl Block {
    fn begin(alloc: Global, first: u64) -> Block
        ensures { result ≡ record { first = first; text = [] } }
    {
        Block {
            first,
            text: Vec::new(alloc),
        }
    }

    fn add_line(&mut self, line: &[u8]) -> Result<(), Memory>
        ensures { OnOk result (self.new ≡ blocks.with_line self.old line.now) }
    {
        self.text.extend_from_slice(line)?;
        self.text.extend_from_slice(b"\n")?;
        Ok(())
    }

    /// What it asks for, once it has ended.
    fn statement(&self, alloc: Global) -> Result<Statement, Memory>
        requires { self.now.first < 2 ^ 33 }
        ensures { IfOk result (λ statement. statement ≡ blocks.block_statement self.now) }
    {
        match read_ldif(alloc, self.text.as_slice()) {
            Ok(entries) => Ok(Statement {
                number: self.first,
                line: Line::Ldif(entries),
            }),
            Err(LdifFault::Memory) => Err(Memory),
            Err(fault) => Ok(bad_line(self.first + u64::from(refused_line(fault)))),
        }
    }
}

/// A block whose first line has the number `first`; the lines behind that one are left.
fn block_from(alloc: Global, first: u64, lines: Option<&[u8]>) -> Result<Next<'_>, Memory>
    requires { first + blocks.bytes_left (option_copied lines) < 2 ^ 33 }
    ensures told { IfOk result (λ next. blocks.statements_in_block first (option_copied lines.entry) ≡ next.statement ∷ blocks.statements_left next.number (option_copied next.rest)) }
    ensures later { IfOk result (λ next. first < next.number) }
    ensures shorter { IfOk result (λ next. blocks.bytes_left (option_copied next.rest) ≤ blocks.bytes_left (option_copied lines.entry)) }
    ensures room { IfOk result (λ next. next.number + blocks.bytes_left (option_copied next.rest) ≤ first + 1 + blocks.bytes_left (option_copied lines.entry)) }
{
    let mut block = Block::begin(alloc, first);
    let mut number = first + 1;
    let mut left = lines;
    while let Some(bytes) = left {
        let (line, rest) = cut(b'\n', bytes);
        number += 1;
        left = rest;
        if ends_block(line) {
            return Ok(Next {
                statement: block.statement(alloc)?,
                number,
                rest,
            });
        }
        block.add_line(line)?;
    }
    Ok(Next {
        statement: bad_line(first),
        number,
        rest: None,
    })
}

/// The first line of a text, or the block that begins there, and what comes behind it.
pub fn first_statement(alloc: Global, number: u64, text: &[u8]) -> Result<Next<'_>, Memory>
    requires { number + length text.now + 1 < 2 ^ 33 }
    ensures told { IfOk result (λ next. blocks.statements_of number (words.lines_of text.now) ≡ next.statement ∷ blocks.statements_left next.number (option_copied next.rest)) }
    ensures later { IfOk result (λ next. number < next.number) }
    ensures room { IfOk result (λ next. next.number + blocks.bytes_left (option_copied next.rest) ≤ number + length text.now + 1) }
    ensures shorter { IfOk result (λ next. blocks.bytes_left (option_copied next.rest) ≤ length text.now) }
{
    let (line, rest) = cut(b'\n', text);
    if begins_block(alloc, b"ldif", line)? {
        return block_from(alloc, number, rest);
    }
    let statement = Statement {
        number,
        line: line_of(alloc, line)?,
    };
    Ok(Next {
        statement,
        number: number + 1,
        rest,
    })
}

/// Lines stand by themselves but in blocks, and the text of a block is all lines up to its dot: a law without code.
pub fn reads_blocks_whole()
    ensures { HasBlocks }
{}
