// The head of a scenario, which gives the configuration.
ghost use Rattle.std.specs.Prelude.{◌≡◌, ℕ, ◌^◌, ◌+◌, ◌<◌, ◌≤◌, ◌++◌, ◌∷◌, [], length, map, codes, IfOk, OnOk, Some};
ghost use Rattle.std.specs.Option.{option_copied, option_map};
ghost use Rattle.sd_layout.specs.Blocks.{bytes_left};
ghost use Rattle.sd_layout.specs.Head as heads;
ghost use Rattle.sd_layout.specs.Seen.{head_seen};
ghost use Rattle.sd_lines.specs.Lines as lines;
ghost use Rattle.sd_lines.specs.Words as words;

use crate::blocks::{begins_block, ends_block};
use sd_base::{Memory, Text};
use sd_lines::words::{first_word, is_word};
use sd_lines::{cut, is_blank, line_of};
use std::alloc::Global;
use std::marker::Model;

/// Where a scenario's configuration comes from: its text; for each line of it the line of the scenario; and the line that is at
/// fault where a refusal names none. Lines are counted from 1.
#[derive(Drop)]
pub struct Origin {
    text: Vec<u8>,
    numbers: Vec<u64>,
    last: u64,
}

impl Model for Origin {
    ghost use Rattle.sd_layout.specs.Head as heads;

    ghost Value = { heads.Origin };

    ghost view = { λ o. record { text = o.text.items; numbers = o.numbers.items; last = o.last } };
}

/// The head of a scenario.
pub struct Head<'a> {
    pub origin: Origin,
    /// Whether its block, where it has one, ends.
    pub is_whole: bool,
    /// The number of the first line behind it.
    pub number: u64,
    /// The lines behind it.
    pub body: Option<&'a [u8]>,
}

impl Drop for Head<'_> {
    fn drop(self) {
        let Head {
            origin: _,
            is_whole: _,
            number: _,
            body: _,
        } = self;
    }
}

impl Origin {
    /// That of a block without lines.
    fn of_block(alloc: Global) -> Origin
        ensures { result ≡ heads.block_origin }
    {
        Origin {
            text: Vec::new(alloc),
            numbers: Vec::new(alloc),
            last: 1,
        }
    }

    /// That of the configuration where a scenario gives none.
    fn of_default(alloc: Global) -> Result<Origin, Memory>
        ensures { IfOk result (λ origin. origin ≡ heads.default_origin) }
    {
        let text =
            b"[sssd]\ndomains = test\n[domain/test]\nid_provider = ldap\nldap_uri = ldap://s0\nldap_search_base = dc=test\nipa_hostname = client.test\n";
        Ok(Origin {
            text: Vec::from_slice(alloc, text)?,
            numbers: vec![in alloc; 1, 1, 1, 1, 1, 1, 1]?,
            last: 1,
        })
    }

    /// The text.
    pub fn text(&self) -> &[u8]
        ensures { result.now ≡ self.now.text }
    {
        self.text.as_slice()
    }

    /// The line that is at fault where a refusal names none.
    pub fn last(&self) -> u64
        ensures { result ≡ self.now.last }
    {
        self.last
    }

    /// The line of the scenario that a line of the text comes from.
    pub fn line_in(&self, line: u32) -> u64
        ensures { result ≡ heads.line_in self.now line }
    {
        let place = line.saturating_sub(1) as usize;
        match self.numbers.get(place) {
            Some(number) => *number,
            None => self.last,
        }
    }

    fn add_line(&mut self, number: u64, line: &[u8]) -> Result<(), Memory>
        ensures { OnOk result (self.new ≡ heads.with_line self.old number line.now) }
    {
        self.text.extend_from_slice(line)?;
        self.text.extend_from_slice(b"\n")?;
        self.numbers.push(number)?;
        Ok(())
    }

    fn add_setting(&mut self, number: u64, text: &Text) -> Result<(), Memory>
        ensures { OnOk result (self.new ≡ heads.with_setting self.old number (Some text.now)) }
    {
        self.text.extend_from_slice(text.bytes())?;
        self.numbers.push(number)?;
        self.numbers.push(number)?;
        self.last = number;
        Ok(())
    }

    fn end(&mut self, number: u64)
        ensures { self.new ≡ heads.ended self.old number }
    {
        self.last = number;
    }
}

/// Whether a line is one without words, or a comment.
fn is_passed_over(alloc: Global, line: &[u8]) -> Result<bool, Memory>
    ensures { IfOk result (λ passed. passed ≡ lines.is_blank (lines.line_of line.now)) }
{
    let form = line_of(alloc, line)?;
    Ok(is_blank(&form))
}

/// The section's line of a word.
fn section_of(word: &[u8]) -> Option<&[u8]>
    ensures { option_copied result ≡ heads.section_of word.now }
{
    if word == b"sssd".as_slice() {
        return Some(b"[sssd]\n");
    }
    if word == b"nss".as_slice() {
        return Some(b"[nss]\n");
    }
    if word == b"pam".as_slice() {
        return Some(b"[pam]\n");
    }
    if word == b"domain".as_slice() {
        return Some(b"[domain/test]\n");
    }
    None
}

fn rest_of(rest: Option<&[u8]>) -> &[u8]
    ensures { result.now ≡ heads.rest_of (option_copied rest.entry) }
{
    match rest {
        Some(rest) => rest,
        None => b"",
    }
}

fn option_text(alloc: Global, section: &[u8], option: &[u8], value: &[u8]) -> Result<Text, Memory>
    ensures { IfOk result (λ text. text ≡ heads.option_text section.now option.now value.now) }
{
    let mut text = Vec::new(alloc);
    text.extend_from_slice(section)?;
    text.extend_from_slice(option)?;
    text.extend_from_slice(b" = ")?;
    text.extend_from_slice(value)?;
    text.extend_from_slice(b"\n")?;
    Text::from_bytes(alloc, text.as_slice())
}

fn setting_by_words(
    alloc: Global,
    section: Option<&[u8]>,
    option: &[u8],
    equals: &[u8],
    value: Option<&[u8]>,
) -> Result<Option<Text>, Memory>
    ensures { IfOk result (λ text. text ≡ heads.setting_by_words (option_copied section.entry) option.now equals.now (option_copied value.entry)) }
{
    let Some(section) = section else {
        return Ok(None);
    };
    if !is_word(option) {
        return Ok(None);
    }
    if equals != b"=".as_slice() {
        return Ok(None);
    }
    Ok(Some(option_text(alloc, section, option, rest_of(value))?))
}

fn setting_by_option(
    alloc: Global,
    section: Option<&[u8]>,
    option: &[u8],
    rest: &[u8],
) -> Result<Option<Text>, Memory>
    ensures { IfOk result (λ text. text ≡ heads.setting_by_equals (option_copied section.entry) option.now (words.first_word rest.now)) }
{
    let (equals, value) = first_word(rest);
    setting_by_words(alloc, section, option, equals, value)
}

fn setting_by_section(
    alloc: Global,
    section: Option<&[u8]>,
    rest: &[u8],
) -> Result<Option<Text>, Memory>
    ensures { IfOk result (λ text. text ≡ heads.setting_by_option (option_copied section.entry) (words.first_word rest.now)) }
{
    let (option, rest) = first_word(rest);
    setting_by_option(alloc, section, option, rest_of(rest))
}

fn setting_by_set(alloc: Global, rest: &[u8]) -> Result<Option<Text>, Memory>
    ensures { IfOk result (λ text. text ≡ heads.setting_by_section (words.first_word rest.now)) }
{
    let (section, rest) = first_word(rest);
    setting_by_section(alloc, section_of(section), rest_of(rest))
}

/// The text that a line adds to the configuration, where it sets an option.
fn setting_of(alloc: Global, line: &[u8]) -> Result<Option<Text>, Memory>
    ensures { IfOk result (λ text. text ≡ heads.setting_of line.now) }
{
    let (set, rest) = first_word(line);
    if set != b"set".as_slice() {
        return Ok(None);
    }
    setting_by_set(alloc, rest_of(rest))
}

/// The head of a scenario that begins with a block; the block's lines are those left.
fn block_from(alloc: Global, first: u64, lines: Option<&[u8]>) -> Result<Head<'_>, Memory>
    requires { first + bytes_left (option_copied lines) < 2 ^ 33 }
    ensures head { IfOk result (λ head. head_seen head ≡ heads.block_from first (first + 1) heads.block_origin (words.pieces_in 10 (option_copied lines.entry))) }
    ensures room { IfOk result (λ head. head.number + bytes_left (option_copied head.body) ≤ first + 1 + bytes_left (option_copied lines.entry)) }
{
    let mut origin = Origin::of_block(alloc);
    let mut number = first + 1;
    let mut left = lines;
    while let Some(bytes) = left {
        let (line, rest) = cut(b'\n', bytes);
        if ends_block(line) {
            origin.end(number);
            return Ok(Head {
                origin,
                is_whole: true,
                number: number + 1,
                body: rest,
            });
        }
        origin.add_line(number, line)?;
        number += 1;
        left = rest;
    }
    origin.end(first);
    Ok(Head {
        origin,
        is_whole: false,
        number,
        body: None,
    })
}

/// The head of a scenario without a block: the lines left that set options, up to the first other line.
fn settings_from(alloc: Global, first: u64, lines: Option<&[u8]>) -> Result<Head<'_>, Memory>
    requires { first + bytes_left (option_copied lines) < 2 ^ 33 }
    ensures head { IfOk result (λ head. head_seen head ≡ heads.settings_from first heads.default_origin (words.pieces_in 10 (option_copied lines.entry))) }
    ensures room { IfOk result (λ head. head.number + bytes_left (option_copied head.body) ≤ first + bytes_left (option_copied lines.entry)) }
{
    let mut origin = Origin::of_default(alloc)?;
    let mut number = first;
    let mut left = lines;
    while let Some(bytes) = left {
        let (line, rest) = cut(b'\n', bytes);
        if !is_passed_over(alloc, line)? {
            let Some(text) = setting_of(alloc, line)? else {
                break;
            };
            origin.add_setting(number, &text)?;
        }
        number += 1;
        left = rest;
    }
    Ok(Head {
        origin,
        is_whole: true,
        number,
        body: left,
    })
}

/// The head of a scenario, of less than 4 GiB.
pub fn head_of(alloc: Global, text: &[u8]) -> Result<Head<'_>, Memory>
    requires { length text.now < 2 ^ 32 }
    ensures head { IfOk result (λ head. head_seen head ≡ heads.head_of text.now) }
    ensures room { IfOk result (λ head. head.number + bytes_left (option_copied head.body) ≤ length text.now + 2) }
{
    let mut number = 1;
    let mut left = Some(text);
    while let Some(bytes) = left {
        let (line, rest) = cut(b'\n', bytes);
        if !is_passed_over(alloc, line)? {
            if begins_block(alloc, b"conf", line)? {
                return block_from(alloc, number, rest);
            }
            break;
        }
        number += 1;
        left = rest;
    }
    settings_from(alloc, number, left)
}
