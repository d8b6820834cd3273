// Lines that put hosts, services and access rules, and lines that take entries out.
ghost use Rattle.std.specs.Prelude.{◌≡◌, ℕ, map, IfOk, Some};
ghost use Rattle.std.specs.Option.{option_copied};
ghost use Rattle.sd_lines.specs.Access as access;
ghost use Rattle.sd_lines.specs.Words as words;

use crate::lines::{HostLine, Item, ItemList, Kind, Line, RuleLine, ServiceLine, Side, Whom};
use crate::words::{are_short_names, cut, first_of, is_short_name, pair_of, tag_of, texts_of};
use sd_base::{Memory, Text};
use std::alloc::Global;

fn host_line(alloc: Global, name: &[u8], groups: &[&[u8]]) -> Result<Line, Memory>
    ensures { IfOk result (λ line. line ≡ access.host_by_words (Some (name.now, map (λ w. w.now) groups.now))) }
{
    if !is_short_name(name) {
        return Ok(Line::Bad);
    }
    if !are_short_names(groups) {
        return Ok(Line::Bad);
    }
    let name = Text::from_bytes(alloc, name)?;
    let groups = texts_of(alloc, groups)?;
    Ok(Line::Host(HostLine { name, groups }))
}

/// `host NAME GROUP...`, of the words behind the first.
pub fn host_form(alloc: Global, ws: &[&[u8]]) -> Result<Line, Memory>
    ensures { IfOk result (λ line. line ≡ access.host_by_words (words.first_of (map (λ w. w.now) ws.now))) }
{
    match first_of(ws) {
        Some((name, groups)) => host_line(alloc, name, groups),
        None => Ok(Line::Bad),
    }
}

fn service_line(alloc: Global, name: &[u8], groups: &[&[u8]]) -> Result<Line, Memory>
    ensures { IfOk result (λ line. line ≡ access.service_by_words (Some (name.now, map (λ w. w.now) groups.now))) }
{
    if !is_short_name(name) {
        return Ok(Line::Bad);
    }
    if !are_short_names(groups) {
        return Ok(Line::Bad);
    }
    let name = Text::from_bytes(alloc, name)?;
    let groups = texts_of(alloc, groups)?;
    Ok(Line::Service(ServiceLine { name, groups }))
}

/// `service NAME GROUP...`, of the words behind the first.
pub fn service_form(alloc: Global, ws: &[&[u8]]) -> Result<Line, Memory>
    ensures { IfOk result (λ line. line ≡ access.service_by_words (words.first_of (map (λ w. w.now) ws.now))) }
{
    match first_of(ws) {
        Some((name, groups)) => service_line(alloc, name, groups),
        None => Ok(Line::Bad),
    }
}

fn side_of(word: &[u8]) -> Option<Side>
    ensures { result ≡ access.side_of word.now }
{
    if word == b"user".as_slice() {
        return Some(Side::User);
    }
    if word == b"host".as_slice() {
        return Some(Side::Host);
    }
    if word == b"service".as_slice() {
        return Some(Side::Service);
    }
    None
}

/// The letter that stands before a name of this side.
fn letter_of(side: Side) -> u8
    ensures { result ≡ access.letter_of side }
{
    match side {
        Side::User => b'u',
        Side::Host => b'h',
        Side::Service => b's',
    }
}

fn whom_named(alloc: Global, side: Side, letter: u8, name: &[u8]) -> Result<Option<Whom>, Memory>
    ensures { IfOk result (λ whom. whom ≡ access.whom_by_tag side (Some (letter, name.now))) }
{
    if !is_short_name(name) {
        return Ok(None);
    }
    if letter == letter_of(side) {
        return Ok(Some(Whom::Name(Text::from_bytes(alloc, name)?)));
    }
    if letter == b'g' {
        return Ok(Some(Whom::Group(Text::from_bytes(alloc, name)?)));
    }
    Ok(None)
}

fn whom_of(alloc: Global, side: Side, word: &[u8]) -> Result<Option<Whom>, Memory>
    ensures { IfOk result (λ whom. whom ≡ access.whom_of side word.now) }
{
    if word == b"all".as_slice() {
        return Ok(Some(Whom::All));
    }
    match tag_of(word) {
        Some((letter, name)) => whom_named(alloc, side, letter, name),
        None => Ok(None),
    }
}

fn item_on(alloc: Global, side: Option<Side>, word: &[u8]) -> Result<Option<Item>, Memory>
    ensures { IfOk result (λ item. item ≡ access.item_on side word.now) }
{
    let Some(side) = side else {
        return Ok(None);
    };
    match whom_of(alloc, side, word)? {
        Some(whom) => Ok(Some(Item { side, whom })),
        None => Ok(None),
    }
}

fn item_of(alloc: Global, word: &[u8]) -> Result<Option<Item>, Memory>
    ensures { IfOk result (λ item. item ≡ access.item_of word.now) }
{
    let (side, whom) = cut(b'=', word);
    match whom {
        Some(whom) => item_on(alloc, side_of(side), whom),
        None => Ok(None),
    }
}

/// The items of all words, where each is one.
#[tactic(auto, using(crate::proofs::Collecting::collecting))]
fn items_of(alloc: Global, ws: &[&[u8]]) -> Result<Option<ItemList>, Memory>
    ensures { IfOk result (λ items. items ≡ access.items_of (map (λ w. w.now) ws.now)) }
{
    let mut items = ItemList::new(alloc);
    for word in ws {
        let Some(item) = item_of(alloc, word)? else {
            return Ok(None);
        };
        items.push(item)?;
    }
    Ok(Some(items))
}

fn rule_with(
    alloc: Global,
    name: &[u8],
    is_enabled: bool,
    items: Option<ItemList>,
) -> Result<Line, Memory>
    ensures { IfOk result (λ line. line ≡ access.rule_with name.now is_enabled items) }
{
    let Some(items) = items else {
        return Ok(Line::Bad);
    };
    if !is_short_name(name) {
        return Ok(Line::Bad);
    }
    let name = Text::from_bytes(alloc, name)?;
    Ok(Line::Rule(RuleLine {
        name,
        is_enabled,
        items,
    }))
}

fn is_word_disabled(ws: &[&[u8]]) -> bool
    ensures { result ≡ access.is_word_disabled (map (λ w. w.now) ws.now) }
{
    match ws {
        [] => false,
        [first, ..] => *first == b"disabled".as_slice(),
    }
}

/// The words of the items, of those behind a rule's name.
fn item_words<'a, 'b>(ws: &'b [&'a [u8]]) -> &'b [&'a [u8]]
    ensures { map (λ w. w.now) result.now ≡ access.item_words (map (λ w. w.now) ws.now) }
{
    match ws {
        [first, rest @ ..] if *first == b"disabled".as_slice() => rest,
        _ => ws,
    }
}

fn rule_line(alloc: Global, name: &[u8], ws: &[&[u8]]) -> Result<Line, Memory>
    ensures { IfOk result (λ line. line ≡ access.rule_by_words (Some (name.now, map (λ w. w.now) ws.now))) }
{
    let items = items_of(alloc, item_words(ws))?;
    rule_with(alloc, name, !is_word_disabled(ws), items)
}

/// `rule NAME [disabled] ITEM...`, of the words behind the first.
pub fn rule_form(alloc: Global, ws: &[&[u8]]) -> Result<Line, Memory>
    ensures { IfOk result (λ line. line ≡ access.rule_by_words (words.first_of (map (λ w. w.now) ws.now))) }
{
    match first_of(ws) {
        Some((name, rest)) => rule_line(alloc, name, rest),
        None => Ok(Line::Bad),
    }
}

fn kind_of(word: &[u8]) -> Option<Kind>
    ensures { result ≡ access.kind_of word.now }
{
    if word == b"user".as_slice() {
        return Some(Kind::User);
    }
    if word == b"group".as_slice() {
        return Some(Kind::Group);
    }
    if word == b"host".as_slice() {
        return Some(Kind::Host);
    }
    if word == b"service".as_slice() {
        return Some(Kind::Service);
    }
    if word == b"rule".as_slice() {
        return Some(Kind::Rule);
    }
    None
}

fn removed(alloc: Global, kind: Option<Kind>, name: &[u8]) -> Result<Line, Memory>
    ensures { IfOk result (λ line. line ≡ access.removed kind name.now) }
{
    let Some(kind) = kind else {
        return Ok(Line::Bad);
    };
    if !is_short_name(name) {
        return Ok(Line::Bad);
    }
    Ok(Line::Remove(kind, Text::from_bytes(alloc, name)?))
}

/// `remove KIND NAME`, of the words behind the first.
pub fn remove_form(alloc: Global, ws: &[&[u8]]) -> Result<Line, Memory>
    ensures { IfOk result (λ line. line ≡ access.remove_by_words (words.pair_of (map (λ w. w.now) ws.now))) }
{
    match pair_of(ws) {
        Some((kind, name)) => removed(alloc, kind_of(kind), name),
        None => Ok(Line::Bad),
    }
}
