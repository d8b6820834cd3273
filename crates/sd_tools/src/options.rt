// Which answers the words behind `cache SOCKET` name.
ghost use Rattle.std.specs.Prelude.{◌≡◌, ◌++◌, ◌<◌, map, string_bytes, length, IfOk, OnOk, IfSome};
ghost use Rattle.std.specs.Option.{option_map};
ghost use Rattle.sd_tools.specs.Options as options;
ghost use Rattle.sd_tools.specs.Replies.{AreSound};

use sd_base::{Copied, Memory, Text};
use sd_rules::What;
use sd_wire::Request;
use sd_wire::requests::is_name;
use std::alloc::Global;

fn is_option(short: &[u8], long: &[u8], word: &[u8]) -> bool
    ensures { result ≡ options.is_option short.now long.now word.now }
{
    word == short || word == long
}

/// An option that stands alone.
fn flag_of(word: &[u8]) -> Option<What>
    ensures { result ≡ options.flag_of word.now }
{
    if is_option(b"-E", b"--everything", word) {
        Some(What::All)
    } else if is_option(b"-U", b"--users", word) {
        Some(What::Users)
    } else if is_option(b"-G", b"--groups", word) {
        Some(What::Groups)
    } else {
        None
    }
}

fn begins_with_hyphen(name: &[u8]) -> bool
    ensures { result ≡ options.begins_with_hyphen name.now }
{
    match name {
        [first, ..] => *first == b'-',
        [] => false,
    }
}

fn is_option_name(name: &[u8]) -> bool
    ensures { result ≡ options.is_option_name name.now }
{
    is_name(name) && !begins_with_hyphen(name)
}

fn named_option(alloc: Global, word: &[u8], name: &[u8]) -> Result<Option<What>, Memory>
    ensures { IfOk result (λ what. what ≡ options.named_option word.now name.now) }
{
    if is_option(b"-u", b"--user", word) {
        Ok(Some(What::User(Text::from_bytes(alloc, name)?)))
    } else if is_option(b"-g", b"--group", word) {
        Ok(Some(What::Group(Text::from_bytes(alloc, name)?)))
    } else {
        Ok(None)
    }
}

/// An option with its name.
fn named_of(alloc: Global, word: &[u8], name: &[u8]) -> Result<Option<What>, Memory>
    ensures { IfOk result (λ what. what ≡ options.named_of word.now name.now) }
{
    if !is_option_name(name) {
        return Ok(None);
    }
    named_option(alloc, word, name)
}

/// The option in front of words, with what is behind it.
fn item_in(alloc: Global, words: &[String]) -> Result<Option<(What, &[String])>, Memory>
    requires { 0 < length words.now }
    ensures { IfOk result (λ found. options.IsFront (option_map (λ f. (f.0, map string_bytes f.1.now)) found) (map string_bytes words.now)) }
{
    let [word, more @ ..] = words else {
        return Ok(None);
    };
    if let Some(item) = flag_of(word.as_bytes()) {
        return Ok(Some((item, more)));
    }
    let [name, rest @ ..] = more else {
        return Ok(None);
    };
    let Some(item) = named_of(alloc, word.as_bytes(), name.as_bytes())? else {
        return Ok(None);
    };
    Ok(Some((item, rest)))
}

/// The options of words, in their order, where the words are options.
fn items_of(alloc: Global, words: &[String]) -> Result<Option<Vec<What>>, Memory>
    ensures { IfOk result (λ found. option_map (λ items. items.items) found ≡ options.items_of (map string_bytes words.now)) }
{
    let mut items = Vec::new(alloc);
    let mut rest = words;
    while !rest.is_empty() {
        let Some((item, behind)) = item_in(alloc, rest)? else {
            return Ok(None);
        };
        items.push(item)?;
        rest = behind;
    }
    Ok(Some(items))
}

fn place_of(what: &What) -> u8
    ensures { result ≡ options.place_of what.now }
{
    match what {
        What::All => 0,
        What::User(_) => 1,
        What::Users => 2,
        What::Group(_) => 3,
        What::Groups => 4,
    }
}

fn has_place(place: u8, items: &[What]) -> bool
    ensures { result ≡ options.has_place place items.now }
{
    items.iter().any(|item| place_of(item) == place)
}

/// Whether no option stands twice.
fn are_once(items: &[What]) -> bool
    ensures { result ≡ options.are_once items.now }
{
    let mut rest = items;
    while let [item, more @ ..] = rest {
        if has_place(place_of(item), more) {
            return false;
        }
        rest = more;
    }
    true
}

fn push_at(requests: &mut Vec<Request>, place: u8, items: &[What]) -> Result<(), Memory>
    ensures { OnOk result (requests.new.items ≡ requests.old.items ++ options.voids_at place items.now) }
{
    for item in items {
        if place_of(item) == place {
            requests.push(Request::Void(item.copy()?))?;
        }
    }
    Ok(())
}

/// The requests of options, in the order in which they are sent.
fn in_order(alloc: Global, items: &[What]) -> Result<Vec<Request>, Memory>
    ensures { IfOk result (λ requests. requests.items ≡ options.in_order items.now) }
{
    let mut requests = Vec::new(alloc);
    push_at(&mut requests, 0, items)?;
    push_at(&mut requests, 1, items)?;
    push_at(&mut requests, 2, items)?;
    push_at(&mut requests, 3, items)?;
    push_at(&mut requests, 4, items)?;
    Ok(requests)
}

fn requests_by_words(alloc: Global, words: &[String]) -> Result<Option<Vec<Request>>, Memory>
    ensures { IfOk result (λ found. option_map (λ requests. requests.items) found ≡ options.requests_of (map string_bytes words.now)) }
{
    let Some(items) = items_of(alloc, words)? else {
        return Ok(None);
    };
    if items.is_empty() || !are_once(items.as_slice()) {
        return Ok(None);
    }
    Ok(Some(in_order(alloc, items.as_slice())?))
}

/// The requests of words, in the order in which they are sent, where the words have a form.
#[tactic(auto, using(crate::proofs::Sound::requests_sound))]
pub fn requests_of(alloc: Global, words: &[String]) -> Result<Option<Vec<Request>>, Memory>
    ensures requests { IfOk result (λ found. option_map (λ requests. requests.items) found ≡ options.requests_of (map string_bytes words.now)) }
    ensures sound { IfOk result (λ found. IfSome found (λ requests. AreSound requests.items)) }
{
    requests_by_words(alloc, words)
}
