// What the words behind `query SOCKET` ask.
ghost use Rattle.std.specs.Prelude.{◌≡◌, map, string_bytes, IfOk, IfSome, true};
ghost use Rattle.sd_tools.specs.Queries as queries;

use sd_base::{Memory, Text};
use sd_pieces::number_up_to;
use sd_wire::Request;
use sd_wire::requests::is_name;
use std::alloc::Global;

/// What words ask.
#[derive(Drop)]
pub enum Query {
    /// A request that the words tell whole.
    Asked(Request),
    /// A login of this user, with the password that the input gives.
    Login(Text),
}

fn has_leading_zero(word: &[u8]) -> bool
    ensures { result ≡ queries.has_leading_zero word.now }
{
    match word {
        [first, rest @ ..] => *first == b'0' && !rest.is_empty(),
        [] => false,
    }
}

/// A number that fits 32 bits: decimal digits without a sign and without a leading zero.
fn id_of(word: &[u8]) -> Option<u32>
    ensures { result ≡ queries.id_of word.now }
{
    if has_leading_zero(word) {
        return None;
    }
    let Some(id) = number_up_to(u64::from(u32::MAX), word) else {
        return None;
    };
    Some(id as u32)
}

fn name_of(alloc: Global, word: &[u8]) -> Result<Option<Text>, Memory>
    ensures { IfOk result (λ name. name ≡ queries.name_of word.now) }
{
    if !is_name(word) {
        return Ok(None);
    }
    Ok(Some(Text::from_bytes(alloc, word)?))
}

fn order_of(word: &[u8]) -> Option<Request>
    ensures { result ≡ queries.order_of word.now }
{
    if word == b"offline".as_slice() {
        Some(Request::Offline)
    } else if word == b"online".as_slice() {
        Some(Request::Online)
    } else if word == b"stop".as_slice() {
        Some(Request::Stop)
    } else {
        None
    }
}

fn lookup_of(alloc: Global, word: &[u8], name: &[u8]) -> Result<Option<Request>, Memory>
    ensures { IfOk result (λ request. request ≡ queries.lookup_of word.now name.now) }
{
    if word == b"user".as_slice() {
        Ok(name_of(alloc, name)?.map(Request::User))
    } else if word == b"uid".as_slice() {
        Ok(id_of(name).map(Request::Uid))
    } else if word == b"group".as_slice() {
        Ok(name_of(alloc, name)?.map(Request::Group))
    } else if word == b"gid".as_slice() {
        Ok(id_of(name).map(Request::Gid))
    } else if word == b"groups".as_slice() {
        Ok(name_of(alloc, name)?.map(Request::GroupsOf))
    } else {
        Ok(None)
    }
}

fn named_query(alloc: Global, word: &[u8], name: &[u8]) -> Result<Option<Query>, Memory>
    ensures { IfOk result (λ query. query ≡ queries.named_query word.now name.now) }
{
    if word == b"login".as_slice() {
        Ok(name_of(alloc, name)?.map(Query::Login))
    } else {
        Ok(lookup_of(alloc, word, name)?.map(Query::Asked))
    }
}

fn check_of(
    alloc: Global,
    word: &[u8],
    user: &[u8],
    service: &[u8],
) -> Result<Option<Request>, Memory>
    ensures { IfOk result (λ request. request ≡ queries.check_of word.now user.now service.now) }
{
    if !(word == b"access".as_slice() && is_name(user) && is_name(service)) {
        return Ok(None);
    }
    let user = Text::from_bytes(alloc, user)?;
    let service = Text::from_bytes(alloc, service)?;
    Ok(Some(Request::Access(user, service)))
}

fn query_by_words(alloc: Global, words: &[String]) -> Result<Option<Query>, Memory>
    ensures { IfOk result (λ query. query ≡ queries.query_of (map string_bytes words.now)) }
{
    match words {
        [word] => Ok(order_of(word.as_bytes()).map(Query::Asked)),
        [word, name] => named_query(alloc, word.as_bytes(), name.as_bytes()),
        [word, user, service] => {
            Ok(check_of(alloc, word.as_bytes(), user.as_bytes(), service.as_bytes())?.map(
                Query::Asked,
            ))
        }
        _ => Ok(None),
    }
}

/// The query that words ask, where they have a form.
#[tactic(auto, using(crate::proofs::Sound::query_sound))]
pub fn query_of(alloc: Global, words: &[String]) -> Result<Option<Query>, Memory>
    ensures query { IfOk result (λ query. query ≡ queries.query_of (map string_bytes words.now)) }
    ensures sound { IfOk result (λ query. IfSome query (λ q. queries.is_sound_query q ≡ true)) }
{
    query_by_words(alloc, words)
}
