// The tools: `query`, which asks the daemon one thing, and `cache`, which has answers asked anew.
ghost use Rattle.std.specs.Prelude.{◌≡◌, ◌≢◌, ◌<◌, ◌⊎◌, [], ◌∷◌, map, string_bytes, length, is_some, true, false, None, IfOk, IfSome};
ghost use Rattle.std.specs.Io.KnownBytes.{Appends};
ghost use Rattle.sd_base.specs.Causes.{Rose};
ghost use Rattle.sd_tools.specs.Endings as endings;
ghost use Rattle.sd_tools.specs.Options as options;
ghost use Rattle.sd_tools.specs.Queries as queries;
ghost use Rattle.sd_tools.specs.Replies as replies;
ghost use Rattle.sd_tools.specs.Words.{IsQueryDone, IsQuerySent, QueryFindsBadReply, IsCacheDone, IsCacheSent, CacheFindsNoDaemon, CacheFindsBadReply};
ghost use Rattle.sd_wire.specs.Frames.{is_sound};

use crate::endings::{
    BAD_REPLY, DONE, NO_DAEMON, NO_MEMORY, READ_FAULT, Status, TOO_LONG, USAGE, WRITE_FAULT, end,
    finish,
};
use crate::links::ask_all;
use crate::options::requests_of;
use crate::passwords::read_password;
use crate::queries::{Query, query_of};
use sd_base::{Memory, ReadEnd, Sink, Source, Texts};
use sd_link::Link;
use sd_wire::Request;
use sd_wire::requests::LONGEST_PASSWORD;
use std::alloc::Global;

/// Whether the words behind `query SOCKET` have a form.
pub fn has_form_of_query(alloc: Global, words: &[String]) -> Result<bool, Memory>
    ensures { IfOk result (λ has. has ≡ is_some (queries.query_of (map string_bytes words.now))) }
{
    Ok(query_of(alloc, words)?.is_some())
}

/// Whether the words behind `cache SOCKET` have a form.
pub fn has_form_of_cache(alloc: Global, words: &[String]) -> Result<bool, Memory>
    ensures { IfOk result (λ has. has ≡ is_some (options.requests_of (map string_bytes words.now))) }
{
    Ok(requests_of(alloc, words)?.is_some())
}

/// Sends requests and prints the replies.
fn talk<W: Sink, L: Link>(alloc: Global, requests: &[Request], sink: &mut W, link: &mut L) -> Status
    requires { replies.AreSound requests.now }
    ensures status { endings.IsTalkStatus result }
    ensures done { result ≡ DONE → replies.IsDoneOver L.Link W.Sink requests.now link.old link.new sink.old sink.new }
    ensures front { replies.IsFrontSentOver L.Link requests.now link.old link.new }
    ensures no_daemon { result ≡ NO_DAEMON → Rose (L.faults link.old) (L.faults link.new) × replies.FindsNoDaemon requests.now (W.held sink.old) (W.held sink.new) }
    ensures bad_reply { result ≡ BAD_REPLY → replies.FindsBadReplyOver L.Link W.Sink requests.now link.old link.new sink.old sink.new }
    ensures write_fault { result ≡ WRITE_FAULT → Rose (W.faults sink.old) (W.faults sink.new) }
    ensures no_memory { result ≡ NO_MEMORY → sink.new ≡ sink.old }
{
    let mut texts = Texts::new(alloc);
    let talked = ask_all(alloc, link, requests, &mut texts);
    finish(alloc, sink, texts.items(), talked)
}

/// The request of a query; the password of a login is the first line of the input.
fn request_for<S: Source>(alloc: Global, query: Query, source: &mut S) -> Result<Request, ReadEnd>
    requires { queries.is_sound_query query ≡ true }
    ensures asked { IfOk result (λ request. endings.OfQuery query (S.left source.old) (λ r. r ≡ request)) }
    ensures sound { IfOk result (λ request. is_sound request ≡ true) }
    ensures unread { queries.needs_password query ≡ false → source.new ≡ source.old }
    ensures failed { result ≡ Err ReadEnd.Failed → Rose (S.faults source.old) (S.faults source.new) }
    ensures too_long { result ≡ Err ReadEnd.TooLong → (queries.needs_password query ≡ true) × IfSome (S.left source.old) (λ input. LONGEST_PASSWORD < length (queries.first_line input)) }
{
    match query {
        Query::Asked(request) => Ok(request),
        Query::Login(user) => {
            let password = read_password(alloc, source)?;
            Ok(Request::Login(user, password))
        }
    }
}

/// Sends a request and prints the reply.
fn ask_one<W: Sink, L: Link>(alloc: Global, request: Request, sink: &mut W, link: &mut L) -> Status
    requires { is_sound request ≡ true }
    ensures status { endings.IsTalkStatus result }
    ensures done { result ≡ DONE → replies.IsDoneOver L.Link W.Sink (request ∷ []) link.old link.new sink.old sink.new }
    ensures front { replies.IsFrontSentOver L.Link (request ∷ []) link.old link.new }
    ensures no_daemon { result ≡ NO_DAEMON → Rose (L.faults link.old) (L.faults link.new) × Appends (W.held sink.old) (W.held sink.new) endings.no_daemon }
    ensures bad_reply { result ≡ BAD_REPLY → replies.FindsBadReplyOver L.Link W.Sink (request ∷ []) link.old link.new sink.old sink.new }
    ensures write_fault { result ≡ WRITE_FAULT → Rose (W.faults sink.old) (W.faults sink.new) }
    ensures no_memory { result ≡ NO_MEMORY → sink.new ≡ sink.old }
{
    talk(alloc, &[request], sink, link)
}

/// Asks what a query asks, and prints the reply.
fn ask_query<S: Source, W: Sink, L: Link>(
    alloc: Global,
    query: Query,
    source: &mut S,
    sink: &mut W,
    link: &mut L,
) -> Status
    requires { queries.is_sound_query query ≡ true }
    ensures status { endings.IsAskStatus result }
    ensures done { result ≡ DONE → endings.OfQuery query (S.left source.old) (λ request. replies.IsDoneOver L.Link W.Sink (request ∷ []) link.old link.new sink.old sink.new) }
    ensures front { endings.OfQuery query (S.left source.old) (λ request. replies.IsFrontSentOver L.Link (request ∷ []) link.old link.new) }
    ensures within { endings.IsTalkStatus result → endings.OfQuery query (S.left source.old) (λ request. endings.IsSoundUnlessFailed result request) }
    ensures unread { queries.needs_password query ≡ false → source.new ≡ source.old }
    ensures read_fault { result ≡ READ_FAULT → Rose (S.faults source.old) (S.faults source.new) × (sink.new ≡ sink.old) × (link.new ≡ link.old) }
    ensures too_long { result ≡ TOO_LONG → (queries.needs_password query ≡ true)
        × IfSome (S.left source.old) (λ input. LONGEST_PASSWORD < length (queries.first_line input))
        × (link.new ≡ link.old)
        × Appends (W.held sink.old) (W.held sink.new) endings.too_long }
    ensures no_daemon { result ≡ NO_DAEMON → Rose (L.faults link.old) (L.faults link.new) × Appends (W.held sink.old) (W.held sink.new) endings.no_daemon }
    ensures bad_reply { result ≡ BAD_REPLY → endings.OfQuery query (S.left source.old) (λ request. replies.FindsBadReplyOver L.Link W.Sink (request ∷ []) link.old link.new sink.old sink.new) }
    ensures write_fault { result ≡ WRITE_FAULT → Rose (W.faults sink.old) (W.faults sink.new) }
    ensures no_memory { result ≡ NO_MEMORY → sink.new ≡ sink.old }
{
    match request_for(alloc, query, source) {
        Ok(request) => ask_one(alloc, request, sink, link),
        Err(ReadEnd::Failed) => READ_FAULT,
        Err(ReadEnd::TooLong) => end(sink, TOO_LONG, b"too long\n"),
        Err(ReadEnd::Memory) => NO_MEMORY,
    }
}

/// Asks the daemon behind a link what the words behind `query SOCKET` ask, and prints the reply. The password of a login is the
/// first line of the input, of at most 1024 bytes.
pub fn query<S: Source, W: Sink, L: Link>(
    alloc: Global,
    words: &[String],
    source: &mut S,
    sink: &mut W,
    link: &mut L,
) -> Status
    ensures status { endings.IsStatusOfQuery result }

    // The frame of the words was sent, no other piece, and the text of the reply was printed.
    ensures done { result ≡ DONE → IsQueryDone L.Link W.Sink (map string_bytes words.now) (S.left source.old) link.old link.new sink.old sink.new }

    // Whatever the status, nothing but the frame of the words was sent.
    ensures front { IsQuerySent L.Link (map string_bytes words.now) (S.left source.old) link.old link.new }

    // The words have no form: nothing is read or sent, and `usage` is written, where the sink takes it.
    ensures usage { result ≡ USAGE → (queries.query_of (map string_bytes words.now) ≡ None) × Appends (W.held sink.old) (W.held sink.new) endings.usage }
    ensures usage_exactly { queries.query_of (map string_bytes words.now) ≡ None → (source.new ≡ source.old)
        × (link.new ≡ link.old)
        × (result ≢ WRITE_FAULT → result ≢ NO_MEMORY → result ≡ USAGE) }

    // The input is read for the password of a login alone.
    ensures unread { IfSome (queries.query_of (map string_bytes words.now)) (λ q. queries.needs_password q ≡ false → source.new ≡ source.old) }

    // The source failed in this call. Nothing is sent or written.
    ensures read_fault { result ≡ READ_FAULT → Rose (S.faults source.old) (S.faults source.new) × (sink.new ≡ sink.old) × (link.new ≡ link.old) }

    // The first line of the input passes 1024 bytes. Nothing is sent, and `too long` is written.
    ensures too_long { result ≡ TOO_LONG → IfSome (queries.query_of (map string_bytes words.now)) (λ q. queries.needs_password q ≡ true)
        × IfSome (S.left source.old) (λ input. LONGEST_PASSWORD < length (queries.first_line input))
        × (link.new ≡ link.old)
        × Appends (W.held sink.old) (W.held sink.new) endings.too_long }
    ensures within { endings.IsTalkStatus result → endings.OfWords (queries.query_of (map string_bytes words.now)) (S.left source.old) (λ request. endings.IsSoundUnlessFailed result request) }

    // The link failed in this call, or its peer ended it. `no daemon` is written.
    ensures no_daemon { result ≡ NO_DAEMON → Rose (L.faults link.old) (L.faults link.new) × Appends (W.held sink.old) (W.held sink.new) endings.no_daemon }

    // What was received begins no reply. `bad reply` is written.
    ensures bad_reply { result ≡ BAD_REPLY → QueryFindsBadReply L.Link W.Sink (map string_bytes words.now) (S.left source.old) link.old link.new sink.old sink.new }

    // The sink failed in this call, or took nothing of a nonempty piece.
    ensures write_fault { result ≡ WRITE_FAULT → Rose (W.faults sink.old) (W.faults sink.new) }

    // Want of memory. Nothing is written.
    ensures no_memory { result ≡ NO_MEMORY → sink.new ≡ sink.old }
{
    match query_of(alloc, words) {
        Ok(Some(query)) => ask_query(alloc, query, source, sink, link),
        Ok(None) => end(sink, USAGE, b"usage\n"),
        Err(Memory) => NO_MEMORY,
    }
}

/// Has the answers asked anew that the words behind `cache SOCKET` name, and prints the replies. The options are those of
/// sss_cache(8): `-E`, `-u NAME`, `-U`, `-g NAME`, `-G`, or their long forms, each at most once; a name does not begin with `-`.
pub fn cache<W: Sink, L: Link>(
    alloc: Global,
    words: &[String],
    sink: &mut W,
    link: &mut L,
) -> Status
    ensures status { endings.IsStatusOfCache result }

    // The frames of the options were sent, in the order E, u, U, g, G, no other piece, and the texts of the replies were printed.
    ensures done { result ≡ DONE → IsCacheDone L.Link W.Sink (map string_bytes words.now) link.old link.new sink.old sink.new }

    // Whatever the status, some of these frames were sent, the first before the others, and nothing else.
    ensures front { IsCacheSent L.Link (map string_bytes words.now) link.old link.new }

    // The words have no form: nothing is sent, and `usage` is written, where the sink takes it.
    ensures usage { result ≡ USAGE → (options.requests_of (map string_bytes words.now) ≡ None) × Appends (W.held sink.old) (W.held sink.new) endings.usage }
    ensures usage_exactly { options.requests_of (map string_bytes words.now) ≡ None → (link.new ≡ link.old)
        × (result ≢ WRITE_FAULT → result ≢ NO_MEMORY → result ≡ USAGE) }

    // The link failed in this call, or its peer ended it, before the last reply was whole. The replies before that are written,
    // and then `no daemon`.
    ensures no_daemon { result ≡ NO_DAEMON → Rose (L.faults link.old) (L.faults link.new) × CacheFindsNoDaemon W.Sink (map string_bytes words.now) sink.old sink.new }

    // What was received behind the replies before begins no reply. Those are written, and then `bad reply`.
    ensures bad_reply { result ≡ BAD_REPLY → CacheFindsBadReply L.Link W.Sink (map string_bytes words.now) link.old link.new sink.old sink.new }

    // The sink failed in this call, or took nothing of a nonempty piece.
    ensures write_fault { result ≡ WRITE_FAULT → Rose (W.faults sink.old) (W.faults sink.new) }

    // Want of memory. Nothing is written.
    ensures no_memory { result ≡ NO_MEMORY → sink.new ≡ sink.old }
{
    match requests_of(alloc, words) {
        Ok(Some(requests)) => talk(alloc, requests.as_slice(), sink, link),
        Ok(None) => end(sink, USAGE, b"usage\n"),
        Err(Memory) => NO_MEMORY,
    }
}
