// Requests to the daemon over a link, and its replies.
ghost use Rattle.std.specs.Prelude.{◌≡◌, ◌≢◌, ◌⊎◌, ℕ, ◌<◌, ◌≤◌, ◌^◌, ◌++◌, List, [], ◌∷◌, length, take, true, IfOk, OnOk, OnErr, Err};
ghost use Rattle.std.specs.Int.{w32, from_be_bytes, to_be_bytes};
ghost use Rattle.std.specs.Io.KnownBytes.{append_known};
ghost use Rattle.sd_base.specs.Causes.{Rose};
ghost use Rattle.sd_wire.specs.Frames.{frame_of, reply_of, is_sound};
ghost use Rattle.sd_tools.specs.Replies as replies;

use sd_base::{Memory, Text, Texts};
use sd_link::{Link, LinkFailed};
use sd_wire::{Request, number_of_four, write_frame};
use std::alloc::Global;

/// The most bytes that the text of a reply has: 256 MiB.
pub const LONGEST_REPLY: usize = 268435456;

/// Why a request got no reply.
#[derive(Clone, Copy, PartialEq, Eq)]
pub enum TalkFault {
    /// The link failed, or its peer ended it.
    Link,
    /// What came begins no reply.
    BadReply,
    /// Want of memory.
    Memory,
}

impl From<Memory> for TalkFault {
    ghost use Rattle.sd_tools.specs.declared.links.TalkFault.TheVariants as faults;

    ghost from_gives = { λ _ fault. fault ≡ faults.Memory };

    fn from(_memory: Memory) -> TalkFault {
        TalkFault::Memory
    }
}

/// Takes this many of the bytes that come over a link.
fn receive_bytes<L: Link>(alloc: Global, link: &mut L, size: usize) -> Result<Vec<u8>, TalkFault>
    ensures whole { IfOk result (λ bytes. (length bytes.items ≡ size) × (L.received link.new ≡ append_known (L.received link.old) bytes.items)) }
    ensures sent { L.sent link.new ≡ L.sent link.old }
    ensures failed { result ≡ Err TalkFault.Link → Rose (L.faults link.old) (L.faults link.new) }
    ensures no_reply { result ≢ Err TalkFault.BadReply }
    ensures later { L.faults link.old ≤ L.faults link.new }
{
    let mut bytes = Vec::new(alloc);
    let mut buf = [0u8; 4096];
    while bytes.len() < size {
        let room = buf.len().min(size - bytes.len());
        let Ok(count) = link.receive(&mut buf[..room]) else {
            return Err(TalkFault::Link);
        };
        if bytes.extend_from_slice(&buf[..count]).is_err() {
            return Err(TalkFault::Memory);
        }
    }
    Ok(bytes)
}

/// Sends the frame of a request.
fn send_request<L: Link>(alloc: Global, link: &mut L, request: &Request) -> Result<(), TalkFault>
    requires { is_sound request.now ≡ true }
    ensures sent { OnOk result (L.sent link.new ≡ replies.with_pieces (L.sent link.old) (frame_of request.now ∷ [])) }
    ensures unsent { OnErr result (L.sent link.new ≡ L.sent link.old) }
    ensures received { L.received link.new ≡ L.received link.old }
    ensures failed { result ≡ Err TalkFault.Link → Rose (L.faults link.old) (L.faults link.new) }
    ensures no_reply { result ≢ Err TalkFault.BadReply }
    ensures later { L.faults link.old ≤ L.faults link.new }
{
    let mut frame = Vec::new(alloc);
    if write_frame(&mut frame, request).is_err() {
        return Err(TalkFault::Memory);
    }
    match link.send(frame.as_slice()) {
        Ok(()) => Ok(()),
        Err(LinkFailed) => Err(TalkFault::Link),
    }
}

/// The length that four octets spell.
fn size_of(octets: &[u8]) -> usize
    requires { length octets.now ≡ 4 }
    ensures size { result ≡ from_be_bytes w32 octets.now }
    ensures octets { to_be_bytes w32 result ≡ octets.now }
{
    number_of_four(octets) as usize
}

/// Takes the reply that comes over a link, and gives its text.
fn receive_reply<L: Link>(alloc: Global, link: &mut L) -> Result<Vec<u8>, TalkFault>
    ensures reply { IfOk result (λ text. (length text.items ≤ LONGEST_REPLY) × (L.received link.new ≡ append_known (L.received link.old) (reply_of text.items))) }
    ensures no_reply { result ≡ Err TalkFault.BadReply → (octets : List ℕ) × replies.BeginsNoReply octets × (L.received link.new ≡ append_known (L.received link.old) octets) }
    ensures sent { L.sent link.new ≡ L.sent link.old }
    ensures failed { result ≡ Err TalkFault.Link → Rose (L.faults link.old) (L.faults link.new) }
    ensures later { L.faults link.old ≤ L.faults link.new }
{
    let octets = receive_bytes(alloc, link, 4)?;
    let size = size_of(octets.as_slice());
    if LONGEST_REPLY < size {
        return Err(TalkFault::BadReply);
    }
    receive_bytes(alloc, link, size)
}

/// Sends a request, and gives the text of its reply.
fn ask<L: Link>(alloc: Global, link: &mut L, request: &Request) -> Result<Text, TalkFault>
    requires { is_sound request.now ≡ true }
    ensures reply { IfOk result (λ text. (length text ≤ LONGEST_REPLY)
        × (L.sent link.new ≡ replies.with_pieces (L.sent link.old) (frame_of request.now ∷ []))
        × (L.received link.new ≡ append_known (L.received link.old) (reply_of text))) }
    ensures front { OnErr result ((L.sent link.new ≡ L.sent link.old) ⊎ (L.sent link.new ≡ replies.with_pieces (L.sent link.old) (frame_of request.now ∷ []))) }
    ensures no_reply { result ≡ Err TalkFault.BadReply → (octets : List ℕ) × replies.BeginsNoReply octets × (L.received link.new ≡ append_known (L.received link.old) octets) }
    ensures failed { result ≡ Err TalkFault.Link → Rose (L.faults link.old) (L.faults link.new) }
    ensures later { L.faults link.old ≤ L.faults link.new }
{
    send_request(alloc, link, request)?;
    let text = receive_reply(alloc, link)?;
    Ok(Text::from_bytes(alloc, text.as_slice())?)
}

/// Sends requests, each once the reply to the one before has come, and puts the texts of the replies into an empty list.
pub fn ask_all<L: Link>(
    alloc: Global,
    link: &mut L,
    requests: &[Request],
    texts: &mut Texts,
) -> Result<(), TalkFault>
    requires sound { replies.AreSound requests.now }
    requires empty { texts.old ≡ [] }
    ensures answered { OnOk result (replies.AreAnsweredOver L.Link requests.now texts.new link.old link.new) }
    ensures front { replies.IsFrontSentOver L.Link requests.now link.old link.new }
    ensures no_reply { result ≡ Err TalkFault.BadReply → replies.EndsInNoReplyOver L.Link requests.now texts.new link.old link.new }
    ensures failed { result ≡ Err TalkFault.Link → Rose (L.faults link.old) (L.faults link.new) }
    ensures fewer { result ≡ Err TalkFault.Link → length texts.new < length requests.now }
{
    for request in requests {
        let text = ask(alloc, link, request)?;
        texts.push(text)?;
    }
    Ok(())
}
