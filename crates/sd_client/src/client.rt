//! The client: one request after another over a link.
ghost use Rattle.std.specs.Prelude.{◌≡◌, ℕ, ◌+◌, ◌≤◌, ◌<◌, List, [], ◌++◌, ◌⊎◌, length, IfOk, OnErr, IfSome, Some, None, Ok, Err, true, false};
ghost use Rattle.sd_base.specs.Causes.{Rose};
ghost use Rattle.sd_ldap.specs.Values.{search_value, operation_value, search, bind_request};
ghost use Rattle.sd_ldap.specs.Spelling.{message_bytes};
ghost use Rattle.sd_ldap.specs.Sound.{IsSoundSearch};
ghost use Rattle.sd_link.specs.Told.{with_piece};
ghost use Rattle.sd_dial.specs.Asked.{with_message};
ghost use Rattle.sd_client.specs.Law.{StaysDecided};
ghost use Rattle.sd_client.specs.Links.{SendsOrFails};
ghost use Rattle.sd_client.specs.Calls.{AsksNothing, Asks, IsSearchReply, IsBindReply};
ghost use Rattle.sd_client.specs.Talk.{search_message, bind_message, unbind_message, IsUnsearched, IsUnbound, IsPlacedBySearch, IsPlacedByBind, failure_by_search, failure_by_bind};

use crate::buffer::Buffer;
use crate::copying::copy_request;
use crate::exchange::{Reply, State, exchange};
use crate::step::Request;
use crate::unbinding::unbind_bytes;
use sd_base::{Copied, Memory, Text};
use sd_dial::{DirectoryLink, Searched};
use sd_ldap::{Operation, SearchRequest};
use sd_link::LinkFailed;
use sd_rules::Bound;
use std::alloc::Global;
use std::marker::Model;

/// The greatest messageID (RFC 4511 section 4.1.1.1). An unbind keeps it, so requests have those below.
const MAX_ID: u32 = 2_147_483_647;

/// A client of a directory over one link, whose requests have the ids 1, 2 and so on. It fails once: from
/// then on it answers the same failure, and uses the link no more.
pub struct Client<L: DirectoryLink> {
    alloc: Global,
    link: L,
    state: State,
}

impl<L: DirectoryLink> Model for Client<L> {
    ghost use Rattle.std.specs.Prelude.{ℕ, ◌≤◌, ◌≡◌, length, None};
    ghost use Rattle.sd_client.specs.Talk.{Talk};

    ghost Value = { Talk L };

    ghost view = { λ c. record { link = c.link; received = c.state.buffer; at = c.state.at; next = c.state.next; failed = c.state.failed } };

    ghost invariant = { λ c. (c.state.at ≤ length c.state.buffer) × (c.state.failed ≡ None → length c.state.buffer ≤ 67108864) × (length c.state.buffer ≤ 67108865) × (c.state.next ≤ 2147483647) };
}

/// A copy of the request, as an operation.
fn search_operation(alloc: Global, request: &SearchRequest) -> Result<Operation, Memory>
    ensures { IfOk result (λ operation. operation_value operation ≡ search (search_value request.now)) }
{
    Ok(Operation::Search(copy_request(alloc, request)?))
}

/// A simple bind of version 3 (RFC 4511 section 4.2).
fn bind_operation(dn: &Text, password: &Text) -> Result<Operation, Memory>
    ensures { IfOk result (λ operation. operation_value operation ≡ bind_request 3 dn.now password.now) }
{
    Ok(Operation::BindRequest(3, dn.copy()?, password.copy()?))
}

impl<L: DirectoryLink> Client<L> {
    /// A client over a link that has nothing to come.
    pub fn new(alloc: Global, link: L) -> Client<L>
        requires { IfSome (L.coming link) (λ bytes. bytes ≡ []) }
        ensures { result ≡ record { link = link; received = []; at = 0; next = 1; failed = None } }
    {
        Client {
            alloc,
            link,
            state: State {
                buffer: Buffer::new(alloc),
                at: 0,
                next: 1,
                failed: None,
            },
        }
    }

    /// Searches the directory (RFC 4511 section 4.5). Messages of another id and references are passed over.
    /// A client that has used all ids of its link answers Memory.
    pub fn search(&mut self, request: &SearchRequest) -> Searched
        requires { IsSoundSearch (search_value request.now) }
        ensures again { IfSome self.old.failed (λ why. (result ≡ Searched.Failed why) × (self.new ≡ self.old)) }
        ensures used { (self.new.next ≡ self.old.next) ⊎ (self.new.next ≡ self.old.next + 1) }
        // A request that was not sent: nothing came of it but the link's failure or want of memory.
        ensures unsent { self.new.next ≡ self.old.next → AsksNothing L.DirectoryLink self.old self.new }
        ensures no_reply { self.old.failed ≡ None → self.new.next ≡ self.old.next → IsUnsearched result (Rose (L.faults self.old.link) (L.faults self.new.link) × L.refuses self.new.link) }
        // A request that was sent: the bytes received decide.
        ensures sent { self.new.next ≡ self.old.next + 1 → Asks L.DirectoryLink (search_message self.old.next (search_value request.now)) self.old self.new }
        ensures reply { self.new.next ≡ self.old.next + 1 → IsSearchReply L.DirectoryLink self.old result self.new }
        ensures fails { self.old.failed ≡ None → self.new.failed ≡ failure_by_search result }
        ensures placed { self.old.failed ≡ None → IsPlacedBySearch result self.old.at self.new.at }
        ensures within { self.new.at ≤ length self.new.received }
        ensures short { length self.new.received ≤ 67108865 }
        ensures counted { self.new.next ≤ 2147483647 }
        ensures behind { L.behind self.new.link ≡ L.behind self.old.link }
        ensures later { L.faults self.old.link ≤ L.faults self.new.link }
    {
        if let Some(why) = self.state.failed {
            return Searched::Failed(why);
        }
        if self.state.next >= MAX_ID {
            return Searched::Memory;
        }
        let Ok(operation) = search_operation(self.alloc, request) else {
            return Searched::Memory;
        };
        match exchange(
            self.alloc,
            &mut self.link,
            &mut self.state,
            Request::Search,
            operation,
        ) {
            Ok(Reply::Ended(found, 0)) => Searched::Entries(found),
            Ok(Reply::Ended(_found, code)) => Searched::Code(code),
            Ok(Reply::Failed(why)) => Searched::Failed(why),
            Err(Memory) => Searched::Memory,
        }
    }

    /// Binds by a name and a password (RFC 4511 section 4.2). As a search, but for what is expected.
    pub fn bind(&mut self, dn: &Text, password: &Text) -> Bound
        ensures again { IfSome self.old.failed (λ why. (result ≡ Bound.Failed why) × (self.new ≡ self.old)) }
        ensures used { (self.new.next ≡ self.old.next) ⊎ (self.new.next ≡ self.old.next + 1) }
        // A request that was not sent: nothing came of it but the link's failure or want of memory.
        ensures unsent { self.new.next ≡ self.old.next → AsksNothing L.DirectoryLink self.old self.new }
        ensures no_reply { self.old.failed ≡ None → self.new.next ≡ self.old.next → IsUnbound result (Rose (L.faults self.old.link) (L.faults self.new.link) × L.refuses self.new.link) }
        // A request that was sent: the bytes received decide.
        ensures sent { self.new.next ≡ self.old.next + 1 → Asks L.DirectoryLink (bind_message self.old.next dn.now password.now) self.old self.new }
        ensures reply { self.new.next ≡ self.old.next + 1 → IsBindReply L.DirectoryLink self.old result self.new }
        ensures fails { self.old.failed ≡ None → self.new.failed ≡ failure_by_bind result }
        ensures placed { self.old.failed ≡ None → IsPlacedByBind result self.old.at self.new.at }
        ensures within { self.new.at ≤ length self.new.received }
        ensures short { length self.new.received ≤ 67108865 }
        ensures counted { self.new.next ≤ 2147483647 }
        ensures behind { L.behind self.new.link ≡ L.behind self.old.link }
        ensures later { L.faults self.old.link ≤ L.faults self.new.link }
    {
        if let Some(why) = self.state.failed {
            return Bound::Failed(why);
        }
        if self.state.next >= MAX_ID {
            return Bound::Memory;
        }
        let Ok(operation) = bind_operation(dn, password) else {
            return Bound::Memory;
        };
        match exchange(
            self.alloc,
            &mut self.link,
            &mut self.state,
            Request::Bind,
            operation,
        ) {
            Ok(Reply::Ended(_found, code)) => Bound::Code(code),
            Ok(Reply::Failed(why)) => Bound::Failed(why),
            Err(Memory) => Bound::Memory,
        }
    }

    /// Gives the link back, with an unbind sent (RFC 4511 section 4.3) where the client has not failed.
    pub fn end(self) -> L
        ensures failed { (self.failed ≡ None → ⊥) → result ≡ self.link }
        ensures unbinds { self.failed ≡ None → SendsOrFails L.DirectoryLink (unbind_message self.next) self.link result }
        ensures received { L.received result ≡ L.received self.link }
        ensures behind { L.behind result ≡ L.behind self.link }
        ensures later { L.faults self.link ≤ L.faults result }
    {
        let Client {
            alloc: _alloc,
            mut link,
            state,
        } = self;
        if state.failed.is_some() {
            return link;
        }
        let _ = send_unbind(&mut link, state.next);
        link
    }
}

/// Sends an unbind, and says whether the link took it.
fn send_unbind<L: DirectoryLink>(link: &mut L, id: u32) -> bool
    requires { id ≤ 2147483647 }
    ensures sent { result ≡ true → L.sent link.new ≡ with_piece (L.sent link.old) (message_bytes (unbind_message id)) }
    ensures asked { result ≡ true → L.asked link.new ≡ with_message (L.asked link.old) (unbind_message id) }
    ensures unsent { result ≡ false → (L.sent link.new ≡ L.sent link.old) × (L.asked link.new ≡ L.asked link.old) }
    ensures failed { result ≡ false → Rose (L.faults link.old) (L.faults link.new) }
    ensures received { L.received link.new ≡ L.received link.old }
    ensures behind { L.behind link.new ≡ L.behind link.old }
    ensures later { L.faults link.old ≤ L.faults link.new }
{
    let (bytes, count) = unbind_bytes(id);
    let (piece, _) = bytes.split_at(count);
    match link.send(piece) {
        Ok(()) => true,
        Err(LinkFailed) => false,
    }
}

/// What the bytes received decide stays decided, whatever follows them: a law without code.
pub fn decides_once()
    ensures { StaysDecided }
{}
