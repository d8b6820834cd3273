// The entries that a later reply can look at.
ghost use Rattle.std.specs.Prelude.{◌≡◌, reverse, IfOk, None};
ghost use Rattle.sd_rules.specs.declared.replies.Entry.{Entry};
ghost use Rattle.sd_rules.specs.Needed as needed;
ghost use Rattle.sd_needs.specs.Looks as looks;
ghost use Rattle.sd_needs.specs.Places as places;

use crate::answers::is_newest_answer;
use crate::logins::{is_login_needed, is_wrong_needed};
use crate::readings::{is_number, user_guessed, user_logged_in};
use crate::requests::{is_again, is_last_again, serves_open};
use crate::servers::{is_fall_needed, is_last_online, last_outage};
use crate::tickets::serves_waiting;
use crate::voids::is_void_needed;
use sd_base::{Copied, Memory};
use sd_journal::past::is_closed;
use sd_journal::requests::{is_open, waits_for};
use sd_rules::{Entry, Event, Journal, Reply};
use std::alloc::Global;

pub fn is_stop(event: &Event) -> bool
    ensures { result ≡ needed.is_stop event.now }
{
    matches!(event, Event::Stop)
}

/// The number of the last word to end the daemon.
pub fn last_stop(entries: &[Entry]) -> Option<u64>
    ensures { result ≡ needed.last_where (λ (x : Entry). needed.is_stop x.event) (reverse entries.now) }
{
    for place in (0..entries.len()).rev() {
        let entry = &entries[place];
        if is_stop(&entry.event) {
            return Some(entry.number);
        }
    }
    None
}

fn is_last_stop(all: &[Entry], entry: &Entry) -> bool
    ensures { result ≡ needed.is_last_stop (reverse all.now) entry.now }
{
    is_stop(&entry.event) && is_number(entry.number, last_stop(all))
}

fn is_last(all: &[Entry], entry: &Entry) -> bool
    ensures { result ≡ needed.is_last (reverse all.now) entry.now }
{
    match all {
        [] => false,
        [.., last] => last.number == entry.number,
    }
}

fn is_of_end(all: &[Entry], entry: &Entry) -> bool
    ensures { result ≡ looks.is_of_end (reverse all.now) entry.now }
{
    is_last_stop(all, entry) || is_last(all, entry)
}

fn is_of_logins(all: &[Entry], before: &[Entry], entry: &Entry) -> bool
    ensures { result ≡ looks.is_of_logins (reverse all.now) (reverse before.now) entry.now }
{
    is_login_needed(all, entry.number, user_logged_in(before, entry))
        || is_wrong_needed(all, entry, user_guessed(&entry.event))
        || is_of_end(all, entry)
}

fn is_of_clients(all: &[Entry], before: &[Entry], entry: &Entry) -> bool
    ensures { result ≡ looks.is_of_clients (reverse all.now) (reverse before.now) entry.now }
{
    waits_for(all, entry.number).is_some()
        || serves_waiting(all, entry.number)
        || is_of_logins(all, before, entry)
}

fn is_of_servers(all: &[Entry], before: &[Entry], entry: &Entry) -> bool
    ensures { result ≡ looks.is_of_servers (reverse all.now) (reverse before.now) entry.now }
{
    is_fall_needed(all, entry)
        || is_last_online(all, entry)
        || is_number(entry.number, last_outage(all))
        || is_of_clients(all, before, entry)
}

/// Whether an entry is looked at for its own sake; `before` are the entries before it.
fn is_looked_at(all: &[Entry], before: &[Entry], entry: &Entry) -> bool
    ensures { result ≡ needed.is_looked_at (reverse all.now) (reverse before.now) entry.now }
{
    is_newest_answer(all, before, entry)
        || is_void_needed(all, before, entry)
        || is_open(all, entry.number)
        || serves_open(all, entry)
        || is_of_servers(all, before, entry)
}

fn is_tried(reply: Reply) -> bool
    ensures { result ≡ needed.is_tried reply }
{
    matches!(reply, Reply::Tried(_))
}

/// The request or attempt with whose leading entry an entry is read.
pub fn read_with(event: &Event, reply: Reply) -> Option<u64>
    ensures { result ≡ needed.read_with event.now reply }
{
    match event {
        Event::Answer(request, _) => {
            if is_closed(reply) || is_again(reply) {
                Some(*request)
            } else {
                None
            }
        }
        Event::LoginOnline(attempt, _) => {
            if is_closed(reply) {
                Some(*attempt)
            } else {
                None
            }
        }
        Event::LoginTry(attempt, _, _) => {
            if is_tried(reply) {
                Some(*attempt)
            } else {
                None
            }
        }
        _ => None,
    }
}

fn is_answer_to(event: &Event, number: u64) -> bool
    ensures { result ≡ needed.is_answer_to event.now number }
{
    match event {
        Event::Answer(request, _) => *request == number,
        _ => false,
    }
}

/// Whether an entry is the leading one of the request or attempt that another is read with, or, of an answer's request, the last
/// answer that was replied Again.
fn is_read_for(all: &[Entry], entry: &Entry, other: &Entry) -> bool
    ensures { result ≡ needed.is_read_for (reverse all.now) entry.now other.now.event (needed.read_with other.now.event other.now.reply) }
{
    match read_with(&other.event, other.reply) {
        Some(request) => {
            entry.number == request
                || is_answer_to(&other.event, request) && is_last_again(all, request, entry)
        }
        None => false,
    }
}

/// Whether an entry is read with another, which is looked at; `before` are the entries before the other.
fn reads(all: &[Entry], before: &[Entry], other: &Entry, entry: &Entry) -> bool
    ensures { result ≡ looks.reads (reverse all.now) (reverse before.now) other.now entry.now }
{
    is_read_for(all, entry, other) && is_looked_at(all, before, other)
}

/// Whether an entry is read with one that is looked at.
fn is_read_with(all: &[Entry], entry: &Entry) -> bool
    ensures { result ≡ needed.is_read_with (reverse all.now) entry.now (reverse all.now) }
{
    for place in (0..all.len()).rev() {
        if reads(all, &all[..place], &all[place], entry) {
            return true;
        }
    }
    false
}

fn is_entry_needed(all: &[Entry], before: &[Entry], entry: &Entry) -> bool
    ensures { result ≡ needed.is_needed (reverse all.now) (reverse before.now) entry.now }
{
    is_looked_at(all, before, entry) || is_read_with(all, entry)
}

/// Whether the entry at a place, counted from 0, is needed. It takes no memory; there is no entry past the end.
pub fn is_needed(entries: &[Entry], place: usize) -> bool
    ensures { result ≡ places.is_needed_at entries.now place }
{
    match entries.get(place) {
        Some(entry) => is_entry_needed(entries, &entries[..place], entry),
        None => false,
    }
}

/// The entries that a forget keeps, in order.
pub fn needed(alloc: Global, entries: &[Entry]) -> Result<Journal, Memory>
    ensures { IfOk result (λ kept. reverse kept ≡ needed.needed (reverse entries.now)) }
{
    let mut kept = Journal::new(alloc);
    for place in 0..entries.len() {
        let entry = &entries[place];
        if is_entry_needed(entries, &entries[..place], entry) {
            kept.push(entry.copy()?)?;
        }
    }
    Ok(kept)
}

/// The entries that a forget hands back, in order.
pub fn forgotten(alloc: Global, entries: &[Entry]) -> Result<Journal, Memory>
    ensures { IfOk result (λ dropped. reverse dropped ≡ needed.forgotten (reverse entries.now)) }
{
    let mut dropped = Journal::new(alloc);
    for place in 0..entries.len() {
        let entry = &entries[place];
        if !is_entry_needed(entries, &entries[..place], entry) {
            dropped.push(entry.copy()?)?;
        }
    }
    Ok(dropped)
}
