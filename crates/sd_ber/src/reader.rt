//! Elements of bytes, one after another.
ghost use Rattle.std.specs.Prelude.{◌≡◌, ℕ, ◌<◌, ◌≤◌, ◌^◌, ◌+◌, ◌==◌, ◌-◌, ◌++◌, replicate, length, Option, Some, None, IfOk, MatchOption, Ok};
ghost use Rattle.sd_ber.specs.Reading.{Reading, start_of, next_of, after_next, element_at, after_read, reading_of, integer_at};
ghost use Rattle.sd_ber.specs.Octets.{signed_by};
ghost use Rattle.sd_ber.specs.Seen.{seen, seen_whole, opened_as, StandsStill, Found, Given, ReadsBack};

use crate::fault::BerFault;
use crate::header::read_header;
use std::marker::Model;

/// An element: its tag, the place of the tag, and the contents.
#[derive(Clone, Copy)]
pub struct Tlv<'a> {
    pub tag: u8,
    pub at: u64,
    pub body: &'a [u8],
}

/// Reads elements, and tells the place that it has come to.
#[derive(Drop)]
pub struct Reader<'a> {
    at: u64,
    rest: &'a [u8],
}

impl<'a> Model for Reader<'a> {
    ghost use Rattle.std.specs.Prelude.{ℕ, ◌<◌, ◌^◌, ◌+◌, length};
    ghost use Rattle.sd_ber.specs.Reading.{Reading};

    ghost Value = { Reading };

    ghost view = { λ r. record { at = r.at; rest = r.rest.now } };

    ghost invariant = { λ r. r.at + length r.rest.now < 2 ^ 64 };
}

impl<'a> Reader<'a> {
    pub fn new(bytes: &'a [u8]) -> Reader<'a>
        ensures { result ≡ start_of bytes.now }
    {
        Reader { at: 0, rest: bytes }
    }

    /// The place of the next byte, counted from the start of the bytes that were first handed in.
    pub fn place(&self) -> u64
        ensures { result ≡ self.now.at }
    {
        self.at
    }

    pub fn is_empty(&self) -> bool
        ensures { result ≡ (length self.now.rest == 0) }
    {
        self.rest.is_empty()
    }

    /// The bytes that are left.
    pub fn rest(&self) -> &'a [u8]
        ensures { result.now ≡ self.now.rest }
    {
        self.rest
    }

    /// The next element, and none exactly at the end. After a refusal the reader stands where it
    /// stood, and so refuses again.
    pub fn next(&mut self) -> Result<Option<Tlv<'a>>, BerFault>
        ensures exact { seen result ≡ next_of self.old }
        ensures after { self.new ≡ after_next self.old }
        // What is given stands in front, and what stands in front is given.
        ensures found { Found self.old self.new result }
        ensures only { Given self.old self.new result }
    {
        self.advance()
    }

    fn advance(&mut self) -> Result<Option<Tlv<'a>>, BerFault>
        ensures exact { seen result ≡ next_of self.old }
        ensures after { self.new ≡ after_next self.old }
    {
        if self.rest.is_empty() {
            return Ok(None);
        }
        let whole = element(self.at, self.rest)?;
        let tlv = Tlv {
            tag: whole.tag,
            at: self.at,
            body: whole.body,
        };
        self.at = whole.end;
        self.rest = whole.rest;
        Ok(Some(tlv))
    }

    /// The tag of the next element, and a reader of its contents. At the end, and where no element
    /// comes, there is none, and the reader stands where it stood.
    pub fn open(&mut self) -> Option<(u8, Reader<'a>)>
        ensures { MatchOption result (StandsStill self.old self.new) (λ found. element_at self.old ≡ Ok (opened_as found self.new)) }
    {
        let Ok(whole) = element(self.at, self.rest) else {
            return None;
        };
        self.at = whole.end;
        self.rest = whole.rest;
        let contents = Reader {
            at: whole.start,
            rest: whole.body,
        };
        Some((whole.tag, contents))
    }
}

/// What `write_tlv` writes is read back, whatever follows it: a law without code.
pub fn reads_back()
    ensures { ReadsBack }
{}

/// An element that is all there: its contents and what comes after it, with their places.
#[derive(Clone, Copy)]
struct Whole<'a> {
    tag: u8,
    start: u64,
    body: &'a [u8],
    end: u64,
    rest: &'a [u8],
}

/// The element in front of bytes that begin at a place.
#[tactic(auto, unfolding(crate::specs::Reading::element_at))]
fn element<'a>(at: u64, bytes: &'a [u8]) -> Result<Whole<'a>, BerFault>
    requires { at + length bytes.now < 2 ^ 64 }
    ensures exact { seen_whole result ≡ element_at (reading_of at bytes.now) }
    ensures within { IfOk result (λ whole. (whole.start + length whole.body.now < 2 ^ 64) × (whole.end + length whole.rest.now < 2 ^ 64)) }
{
    let header = read_header(at, bytes)?;
    if bytes.len() < header.size + header.length {
        return Err(BerFault::Short);
    }
    let (_, behind) = bytes.split_at(header.size);
    let (body, rest) = behind.split_at(header.length);
    let start = at + header.size as u64;
    Ok(Whole {
        tag: header.tag,
        start,
        body,
        end: start + header.length as u64,
        rest,
    })
}

/// The number of an element's contents (X.690 section 8.3).
pub fn integer(tlv: &Tlv<'_>) -> Result<i64, BerFault>
    ensures { result ≡ integer_at tlv.now.at tlv.now.body.now }
{
    let [first, ..] = tlv.body else {
        return Err(BerFault::BadInteger(tlv.at));
    };
    if tlv.body.len() > 8 {
        return Err(BerFault::BadInteger(tlv.at));
    }
    let sign = if *first < 0x80 { 0 } else { 0xff };
    Ok(extended(sign, tlv.body))
}

/// The number of up to eight octets, with their sign carried on.
fn extended(sign: u8, octets: &[u8]) -> i64
    requires { length octets.now ≤ 8 }
    ensures { result ≡ signed_by sign octets.now }
{
    i64::from_be_bytes(eight(sign, octets))
}

/// Eight octets, of which the front is the sign.
fn eight(sign: u8, octets: &[u8]) -> [u8; 8]
    requires { length octets.now ≤ 8 }
    ensures { result ≡ replicate (8 - length octets.now) sign ++ octets.now }
{
    let mut eight = [sign; 8];
    let (_, back) = eight.split_at_mut(8 - octets.len());
    back.copy_from_slice(octets);
    eight
}
