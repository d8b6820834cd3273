// What the sessions of a case find, and what goes wrong in each run.
use crate::requests::{cut_word, number_in, push_frame};
use crate::trouble::{Call, Trouble};
use sd_base::Memory;
use std::alloc::Global;

/// The configuration, in front of a case's own lines.
const CONFIGURATION: &[u8] = b"\
[sssd]
domains = test
[domain/test]
id_provider = ldap
ldap_search_base = dc=test
cache_credentials = TRUE
";

/// The most bytes of a call, where a case says nothing.
const MOST: usize = 65536;

/// What the sessions of a case find.
pub struct Case {
    /// Whether a session has a seat at a desk, and not a core of its own.
    pub is_at_desk: bool,
    pub conf: Vec<u8>,
    /// What the client sends.
    pub sent: Vec<u8>,
    pub moments: Vec<u64>,
    pub most_taken: usize,
    pub most_put: usize,
    pub most_received: usize,
    pub runs: Vec<Trouble>,
}

impl Drop for Case {
    fn drop(self) {
        let Case {
            is_at_desk: _,
            conf: _,
            sent: _,
            moments: _,
            most_taken: _,
            most_put: _,
            most_received: _,
            runs: _,
        } = self;
    }
}

fn call_of(word: &[u8]) -> Call {
    match word {
        b"take" => Call::Take,
        b"put" => Call::Put,
        b"dial" => Call::Dial,
        b"send" => Call::Send,
        _ => Call::Receive,
    }
}

impl Case {
    pub fn new(alloc: Global) -> Result<Case, Memory> {
        let mut conf = Vec::new(alloc);
        conf.extend_from_slice(CONFIGURATION)?;
        Ok(Case {
            is_at_desk: false,
            conf,
            sent: Vec::new(alloc),
            moments: Vec::new(alloc),
            most_taken: MOST,
            most_put: MOST,
            most_received: MOST,
            runs: Vec::new(alloc),
        })
    }

    fn configure(&mut self, line: &[u8]) -> Result<(), Memory> {
        self.conf.extend_from_slice(line)?;
        self.conf.push(b'\n')?;
        Ok(())
    }

    fn read_moments(&mut self, words: &[u8]) -> Result<(), Memory> {
        let mut left = words;
        for _ in 0..words.len() {
            if left.is_empty() {
                break;
            }
            let (word, rest) = cut_word(left);
            self.moments.push(u64::from(number_in(word)))?;
            left = rest;
        }
        Ok(())
    }

    /// A run for each call up to the one that the words say.
    fn add_each(&mut self, words: &[u8], is_once: bool) -> Result<(), Memory> {
        let (call, count) = cut_word(words);
        let call = call_of(call);
        for number in 1..=u64::from(number_in(count)) {
            self.runs.push(if is_once {
                Trouble::Once(call, number)
            } else {
                Trouble::From(call, number)
            })?;
        }
        Ok(())
    }

    fn add_cuts(&mut self, count: u32) -> Result<(), Memory> {
        for length in 0..u64::from(count) {
            self.runs.push(Trouble::Cut(length))?;
        }
        Ok(())
    }

    fn add_byte(&mut self, words: &[u8]) -> Result<(), Memory> {
        let (place, byte) = cut_word(words);
        let byte = (number_in(byte) % 256) as u8;
        self.runs
            .push(Trouble::Byte(u64::from(number_in(place)), byte))?;
        Ok(())
    }

    /// Takes a line in.
    pub fn take(&mut self, alloc: Global, line: &[u8]) -> Result<(), Memory> {
        let (word, rest) = cut_word(line);
        match word {
            b"over" => self.is_at_desk = rest == b"desk".as_slice(),
            b"conf" => self.configure(rest)?,
            b"ask" => push_frame(alloc, &mut self.sent, rest)?,
            b"moments" => self.read_moments(rest)?,
            b"takes" => self.most_taken = number_in(rest) as usize,
            b"puts" => self.most_put = number_in(rest) as usize,
            b"receives" => self.most_received = number_in(rest) as usize,
            b"each" => self.add_each(rest, true)?,
            b"from" => self.add_each(rest, false)?,
            b"cut" => self.add_cuts(number_in(rest))?,
            b"byte" => self.add_byte(rest)?,
            b"none" => self.runs.push(Trouble::Nothing)?,
            b"others" => self.runs.push(Trouble::Others)?,
            _ => {}
        }
        Ok(())
    }
}
