// What a daemon finds.
use crate::requests::push_request;
use sd_base::{Blobs, Memory, Numbers, Text};
use sd_plays::{cut_line, cut_word, number};
use std::alloc::Global;

/// The configuration of each daemon, in front of its own lines.
const CONFIGURATION: &[u8] = b"\
[sssd]
domains = test
[domain/test]
id_provider = ldap
auth_provider = ldap
ldap_uri = ldap://one.test
ldap_search_base = dc=test
cache_credentials = TRUE
";

/// The store that a daemon is given.
#[derive(Clone, Copy, PartialEq, Eq)]
pub enum StoreWord {
    None,
    Own,
    /// What the daemon before left.
    Again,
}

/// What a daemon finds.
#[derive(Drop)]
pub struct Case {
    pub conf: Vec<u8>,
    pub is_down: bool,
    pub store: StoreWord,
    pub blobs: Blobs,
    pub failing_store: Numbers,
    pub failing_door: Numbers,
    /// What each clock says, the last of them from then on.
    pub moments: Numbers,
    /// What each client sends.
    pub clients: Vec<Vec<u8>>,
    pub is_silent: bool,
}

fn digit(byte: u8) -> u8 {
    match byte {
        b'0'..=b'9' => byte - b'0',
        b'a'..=b'f' => byte - b'a' + 10,
        _ => 0,
    }
}

/// The octets that pairs of hexadecimal digits write.
fn octets(alloc: Global, digits: &[u8]) -> Result<Vec<u8>, Memory> {
    let mut out = Vec::new(alloc);
    for pair in digits.chunks_exact(2) {
        if let [high, low] = pair {
            out.push(digit(*high) << 4 | digit(*low))?;
        }
    }
    Ok(out)
}

impl Case {
    fn new(alloc: Global) -> Result<Case, Memory> {
        let mut conf = Vec::new(alloc);
        conf.extend_from_slice(CONFIGURATION)?;
        Ok(Case {
            conf,
            is_down: false,
            store: StoreWord::None,
            blobs: Blobs::new(alloc),
            failing_store: Numbers::new(alloc),
            failing_door: Numbers::new(alloc),
            moments: Numbers::new(alloc),
            clients: Vec::new(alloc),
            is_silent: false,
        })
    }

    fn end_configuration(&mut self, line: &[u8]) -> Result<(), Memory> {
        self.conf.extend_from_slice(line)?;
        self.conf.push(b'\n')?;
        Ok(())
    }

    fn add_blob(&mut self, alloc: Global, digits: &[u8]) -> Result<(), Memory> {
        let octets = octets(alloc, digits)?;
        self.blobs.push(Text::from_bytes(alloc, octets.as_slice())?)
    }

    fn fail(&mut self, what: &[u8]) -> Result<(), Memory> {
        let (whose, call) = cut_word(what);
        match whose {
            b"store" => self.failing_store.push(number(call)),
            b"door" => self.failing_door.push(number(call)),
            _ => Ok(()),
        }
    }

    fn ask(&mut self, alloc: Global, words: &[u8]) -> Result<(), Memory> {
        match self.clients.last_mut() {
            Some(client) => push_request(alloc, client, words),
            None => Ok(()),
        }
    }

    /// Takes a line in.
    fn take(&mut self, alloc: Global, line: &[u8]) -> Result<(), Memory> {
        let (word, rest) = cut_word(line);
        match word {
            b"conf" => self.end_configuration(rest)?,
            b"down" => self.is_down = true,
            b"store" if rest == b"again".as_slice() => self.store = StoreWord::Again,
            b"store" => self.store = StoreWord::Own,
            b"blob" => self.add_blob(alloc, rest)?,
            b"fail" => self.fail(rest)?,
            b"moment" => self.moments.push(number(rest))?,
            b"client" => self.clients.push(Vec::new(alloc))?,
            b"ask" => self.ask(alloc, rest)?,
            b"silent" => self.is_silent = true,
            _ => {}
        }
        Ok(())
    }

    /// What the lines of a text say.
    pub fn of(alloc: Global, text: &[u8]) -> Result<Case, Memory> {
        let mut case = Case::new(alloc)?;
        let mut left = text;
        for _ in 0..text.len() {
            if left.is_empty() {
                break;
            }
            let (line, rest) = cut_line(left);
            case.take(alloc, line)?;
            left = rest;
        }
        Ok(case)
    }
}
