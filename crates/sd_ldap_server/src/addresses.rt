//! Where a directory is served.
ghost use Rattle.std.specs.Prelude.{◌≡◌};
ghost use Rattle.std.specs.List.{list_all};
ghost use Rattle.sd_conf.specs.Values.{is_host, is_host_byte};
ghost use Rattle.sd_ldap_server.specs.Addresses as addresses;

use sd_pieces::{cut, number_up_to};

fn is_host_byte(byte: u8) -> bool
    ensures { result ≡ is_host_byte byte }
{
    byte.is_ascii_alphanumeric() || byte == b'.' || byte == b'-' || byte == b'_'
}

fn are_host_bytes(bytes: &[u8]) -> bool
    ensures { result ≡ list_all is_host_byte bytes.now }
{
    bytes.iter().all(|byte| is_host_byte(*byte))
}

fn is_host(bytes: &[u8]) -> bool
    ensures { result ≡ is_host bytes.now }
{
    !bytes.is_empty() && bytes.len() <= 255 && are_host_bytes(bytes)
}

fn leads_with_zero(text: &[u8]) -> bool
    ensures { result ≡ addresses.leads_with_zero text.now }
{
    !text.is_empty() && text[0] == b'0'
}

fn is_port(text: &[u8]) -> bool
    ensures { result ≡ addresses.is_port text.now }
{
    number_up_to(65535, text).is_some() && !leads_with_zero(text)
}

/// Whether a word is `HOST:PORT`: a host's name or its IPv4 address, as a configuration has it, and a port from 1 to 65535,
/// without a zero before its digits.
pub fn is_address(word: &[u8]) -> bool
    ensures { result ≡ addresses.is_address word.now }
{
    let (host, behind) = cut(b':', word);
    match behind {
        Some(port) => is_host(host) && is_port(port),
        None => false,
    }
}
