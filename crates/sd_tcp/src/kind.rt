//! Whether a message is a bind.
ghost use Rattle.std.specs.Prelude.{◌≡◌};
ghost use Rattle.sd_tcp.specs.Kinds as kinds;

/// The tag of a BindRequest (RFC 4511 section 4.2).
const BIND_TAG: u8 = 0x60;

/// What stands behind a tag and its length: that has one octet, or the octets that the first counts above 128.
fn behind_length(bytes: &[u8]) -> &[u8]
    ensures { result.now ≡ kinds.behind_length bytes.now }
{
    if bytes.len() < 2 {
        return &[];
    }
    let more = bytes[1].saturating_sub(128) as usize;
    bytes.get(2 + more..).unwrap_or(&[])
}

/// What stands behind an element whose length has one octet.
fn behind_element(bytes: &[u8]) -> &[u8]
    ensures { result.now ≡ kinds.behind_element bytes.now }
{
    if bytes.len() < 2 {
        return &[];
    }
    let contents = bytes[1] as usize;
    bytes.get(2 + contents..).unwrap_or(&[])
}

/// Whether bytes are a message (RFC 4511 section 4.1.1) with a bind: its tag stands behind the messageID.
pub fn is_bind(bytes: &[u8]) -> bool
    ensures { result ≡ kinds.is_bind bytes.now }
{
    behind_element(behind_length(bytes)).first() == Some(&BIND_TAG)
}
