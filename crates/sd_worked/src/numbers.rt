// SIDs and hashes by themselves.
use sd_base::Memory;
use sd_idmap::{SidFault, murmur, read_sid};
use std::alloc::Global;

/// Reads a line as a SID, and appends how it went.
pub fn print_sid(alloc: Global, line: &[u8], out: &mut Vec<u8>) -> Result<(), Memory> {
    match read_sid(alloc, line) {
        Ok(sid) => {
            let parts = sid.domain.numbers().len();
            let rid = sid.rid;
            out.extend_from_slice(format!(in alloc; "{parts} and {rid}\n")?.as_bytes())?;
        }
        Err(SidFault::BadSid(place)) => {
            out.extend_from_slice(format!(in alloc; "BadSid {place}\n")?.as_bytes())?;
        }
        Err(SidFault::Memory) => return Err(Memory),
    }
    Ok(())
}

/// Appends the hash of a line.
pub fn print_hash(alloc: Global, seed: u32, line: &[u8], out: &mut Vec<u8>) -> Result<(), Memory> {
    let hash = murmur(seed, line);
    out.extend_from_slice(format!(in alloc; "{hash}\n")?.as_bytes())?;
    Ok(())
}
