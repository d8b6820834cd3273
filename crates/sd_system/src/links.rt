// The sockets of servers beside the daemon's own.
use sd_tcp::Links;
use std::alloc::{Alloc, Global};
use std::fs::Files;
use std::io::{Eprint, ErrorKind};
use std::{fs, io};

/// The folder PATH.links of sockets through which servers are reached, where something stands there. It counts also where
/// it cannot be read: then no server is reached, and none in another way.
pub fn links_beside<R>(rt: &R, path: &str) -> io::Result<Option<Links>>
where
    R: Files + Eprint + Alloc<A = Global>,
{
    let folder = format!(in rt.alloc(); "{path}.links")?;
    match fs::symlink_metadata(rt, folder.as_str()) {
        Err(error) if error.kind() == ErrorKind::NotFound => Ok(None),
        _ => {
            let _ = eprintln!(rt;
                "bixethomi: servers are reached through the sockets in {folder} alone"
            );
            Ok(Some(Links::new(rt.alloc(), folder)))
        }
    }
}
