// What stands outside of the program.
ghost use Rattle.std.specs.Prelude.{◌≡◌, ◌≤◌, ℕ, List, [], ◌∷◌, ◌++◌, Option, IfOk, OnOk, OnErr, IsErr, Some, MatchResult};
ghost use Rattle.std.specs.Option.{option_map_or};
ghost use Rattle.sd_base.specs.Causes.{Rose};
ghost use Rattle.sd_link.specs.Told.{with_piece};
ghost use Rattle.sd_serve.specs.Outsides.{Counted};
ghost use Rattle.sd_tools.specs.Replies as replies;

use sd_base::{Memory, Numbers, Text, Texts};
use sd_link::{Link, LinkFailed, MemoryLink};
use std::alloc::Global;

/// What stands outside of the program and is made by it: links to the daemon on a socket. It counts their faults. What it does
/// not tell stays untold.
pub trait Outside {
    /// A link to the daemon.
    type Wire: Link;

    /// The pieces sent and the bytes received on its links, in their order, where it tells them.
    ghost told: { Self → replies.Told };
    /// The paths of the sockets at which links were made, in their order, where it tells them.
    ghost dialled: { Self → Option (List (List ℕ)) };
    /// How many links could not be made, or failed. A count at the greatest u64 stands still.
    ghost link_faults: { Self → ℕ };

    /// A link to the daemon on the socket at this path, on which no call has failed.
    fn connect(&mut self, path: &str) -> Result<Self::Wire, LinkFailed>
        ensures told { IfOk result (λ link. replies.told (Self.Wire.sent link) (Self.Wire.received link) ≡ told self.old) }
        ensures unfailed { IfOk result (λ link. Self.Wire.faults link ≡ 0) }
        ensures uncounted { OnOk result (link_faults self.new ≡ link_faults self.old) }
        ensures dialled { MatchResult result (λ _. dialled self.new ≡ with_piece (dialled self.old) path.now) (λ _. dialled self.new ≡ dialled self.old) }
        ensures refused { OnErr result (told self.new ≡ told self.old) }
        ensures failed { OnErr result (Rose (link_faults self.old) (link_faults self.new)) }
        ensures later { link_faults self.old ≤ link_faults self.new };

    /// Takes a link back. Where a call on it failed, a fault of links is counted.
    fn done_link(&mut self, link: Self::Wire)
        ensures told { told self.new ≡ replies.told (Self.Wire.sent link) (Self.Wire.received link) }
        ensures dialled { dialled self.new ≡ dialled self.old }
        ensures counted { Counted (link_faults self.old) (link_faults self.new) (Self.Wire.faults link) };
}

/// An outside in memory, which makes one link; every further connection is refused, and so is one that finds no memory.
pub struct MemoryOutside {
    alloc: Global,
    coming: Option<Coming>,
    used: Option<MemoryLink>,
    paths: Texts,
    faults: u64,
}

impl Drop for MemoryOutside {
    fn drop(self) {
        let MemoryOutside {
            alloc: _,
            coming: _,
            used: _,
            paths: _,
            faults: _,
        } = self;
    }
}

/// The bytes to come on a link, and the numbers of the calls on it that are to fail, counted from 1.
#[derive(Drop)]
pub struct Coming {
    pub bytes: Vec<u8>,
    pub failing: Numbers,
}

impl MemoryOutside {
    /// An outside whose link has these bytes to come, or one that refuses every connection.
    pub fn new(alloc: Global, coming: Option<Coming>) -> MemoryOutside
        ensures told { ⟦<MemoryOutside as Outside>⟧.told result ≡ replies.told (Some []) (Some []) }
        ensures dialled { ⟦<MemoryOutside as Outside>⟧.dialled result ≡ Some [] }
        ensures faults { ⟦<MemoryOutside as Outside>⟧.link_faults result ≡ 0 }
    {
        MemoryOutside {
            alloc,
            coming,
            used: None,
            paths: Texts::new(alloc),
            faults: 0,
        }
    }

    /// The link, once it was handed back.
    pub fn link(&self) -> Option<&MemoryLink> {
        self.used.as_ref()
    }

    /// The paths of the sockets at which links were made, in their order.
    pub fn paths(&self) -> &[Text]
        ensures { ⟦<MemoryOutside as Outside>⟧.dialled self.now ≡ Some result.now }
    {
        self.paths.items()
    }

    /// Counts a fault.
    fn refuse(&mut self) -> Result<MemoryLink, LinkFailed>
        ensures failed { IsErr result }
        ensures used { self.new.used ≡ self.old.used }
        ensures paths { self.new.paths ≡ self.old.paths }
        ensures counted { Rose self.old.faults self.new.faults }
        ensures later { self.old.faults ≤ self.new.faults }
    {
        self.faults = self.faults.saturating_add(1);
        Err(LinkFailed)
    }

    /// Notes the path of a socket at which a link is made.
    fn note(&mut self, path: &str) -> Result<(), Memory>
        ensures noted { OnOk result (self.new.paths ≡ self.old.paths ++ path.now ∷ []) }
        ensures unnoted { OnErr result (self.new.paths ≡ self.old.paths) }
        ensures used { self.new.used ≡ self.old.used }
        ensures faults { self.new.faults ≡ self.old.faults }
    {
        let path = Text::from_bytes(self.alloc, path.as_bytes())?;
        self.paths.push(path)
    }
}

impl Outside for MemoryOutside {
    type Wire = MemoryLink;

    ghost told = { λ o. option_map_or (λ l. replies.told (⟦<MemoryLink as Link>⟧.sent l) (⟦<MemoryLink as Link>⟧.received l)) o.used (replies.told (Some []) (Some [])) };

    ghost dialled = { λ o. Some o.paths };

    ghost link_faults = { λ o. o.faults };

    fn connect(&mut self, path: &str) -> Result<MemoryLink, LinkFailed> {
        if self.used.is_some() {
            return self.refuse();
        }
        let Some(coming) = self.coming.take() else {
            return self.refuse();
        };
        if self.note(path).is_err() {
            return self.refuse();
        }
        Ok(MemoryLink::new(self.alloc, coming.bytes, coming.failing))
    }

    fn done_link(&mut self, link: MemoryLink) {
        if link.faults() > 0 {
            self.faults = self.faults.saturating_add(1);
        }
        self.used = Some(link);
    }
}
