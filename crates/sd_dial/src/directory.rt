//! Links behind which a directory stands.
ghost use Rattle.std.specs.Prelude.{◌≡◌, ℕ, true, List, IsSome, Some, None, refl};
ghost use Rattle.std.specs.declared.option.Option.{Option};
ghost use Rattle.sd_ldap.specs.Values.{MessageValue};
ghost use Rattle.sd_ldap.specs.Spelling.{message_bytes};
ghost use Rattle.sd_ldap.specs.Sound.{IsSound};
ghost use Rattle.sd_dial.specs.Asked.{with_message, IsNoMessage};
ghost use Rattle.sd_dial.specs.Entries.{Behind, HaveOwnDns, answer_behind};
ghost use Rattle.sd_dial.specs.Rooms.{are_short};

use sd_link::{Link, MemoryLink};

/// A link to a directory. It may tell the messages asked: the sound messages whose bytes the pieces sent
/// are, in their order; a piece that is the bytes of none counts for nothing. It may tell the directory
/// behind it, which no call changes: its entries, and how it frames its messages.
pub trait DirectoryLink: Link {
    /// The messages asked so far, where the link tells them.
    ghost asked: { Self → Option (List MessageValue) };
    /// The directory behind the link, where it tells it.
    ghost behind: { Self → Option Behind };

    // A sound message that is sent is asked, a piece that is no message is not, and no other call asks.
    ghost asks: { (before after : Self) (m : MessageValue) → IsSound m → Self.went before (Some (message_bytes m)) after → asked after ≡ with_message (asked before) m };

    ghost passes: { (before after : Self) (piece : List ℕ) → IsNoMessage piece → Self.went before (Some piece) after → asked after ≡ asked before };

    ghost waits: { (before after : Self) → Self.went before None after → asked after ≡ asked before };
    // The directory stays.
    ghost keeps: { (before after : Self) (piece : Option (List ℕ)) → Self.went before piece after → behind after ≡ behind before };
    // Who tells the messages asked tells the pieces sent.
    ghost tells_pieces: { (link : Self) → IsSome (asked link) → IsSome (Self.sent link) };
    // Who tells the directory tells the bytes to come; no two of the entries have equal DNs, and each is short: four
    // octets tell the length of a message about it.
    ghost tells_coming: { (link : Self) (told : Behind) → behind link ≡ Some told → IsSome (Self.coming link) × HaveOwnDns told.entries × (are_short told.entries ≡ true) };
    // The answer to a piece is that of the directory told.
    ghost answers: { (link : Self) (told : Behind) (piece : List ℕ) → behind link ≡ Some told → Self.answer link piece ≡ answer_behind told piece };
}

impl DirectoryLink for MemoryLink {
    ghost asked = { λ _. None };

    ghost behind = { λ _. None };

    ghost asks = { λ before after m sound went. refl };

    ghost passes = { λ before after piece none went. refl };

    ghost waits = { λ before after went. refl };

    ghost keeps = { λ before after piece went. refl };

    ghost tells_pieces = { λ link some. refl };

    ghost tells_coming = { λ link told e. Prim.cc };

    ghost answers = { λ link told piece e. Prim.cc };
}
