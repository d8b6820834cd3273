// The kinds of steps, and what is wanted of each.
use sd_rules::{By, Reply, Verdict};

/// What is asked again and again.
#[derive(Clone, Copy, PartialEq, Eq)]
pub enum Kind {
    /// A user who is known and fresh.
    Fresh,
    /// A user who is known to be absent.
    Gone,
    /// A user whom another asks for already; each second step lets the ticket go.
    Joined,
    /// The stored hash of a user.
    Look,
    /// A wrong guess by that hash.
    Guess,
    /// An account check by 100 rules, the last of which grants.
    Access100,
    /// The same by 1,000 rules.
    Access1000,
    /// Nothing: what no later step needs is forgotten, once.
    Forget,
}

pub fn kind_of(word: &[u8]) -> Option<Kind> {
    match word {
        b"fresh" => Some(Kind::Fresh),
        b"gone" => Some(Kind::Gone),
        b"joined" => Some(Kind::Joined),
        b"look" => Some(Kind::Look),
        b"guess" => Some(Kind::Guess),
        b"access100" => Some(Kind::Access100),
        b"access1000" => Some(Kind::Access1000),
        b"forget" => Some(Kind::Forget),
        _ => None,
    }
}

/// How many rules the directory has.
pub fn rules_of(kind: Kind) -> u32 {
    match kind {
        Kind::Access100 => 100,
        Kind::Access1000 => 1000,
        _ => 0,
    }
}

/// Whether a step of this kind came to what it should.
pub fn is_wanted(kind: Kind, reply: Reply) -> bool {
    match kind {
        Kind::Fresh | Kind::Forget => matches!(reply, Reply::Fresh(_)),
        Kind::Gone => matches!(reply, Reply::Gone(_)),
        Kind::Joined => matches!(reply, Reply::Join(_, _) | Reply::Left),
        Kind::Look => matches!(reply, Reply::Hash(_)),
        Kind::Guess => matches!(reply, Reply::Judged(Verdict::Wrong)),
        Kind::Access100 | Kind::Access1000 => matches!(reply, Reply::Granted(By::Rule(_, _))),
    }
}
