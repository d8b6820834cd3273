//! Search filters (RFC 4511 section 4.5.1.7).
use sd_base::{Text, Texts};

/// Which entries a search asks for.
#[derive(Drop)]
pub enum Filter {
    And(Vec<Filter>),
    Or(Vec<Filter>),
    Not(Box<Filter>),
    /// An attribute and a value.
    Equal(Text, Text),
    /// An attribute, and the parts of a value: its start, some in between, its end.
    Substrings(Text, Option<Text>, Texts, Option<Text>),
    AtLeast(Text, Text),
    AtMost(Text, Text),
    Present(Text),
    /// A filter of another kind, approximate or extensible, of which nothing is kept.
    Unsupported,
}

/// The parts of a value: its start, some in between, its end.
#[derive(Drop)]
pub struct Pieces {
    pub initial: Option<Text>,
    pub any: Texts,
    pub last: Option<Text>,
}
