// Which words ask for what.
ghost use Rattle.std.specs.Prelude.{◌≡◌, is_some, map, string_bytes};
ghost use Rattle.sd_serve.specs.Words as forms;

use sd_ldap_server::is_address;
use sd_storm::requests_of;

/// What words ask for.
#[derive(Clone, Copy, PartialEq, Eq)]
pub enum Kind {
    Help,
    Version,
    Scenario,
    Idmap,
    /// `netgroup` and `innetgr`.
    Netgroup,
    Sudo,
    Directory,
    Storm,
    Query,
    Cache,
    Serve,
    /// No word of the program.
    Unknown,
}

fn kind_of_word(word: &[u8]) -> Kind
    ensures { result ≡ forms.kind_of_word word.now }
{
    if word == b"scenario".as_slice() {
        Kind::Scenario
    } else if word == b"idmap".as_slice() {
        Kind::Idmap
    } else if word == b"--help".as_slice() {
        Kind::Help
    } else if word == b"--version".as_slice() {
        Kind::Version
    } else {
        Kind::Unknown
    }
}

fn kind_of_two(word: &[u8], second: &[u8]) -> Kind
    ensures { result ≡ forms.kind_of_two word.now second.now }
{
    if word == b"storm".as_slice() {
        match requests_of(second) {
            Some(_) => Kind::Storm,
            None => Kind::Unknown,
        }
    } else {
        Kind::Unknown
    }
}

fn kind_by_address(address: &[u8]) -> Kind
    ensures { result ≡ forms.kind_by_address address.now }
{
    if is_address(address) {
        Kind::Directory
    } else {
        Kind::Unknown
    }
}

fn kind_of_three(word: &[u8], third: &[u8]) -> Kind
    ensures { result ≡ forms.kind_of_three word.now third.now }
{
    if word == b"serve".as_slice() {
        Kind::Serve
    } else if word == b"directory".as_slice() {
        kind_by_address(third)
    } else {
        Kind::Unknown
    }
}

fn kind_of_four(word: &[u8]) -> Kind
    ensures { result ≡ forms.kind_of_four word.now }
{
    if word == b"serve".as_slice() {
        Kind::Serve
    } else if word == b"netgroup".as_slice() {
        Kind::Netgroup
    } else if word == b"sudo".as_slice() {
        Kind::Sudo
    } else {
        Kind::Unknown
    }
}

fn kind_of_seven(word: &[u8]) -> Kind
    ensures { result ≡ forms.kind_of_seven word.now }
{
    if word == b"innetgr".as_slice() {
        Kind::Netgroup
    } else {
        Kind::Unknown
    }
}

/// What a word asks for that is no tool's, by how many words there are.
fn kind_by_rest(word: &[u8], second: &[u8], rest: &[String]) -> Kind
    ensures { result ≡ forms.kind_by_rest word.now second.now (map string_bytes rest.now) }
{
    match rest {
        [] => kind_of_two(word, second),
        [third] => kind_of_three(word, third.as_bytes()),
        [_third, _fourth] => kind_of_four(word),
        [_third, _fourth, _fifth, _sixth, _seventh] => kind_of_seven(word),
        _ => Kind::Unknown,
    }
}

fn kind_of_tool(tool: &[u8], operand: &[u8], rest: &[String]) -> Kind
    ensures { result ≡ forms.kind_of_tool tool.now operand.now (map string_bytes rest.now) }
{
    if tool == b"query".as_slice() {
        Kind::Query
    } else if tool == b"cache".as_slice() {
        Kind::Cache
    } else {
        kind_by_rest(tool, operand, rest)
    }
}

/// What words ask for, by the first of them and by how many there are.
pub fn kind_of(words: &[String]) -> Kind
    ensures { result ≡ forms.kind_of (map string_bytes words.now) }
{
    match words {
        [] => Kind::Unknown,
        [word] => kind_of_word(word.as_bytes()),
        [tool, operand, rest @ ..] => kind_of_tool(tool.as_bytes(), operand.as_bytes(), rest),
    }
}

/// The word behind the first, which is a path, and the words behind that.
pub fn operand_of(words: &[String]) -> (&str, &[String])
    ensures operand { result.0.now ≡ forms.operand_of (map string_bytes words.now) }
    ensures rest { map string_bytes result.1.now ≡ forms.behind_operand (map string_bytes words.now) }
{
    match words {
        [_tool, operand, rest @ ..] => (operand.as_str(), rest),
        _ => ("", &[]),
    }
}

/// The first of words, which is a path.
pub fn first_of(words: &[String]) -> &str
    ensures { result.now ≡ forms.first_of (map string_bytes words.now) }
{
    match words {
        [first, ..] => first.as_str(),
        [] => "",
    }
}

/// The second of words, which is a path, where there is one.
pub fn second_of(words: &[String]) -> Option<&str>
    ensures { is_some result ≡ forms.has_second (map string_bytes words.now) }
{
    match words {
        [_first, second, ..] => Some(second.as_str()),
        _ => None,
    }
}

/// Whether the words of a query end the daemon.
pub fn is_stop(words: &[String]) -> bool
    ensures { result ≡ forms.is_stop (map string_bytes words.now) }
{
    let [word] = words else {
        return false;
    };
    word.as_bytes() == b"stop".as_slice()
}
