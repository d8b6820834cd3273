// What the keys' lines choose, where the one domain is known.
ghost use Rattle.std.specs.Prelude.{◌≡◌, ℕ, Bool, List, Option, IfOk, OnOk, map, count_by, ◌++◌};
ghost use Rattle.std.specs.Option.{option_copied, option_map};
ghost use Rattle.sd_conf.specs.Lines as forms;
ghost use Rattle.sd_conf.specs.Chosen as chosen;
ghost use Rattle.sd_conf.specs.Values as values;
ghost use Rattle.sd_conf.specs.Texts as texts;

use crate::lines::Entry;
use crate::options::{ConfOption, OPTIONS, Part, is_known, is_line_of, is_section, row_of};
use crate::servers::{ServerList, servers};
use crate::texts::{flag, items};
use crate::values::{Provider, access_of, fits, provider_of};
use sd_base::{Memory, Text, Texts};
use sd_dn::is_dn;
use sd_pieces::{cut, read_number};
use sd_rules::AccessMode;
use std::alloc::Global;

/// The keys' lines of a configuration, oldest first, and its one domain.
#[derive(Drop)]
pub struct Choices<'a> {
    pub entries: Vec<Entry<'a>>,
    pub domain: &'a [u8],
}

fn newest<'a>(entries: &[Entry<'a>], domain: &[u8], option: ConfOption) -> Option<Entry<'a>>
    ensures { option_map forms.seen result ≡ chosen.newest (forms.settings_seen entries.now) domain.now option }
{
    let row = row_of(option);
    for place in (0..entries.len()).rev() {
        let entry = entries[place];
        if is_line_of(&row, domain, &entry) {
            return Some(entry);
        }
    }
    None
}

impl<'a> Choices<'a> {
    /// The last line of an option.
    pub fn last_line(&self, option: ConfOption) -> Option<Entry<'a>>
        ensures { option_map forms.seen result ≡ chosen.last_line (chosen.chosen self.now) option }
    {
        newest(&self.entries, self.domain, option)
    }

    /// The value of an option.
    pub fn value(&self, option: ConfOption) -> Option<&'a [u8]>
        ensures { option_copied result ≡ chosen.value (chosen.chosen self.now) option }
    {
        match self.last_line(option) {
            Some(entry) => Some(entry.value),
            None => None,
        }
    }

    /// Whether a line of the option stands.
    pub fn is_given(&self, option: ConfOption) -> bool
        ensures { result ≡ chosen.is_given (chosen.chosen self.now) option }
    {
        self.value(option).is_some()
    }

    /// The number of an option.
    pub fn number(&self, option: ConfOption, otherwise: u32) -> u32
        ensures { result ≡ chosen.number (chosen.chosen self.now) option otherwise }
    {
        match self.value(option) {
            Some(value) => read_number(value).unwrap_or(otherwise),
            None => otherwise,
        }
    }

    /// Whether an option is TRUE.
    pub fn flag(&self, option: ConfOption) -> bool
        ensures { result ≡ chosen.flag (chosen.chosen self.now) option }
    {
        match self.value(option) {
            Some(value) => flag(value).unwrap_or(false),
            None => false,
        }
    }

    /// The text of an option.
    pub fn text(&self, alloc: Global, option: ConfOption, otherwise: &[u8]) -> Result<Text, Memory>
        ensures { IfOk result (λ text. text ≡ chosen.text (chosen.chosen self.now) option otherwise.now) }
    {
        match self.value(option) {
            Some(value) => Text::from_bytes(alloc, value),
            None => Text::from_bytes(alloc, otherwise),
        }
    }

    /// The items of an option's list.
    pub fn texts(
        &self,
        alloc: Global,
        option: ConfOption,
        otherwise: &[u8],
    ) -> Result<Texts, Memory>
        ensures { IfOk result (λ texts. texts ≡ chosen.texts (chosen.chosen self.now) option otherwise.now) }
    {
        match self.value(option) {
            Some(value) => owned_items(alloc, value),
            None => owned_items(alloc, otherwise),
        }
    }

    /// Where the domain's records come from.
    pub fn provider(&self) -> Option<Provider>
        ensures { result ≡ chosen.provider (chosen.chosen self.now) }
    {
        match self.value(ConfOption::IdProvider) {
            Some(value) => provider_of(value),
            None => None,
        }
    }

    /// Whether the records come from an IPA server.
    pub fn is_ipa(&self) -> bool
        ensures { result ≡ chosen.is_ipa (chosen.chosen self.now) }
    {
        match self.provider() {
            Some(Provider::Ipa) => true,
            Some(Provider::Ldap) => false,
            None => false,
        }
    }

    /// What decides account checks.
    pub fn access(&self) -> AccessMode
        ensures { result ≡ chosen.access (chosen.chosen self.now) }
    {
        match self.value(ConfOption::AccessProvider) {
            Some(value) => access_of(value).unwrap_or(AccessMode::Permit),
            None => AccessMode::Permit,
        }
    }

    fn servers(&self, alloc: Global, is_uri: bool, option: ConfOption) -> Result<ServerList, Memory>
        ensures { IfOk result (λ found. found ≡ chosen.servers (chosen.chosen self.now) is_uri option) }
    {
        let Some(value) = self.value(option) else {
            return Ok(ServerList::new(alloc));
        };
        match servers(alloc, is_uri, value)? {
            Some(found) => Ok(found),
            None => Ok(ServerList::new(alloc)),
        }
    }

    fn by_ipa(&self, ldap_option: ConfOption) -> bool
        ensures { result ≡ chosen.by_ipa (chosen.chosen self.now) ldap_option }
    {
        self.is_ipa() && !self.is_given(ldap_option)
    }

    fn servers_by(
        &self,
        alloc: Global,
        by_ipa: bool,
        ldap_option: ConfOption,
        ipa_option: ConfOption,
    ) -> Result<ServerList, Memory>
        ensures { IfOk result (λ found. found ≡ chosen.servers_by (chosen.chosen self.now) by_ipa ldap_option ipa_option) }
    {
        if by_ipa {
            self.servers(alloc, false, ipa_option)
        } else {
            self.servers(alloc, true, ldap_option)
        }
    }

    /// The servers that are tried first.
    pub fn primaries(&self, alloc: Global) -> Result<ServerList, Memory>
        ensures { IfOk result (λ found. found ≡ chosen.primaries (chosen.chosen self.now)) }
    {
        let by_ipa = self.by_ipa(ConfOption::LdapUri);
        self.servers_by(alloc, by_ipa, ConfOption::LdapUri, ConfOption::IpaServer)
    }

    /// The servers that are tried where no primary answers.
    pub fn backups(&self, alloc: Global) -> Result<ServerList, Memory>
        ensures { IfOk result (λ found. found ≡ chosen.backups (chosen.chosen self.now)) }
    {
        let by_ipa = self.by_ipa(ConfOption::LdapBackupUri);
        self.servers_by(
            alloc,
            by_ipa,
            ConfOption::LdapBackupUri,
            ConfOption::IpaBackupServer,
        )
    }

    fn backup_option(&self) -> ConfOption
        ensures { result ≡ chosen.backup_option (chosen.chosen self.now) }
    {
        if self.by_ipa(ConfOption::LdapBackupUri) {
            ConfOption::IpaBackupServer
        } else {
            ConfOption::LdapBackupUri
        }
    }

    fn line_of(&self, option: ConfOption) -> Option<u32>
        ensures { result ≡ option_map (λ s. s.line) (chosen.last_line (chosen.chosen self.now) option) }
    {
        match self.last_line(option) {
            Some(entry) => Some(entry.line),
            None => None,
        }
    }

    /// The line of the backup option, where it makes more than 64 servers of all.
    fn crowded(&self, alloc: Global) -> Result<Option<u32>, Memory>
        ensures { IfOk result (λ line. line ≡ chosen.crowded (chosen.chosen self.now)) }
    {
        let primaries = self.primaries(alloc)?;
        let backups = self.backups(alloc)?;
        if primaries.len().saturating_add(backups.len()) > 64 {
            return Ok(self.line_of(self.backup_option()));
        }
        Ok(None)
    }

    /// The line of an option whose value may not stand.
    fn bad_line(&self, alloc: Global, option: ConfOption) -> Result<Option<u32>, Memory>
        ensures { IfOk result (λ line. line ≡ chosen.bad_line (chosen.chosen self.now) option) }
    {
        let Some(entry) = self.last_line(option) else {
            return Ok(None);
        };
        if fits(alloc, row_of(option).rule, entry.value)? {
            return Ok(None);
        }
        Ok(Some(entry.line))
    }

    fn least_bad(
        &self,
        alloc: Global,
        line: Option<u32>,
        options: &[ConfOption],
    ) -> Result<Option<u32>, Memory>
        ensures { IfOk result (λ found. found ≡ chosen.least_bad (chosen.chosen self.now) line options.now) }
    {
        let mut least = line;
        for place in (0..options.len()).rev() {
            least = lesser(self.bad_line(alloc, options[place])?, least);
        }
        Ok(least)
    }

    /// The least line of a value that may not stand.
    pub fn bad_value(&self, alloc: Global) -> Result<Option<u32>, Memory>
        ensures { IfOk result (λ line. line ≡ chosen.bad_value (chosen.chosen self.now)) }
    {
        let line = self.crowded(alloc)?;
        self.least_bad(alloc, line, &OPTIONS)
    }

    fn base_by_name(&self, alloc: Global) -> Result<Option<Text>, Memory>
        ensures { IfOk result (λ found. found ≡ chosen.base_by_name (chosen.chosen self.now)) }
    {
        if !self.is_ipa() {
            return Ok(None);
        }
        let name = match self.value(ConfOption::IpaDomain) {
            Some(name) => name,
            None => self.domain,
        };
        dn_of_name(alloc, name)
    }

    /// The search base, where there is one.
    pub fn base(&self, alloc: Global) -> Result<Option<Text>, Memory>
        ensures { IfOk result (λ found. found ≡ chosen.base (chosen.chosen self.now)) }
    {
        match self.value(ConfOption::LdapSearchBase) {
            Some(value) => Ok(Some(Text::from_bytes(alloc, value)?)),
            None => self.base_by_name(alloc),
        }
    }

    fn lacks_hostname(&self) -> bool
        ensures { result ≡ chosen.lacks_hostname (chosen.chosen self.now) }
    {
        self.access() == AccessMode::Ipa && !self.is_given(ConfOption::IpaHostname)
    }

    /// The first option that is missing.
    pub fn missing(&self, alloc: Global) -> Result<Option<ConfOption>, Memory>
        ensures { IfOk result (λ found. found ≡ chosen.missing (chosen.chosen self.now)) }
    {
        if self.provider().is_none() {
            return Ok(Some(ConfOption::IdProvider));
        }
        if self.primaries(alloc)?.is_empty() {
            return Ok(Some(ConfOption::LdapUri));
        }
        if self.base(alloc)?.is_none() {
            return Ok(Some(ConfOption::LdapSearchBase));
        }
        if self.lacks_hostname() {
            return Ok(Some(ConfOption::IpaHostname));
        }
        Ok(None)
    }

    /// How many lines of the sections that are read have a key that the table doesn't have.
    pub fn unknown(&self) -> u32
        ensures { result ≡ chosen.unknown (chosen.chosen self.now) }
    {
        told(count_unknown(&self.entries, self.domain))
    }
}

/// A count, as far as it is told.
pub fn told(count: usize) -> u32
    ensures { result ≡ chosen.told count }
{
    if count < 0xffff_ffff {
        count as u32
    } else {
        0xffff_ffff
    }
}

fn is_read(domain: &[u8], section: &[u8]) -> bool
    ensures { result ≡ chosen.is_read domain.now section.now }
{
    is_section(Part::Sssd, domain, section)
        || is_section(Part::Nss, domain, section)
        || is_section(Part::Pam, domain, section)
        || is_section(Part::Domain, domain, section)
}

fn is_unknown(domain: &[u8], entry: &Entry<'_>) -> bool
    ensures { result ≡ chosen.is_unknown domain.now (forms.seen entry.now) }
{
    is_read(domain, entry.section) && !is_known(domain, entry)
}

fn count_unknown(entries: &[Entry<'_>], domain: &[u8]) -> usize
    ensures { result ≡ count_by (chosen.is_unknown domain.now) (map forms.seen entries.now) }
{
    entries
        .iter()
        .filter(|entry| is_unknown(domain, entry))
        .count()
}

fn lesser(line: Option<u32>, other: Option<u32>) -> Option<u32>
    ensures { result ≡ chosen.lesser line other }
{
    match (line, other) {
        (None, other) => other,
        (line, None) => line,
        (Some(m), Some(n)) => Some(m.min(n)),
    }
}

/// The items of a list with commas, as texts.
pub fn owned_items(alloc: Global, list: &[u8]) -> Result<Texts, Memory>
    ensures { IfOk result (λ found. found ≡ texts.items_of list.now) }
{
    let found = items(alloc, list)?;
    owned(alloc, &found)
}

fn owned(alloc: Global, items: &[&[u8]]) -> Result<Texts, Memory>
    ensures { IfOk result (λ found. found ≡ map (λ x. x.now) items.now) }
{
    let mut found = Texts::new(alloc);
    for item in items {
        found.push(Text::from_bytes(alloc, item)?)?;
    }
    Ok(found)
}

fn labels(alloc: Global, name: &[u8]) -> Result<Vec<&[u8]>, Memory>
    ensures { IfOk result (λ found. map (λ x. x.now) found.items ≡ values.labels_of name.now) }
{
    let mut found = Vec::new(alloc);
    let mut left = Some(name);
    while let Some(rest) = left {
        let (label, behind) = cut(b'.', rest);
        if !label.is_empty() {
            found.push(label)?;
        }
        left = behind;
    }
    Ok(found)
}

fn push_labels(out: &mut Vec<u8>, labels: &[&[u8]]) -> Result<(), Memory>
    ensures { OnOk result (out.new.items ≡ out.old.items ++ values.further_labels (map (λ x. x.now) labels.now)) }
{
    for label in labels {
        out.extend_from_slice(b",dc=")?;
        out.extend_from_slice(label)?;
    }
    Ok(())
}

fn base_of_labels(alloc: Global, labels: &[&[u8]]) -> Result<Vec<u8>, Memory>
    ensures { IfOk result (λ out. out.items ≡ values.base_of_labels (map (λ x. x.now) labels.now)) }
{
    let mut out = Vec::new(alloc);
    let [first, others @ ..] = labels else {
        return Ok(out);
    };
    out.extend_from_slice(b"dc=")?;
    out.extend_from_slice(first)?;
    push_labels(&mut out, others)?;
    Ok(out)
}

/// The text made of the labels of a domain's name, where it is a DN's.
fn dn_of_name(alloc: Global, name: &[u8]) -> Result<Option<Text>, Memory>
    ensures { IfOk result (λ found. found ≡ chosen.dn_text (values.base_of_name name.now)) }
{
    let labels = labels(alloc, name)?;
    let base = base_of_labels(alloc, &labels)?;
    if !is_dn(alloc, &base)? {
        return Ok(None);
    }
    Ok(Some(Text::from_bytes(alloc, &base)?))
}
