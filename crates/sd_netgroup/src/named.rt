//! Which entries are netgroups of a name.
ghost use Rattle.std.specs.Prelude.{◌≡◌, ◌&&◌, codes};
ghost use Rattle.std.specs.List.{list_any};
ghost use Rattle.sd_dn.specs.Comparing.{same_text};
ghost use Rattle.sd_match.specs.Matching.{has_value};
ghost use Rattle.sd_match.specs.Answering.{same_bytes};
ghost use Rattle.sd_netgroup.specs.Named.{is_called};

use sd_base::Text;
use sd_dn::compare::same_text;
use sd_entry::has_class;
use sd_ldap::{Attribute, DirEntry};

/// Whether one of the values is the text, byte for byte.
fn has_text(values: &[Text], text: &Text) -> bool
    ensures { result ≡ list_any (λ value. same_bytes value text.now) values.now }
{
    values.iter().any(|value| value == text)
}

fn own_has_name(attribute: &Attribute, name: &Text) -> bool
    ensures { result ≡ (same_text attribute.now.name (codes "cn") && list_any (λ value. same_bytes value name.now) attribute.now.values) }
{
    same_text(attribute.name.bytes(), b"cn") && has_text(attribute.values.items(), name)
}

fn has_name(attributes: &[Attribute], name: &Text) -> bool
    ensures { result ≡ has_value (codes "cn") (λ value. same_bytes value name.now) attributes.now }
{
    attributes
        .iter()
        .any(|attribute| own_has_name(attribute, name))
}

/// Whether an entry is a netgroup of this name. The class is compared without ASCII case, the name byte for byte.
pub fn is_called(entry: &DirEntry, name: &Text) -> bool
    ensures { result ≡ is_called name.now entry.now.attributes }
{
    has_class(entry, b"nisNetgroup") && has_name(entry.attributes.items(), name)
}
