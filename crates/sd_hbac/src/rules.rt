// Account checks by the access rules of FreeIPA.
ghost use Rattle.std.specs.Prelude.{◌≡◌, ◌<◌, ◌^◌, length, IfSome, IfNone};
ghost use Rattle.std.specs.Option.{option_map};
ghost use Rattle.sd_rules.specs.Access as access;
ghost use Rattle.sd_rules.specs.Keys as keyed;
ghost use Rattle.sd_hbac.specs.Seen as seen;
ghost use Rattle.sd_hbac.specs.Grants.{Grants, NoneMatches};

use sd_base::{Text, Texts};
use sd_rules::{Element, Rule, RuleBook, Service, Who};

/// Whether two names are equal without ASCII case.
fn same_letters(a: &Text, b: &Text) -> bool
    ensures { result ≡ keyed.same_letters a.now b.now }
{
    a.bytes().eq_ignore_ascii_case(b.bytes())
}

fn holds_letters(names: &Texts, name: &Text) -> bool
    ensures { result ≡ access.holds_letters names.now name.now }
{
    names.items().iter().any(|n| same_letters(n, name))
}

fn shares_letters(names: &Texts, others: &Texts) -> bool
    ensures { result ≡ access.shares_letters names.now others.now }
{
    names.items().iter().any(|n| holds_letters(others, n))
}

/// Whether an element matches a thing by its category, its name or its groups.
fn element_matches(element: &Element, name: &Text, groups: &Texts) -> bool
    ensures { result ≡ access.element_matches element.now name.now groups.now }
{
    element.all || holds_letters(&element.names, name) || shares_letters(groups, &element.groups)
}

/// Whether one name comes before another in byte order.
pub fn comes_before(a: &Text, b: &Text) -> bool
    ensures { result ≡ access.comes_before a.now b.now }
{
    a.bytes() < b.bytes()
}

/// Whether one of the groups holds a service of this name; services of equal names stand together.
fn shares_service(services: &[Service], name: &Text, groups: &Texts) -> bool
    ensures { result ≡ access.shares_letters (access.service_groups services.now name.now) groups.now }
{
    for service in services {
        if same_letters(&service.name, name) && shares_letters(&service.groups, groups) {
            return true;
        }
    }
    false
}

/// Whether an element matches a service.
fn service_matches(services: &[Service], element: &Element, name: &Text) -> bool
    ensures { result ≡ access.element_matches element.now name.now (access.service_groups services.now name.now) }
{
    element.all
        || holds_letters(&element.names, name)
        || shares_service(services, name, &element.groups)
}

fn rule_matches(services: &[Service], who: &Who<'_>, rule: &Rule) -> bool
    ensures { result ≡ access.rule_matches services.now (seen.asker who.now) rule.now }
{
    rule.enabled
        && element_matches(&rule.users, who.user, who.groups)
        && element_matches(&rule.hosts, who.host, who.host_groups)
        && service_matches(services, &rule.services, who.service)
}

/// A rule by its place in the book, counted from 0, and its name.
#[derive(Clone, Copy)]
struct Placed<'a> {
    place: u32,
    name: &'a Text,
}

/// Of two rules the one of the lesser name, and the first where the names are equal.
fn lesser_of<'a>(first: Placed<'a>, later: Option<Placed<'a>>) -> Placed<'a>
    ensures { seen.placed result ≡ access.lesser_of (seen.placed first.entry) (option_map seen.placed later.entry) }
{
    match later {
        Some(later) if comes_before(later.name, first.name) => later,
        _ => first,
    }
}

/// Of the rules that match, the one of least name, and of these the first.
fn least_matching<'a>(services: &[Service], who: &Who<'_>, rules: &'a [Rule]) -> Option<Placed<'a>>
    requires { length rules.now < 2 ^ 32 }
    ensures { option_map seen.placed result ≡ access.least_matching services.now (seen.asker who.now) 0 rules.now }
{
    let mut least = None;
    for place in (0..rules.len()).rev() {
        let rule = &rules[place];
        if rule_matches(services, who, rule) {
            let first = Placed {
                place: place as u32,
                name: &rule.name,
            };
            least = Some(lesser_of(first, least));
        }
    }
    least
}

/// The rule that grants, by its place in the book, counted from 0.
pub fn allowed(book: &RuleBook, who: &Who<'_>) -> Option<u32>
    requires { length book.now.rules < 2 ^ 32 }
    ensures granting { result ≡ access.granting_rule book.now (seen.asker who.now) }

    // The rule found is enabled and matches, and has the least name of these and the first place.
    ensures found { IfSome result (Grants book.now (seen.asker who.now)) }
    ensures none { IfNone result (NoneMatches book.now (seen.asker who.now)) }
{
    let least = least_matching(book.services.items(), who, book.rules.items());
    least.map(|rule| rule.place)
}
