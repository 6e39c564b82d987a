// Components that may not stand beside one another.
ghost use Rattle.std.specs.Prelude.{◌≡◌, Some, option_map};
ghost use Rattle.resource_spec.specs.Load.{journal_of, is_second, is_same_file, clashes};

use crate::component::{Component, ComponentKind};
use side_base::Text;

fn journal_path(c: &Component) -> Option<&Text>
    ensures { option_map (λ text. text.now) result ≡ journal_of c.now }
{
    match c.kind() {
        ComponentKind::StateJournal => Some(c.path()),
        ComponentKind::StateMemory => None,
        ComponentKind::PubsubMemory => None,
        ComponentKind::BindingHttp => None,
        ComponentKind::BindingCron => None,
    }
}

fn is_second_of(path: &[u8], other: &[u8]) -> bool
    ensures { result ≡ is_second path.now other.now }
{
    match path.strip_prefix(other) {
        Some(rest) => rest == b".v2".as_slice(),
        None => false,
    }
}

fn is_same_text(path: &Text, other: &Text) -> bool
    ensures { result ≡ is_same_file (Some path.now) (Some other.now) }
{
    let path = path.bytes();
    let other = other.bytes();
    path == other || is_second_of(path, other) || is_second_of(other, path)
}

fn is_same_journal(path: Option<&Text>, other: Option<&Text>) -> bool
    ensures { result ≡ is_same_file (option_map (λ text. text.now) path.entry) (option_map (λ text. text.now) other.entry) }
{
    match path {
        Some(path) => match other {
            Some(other) => is_same_text(path, other),
            None => false,
        },
        None => false,
    }
}

/// Whether two components have one name, or one file.
pub(crate) fn is_clash(c: &Component, other: &Component) -> bool
    ensures { result ≡ clashes c.now other.now }
{
    c.name().bytes() == other.name().bytes()
        || is_same_journal(journal_path(c), journal_path(other))
}
