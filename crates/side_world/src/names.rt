ghost use Rattle.std.specs.Prelude.{◌≡◌, ◌↔◌, ◌++◌, ℕ, List, Contains, IfOk, IsTrue, map, codes};
ghost use Rattle.std.specs.List.Sorted.{IsStrictlySortedBy};
ghost use Rattle.std.specs.Ordering.{nat_cmp};
ghost use Rattle.std.specs.Cmp.Lexicographic.{slice_cmp};
ghost use Rattle.side_world.specs.Files.{IsYamlName, IsListing};

use side_base::{Names, NoMemory, Text};
use std::alloc::Global;
use std::collections::BTreeSet;

/// Those of the names that end in `.yaml` or `.yml`, each once, in the order of their bytes.
pub fn yaml_names(alloc: Global, names: &[Text]) -> Result<Names, NoMemory>
    ensures listing { IfOk result IsListing }
    ensures all { IfOk result (λ listed. (name : List ℕ) → Contains listed name ↔ (IsYamlName name × Contains names.now name)) }
{
    let mut kept: BTreeSet<&str> = BTreeSet::new(alloc);
    for i in 0..names.len() {
        let name = names[i].as_str();
        if is_yaml_name(name) {
            kept.insert(name)?;
        }
    }
    copied(alloc, &kept)
}

fn copied(alloc: Global, kept: &BTreeSet<&str>) -> Result<Names, NoMemory>
    ensures names { IfOk result (λ names. names ≡ map (λ k. k.now) kept.now.keys) }
    ensures ordered { IsStrictlySortedBy (λ x y. slice_cmp nat_cmp x.now y.now) kept.now.keys }
{
    let mut names = Names::new(alloc);
    for name in kept.iter() {
        names.push(Text::from_str(alloc, name)?)?;
    }
    Ok(names)
}

fn is_yaml_name(name: &str) -> bool
    ensures { IsTrue result ↔ IsYamlName name.now }
{
    ends_in(name.as_bytes(), b".yaml") || ends_in(name.as_bytes(), b".yml")
}

fn ends_in(name: &[u8], ending: &[u8]) -> bool
    ensures { IsTrue result ↔ ((front : List ℕ) × (name.now ≡ front ++ ending.now)) }
{
    name.ends_with(ending)
}
