// Policies of several files.
ghost use Rattle.std.specs.Prelude.{ℕ, List, ◌++◌, ◌≡◌, if◌then◌else◌, bytes_eq, Some, OnOk, OnErr, IfOk};
ghost use Rattle.std.specs.String.{string_bytes};
ghost use Rattle.policy_spec.specs.Named.{under, AreNames};
ghost use Rattle.policy_spec.specs.Join.{moved as moved_bound, IsTableOf, IsJoin};

use crate::named::Named;
use crate::policy_err::PolicyErr;
use crate::policy_list::{BreakerPolicies, Policies};
use retry_core::Bound;
use side_base::{NoMemory, Sequence, Text};
use std::mem;

// A bound whose breaker stands `count` places further on.
fn moved(bound: Bound, count: u32) -> Result<Bound, NoMemory>
    ensures { IfOk result (λ b. b ≡ moved_bound count bound) }
{
    let breaker = match bound.breaker {
        Some(place) => match place.checked_add(count) {
            Some(place) => Some(place),
            None => return Err(NoMemory),
        },
        None => None,
    };
    Ok(Bound {
        timeout_ms: bound.timeout_ms,
        retry: bound.retry,
        breaker,
    })
}

// Puts a bound of the later file under its name.
fn put_moved(all: &mut Named<Bound>, name: String, bound: Bound, count: u32) -> Result<(), NoMemory>
    ensures found { OnOk result ((other : List ℕ) → under other all.new ≡ (if bytes_eq (string_bytes name) other then Some (moved_bound count bound) else under other all.old)) }
    ensures names { OnOk result (AreNames all.new) }
{
    match moved(bound, count) {
        Ok(bound) => all.put(name, bound),
        Err(error) => Err(error),
    }
}

// What stands in a table and in a later one, whose breakers stand `count` places further on.
fn table_of_both(
    earlier: &Named<Bound>,
    mut later: Named<Bound>,
    count: u32,
) -> Result<Named<Bound>, PolicyErr>
    ensures { IsTableOf count earlier.now later result }
{
    let mut both = match earlier.copy() {
        Ok(both) => both,
        Err(_) => return Err(PolicyErr::NoMemory),
    };
    while let Some((name, bound)) = later.take_first() {
        if earlier.find(name.as_str()).is_some() {
            let name = Text::from_string(name);
            return Err(PolicyErr::Repeated { name });
        }
        match put_moved(&mut both, name, bound, count) {
            Ok(()) => {}
            Err(_) => return Err(PolicyErr::NoMemory),
        }
    }
    Ok(both)
}

// Adds breakers behind others; without memory those stay as they were.
fn append(breakers: &mut BreakerPolicies, more: BreakerPolicies) -> Result<(), NoMemory>
    ensures ok { OnOk result (breakers.new ≡ breakers.old ++ more) }
    ensures err { OnErr result (breakers.new ≡ breakers.old) }
{
    let mut more = more.into_vec();
    let none = Sequence::new(*more.allocator());
    let mut all = mem::replace(breakers, none).into_vec();
    match all.append(&mut more) {
        Ok(()) => {
            *breakers = Sequence::from_vec(all);
            Ok(())
        }
        Err(error) => {
            *breakers = Sequence::from_vec(all);
            Err(error)
        }
    }
}

/// Adds what a later file binds to what earlier ones do. Its breakers stand behind theirs, and what it binds counts in the list
/// of all. A target that both bind is `Repeated`: the first of the later's apps, or else of its components outbound, or else of
/// those inbound, each in byte order of their names. More than 4,294,967,295 breakers are want of memory. On a refusal the
/// earlier ones stay as they were.
pub fn join(one: &mut Policies, more: Policies) -> Result<(), PolicyErr>
    ensures { IsJoin result one.old more one.new }
{
    let count = one.breakers.len();
    if count > 4294967295 {
        return Err(PolicyErr::NoMemory);
    }
    let count = count as u32;
    let Policies {
        apps,
        outbound,
        inbound,
        breakers,
    } = more;
    let apps = match table_of_both(&one.apps, apps, count) {
        Ok(apps) => apps,
        Err(error) => return Err(error),
    };
    let outbound = match table_of_both(&one.outbound, outbound, count) {
        Ok(outbound) => outbound,
        Err(error) => return Err(error),
    };
    let inbound = match table_of_both(&one.inbound, inbound, count) {
        Ok(inbound) => inbound,
        Err(error) => return Err(error),
    };
    match append(&mut one.breakers, breakers) {
        Ok(()) => {
            one.apps = apps;
            one.outbound = outbound;
            one.inbound = inbound;
            Ok(())
        }
        Err(_) => Err(PolicyErr::NoMemory),
    }
}
