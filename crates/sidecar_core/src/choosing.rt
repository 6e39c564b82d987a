//! Which store keeps the state of actors.
ghost use Rattle.std.specs.Prelude.{◌≡◌, ◌&&◌, codes, option_map};
ghost use Rattle.sidecar_core.specs.Sites.{actor_store_of, holds_bars, is_store, keeps_actors, says_true};

use crate::starting::{count_of, is_store};
use resource_spec::{Component, Components};
use side_base::Text;
use state_api::has_bars;

/// The place, among the state components, of the first that keeps the state of actors: its setting `actorStateStore` is `true`, and in its setting `keyPrefix`
/// no two bars stand in a row. Takes no memory.
pub fn actor_store(components: &Components) -> Option<usize>
    ensures { result ≡ actor_store_of components.now }
{
    let mut stores = 0;
    for place in 0..components.len() {
        let component = components.at(place);
        if is_actor_store(component) {
            return Some(stores);
        }
        stores += count_of(component);
    }
    None
}

/// Whether it is a store that keeps the state of actors.
fn is_actor_store(component: &Component) -> bool
    ensures { result ≡ (is_store component.now.kind && keeps_actors component.now) }
{
    is_store(component.kind()) && keeps_actors(component)
}

/// Whether its settings say that it keeps the state of actors, and allow it.
fn keeps_actors(component: &Component) -> bool
    ensures { result ≡ keeps_actors component.now }
{
    let settings = component.settings();
    says_true(settings.find(b"actorStateStore")) && !holds_bars(settings.find(b"keyPrefix"))
}

fn says_true(setting: Option<&Text>) -> bool
    ensures { result ≡ says_true (option_map (λ text. text.now) setting.entry) }
{
    match setting {
        Some(text) => text.bytes() == b"true".as_slice(),
        None => false,
    }
}

fn holds_bars(setting: Option<&Text>) -> bool
    ensures { result ≡ holds_bars (option_map (λ text. text.now) setting.entry) }
{
    match setting {
        Some(text) => has_bars(text.bytes()),
        None => false,
    }
}
