// Components as texts: a line for each, and below it its facts and its settings.

use case_text::Lines;
use resource_spec::{Component, ComponentKind, Components, Settings, Url};
use side_base::{NoMemory, Text};
use std::alloc::Global;

fn add_prefix(lines: &mut Lines, component: &Component, app: &Text) {
    match component.key_prefix(app) {
        Some(prefix) => lines.add_line("  prefix ", prefix.as_str()),
        None => lines.add("  no prefix\n"),
    }
}

fn text_in(bytes: &[u8]) -> &str {
    match str::from_utf8(bytes) {
        Ok(text) => text,
        Err(_) => "?",
    }
}

fn add_url(lines: &mut Lines, url: &Url<'_>) {
    lines.add("  host ");
    lines.add(text_in(url.host));
    lines.add_number(", port ", url.port as u64);
    lines.add_line(", path ", text_in(url.path));
}

// Adds what a component is by its kind.
fn add_facts(lines: &mut Lines, component: &Component, app: &Text) {
    match component.kind() {
        ComponentKind::StateMemory => add_prefix(lines, component, app),
        ComponentKind::StateJournal => {
            lines.add_line("  path ", component.path().as_str());
            add_prefix(lines, component, app);
        }
        ComponentKind::PubsubMemory => {}
        ComponentKind::BindingHttp => add_url(lines, &component.url()),
        ComponentKind::BindingCron => lines.add_number_line("  every ", component.period()),
    }
}

fn add_settings(lines: &mut Lines, settings: &Settings) {
    for place in 0..settings.len() {
        let setting = settings.at(place);
        lines.add("  ");
        lines.add(setting.name.as_str());
        lines.add_line("=", setting.value.as_str());
    }
}

fn add_component(lines: &mut Lines, component: &Component, app: &Text) {
    lines.add(component.name().as_str());
    lines.add(" ");
    lines.add(component.kind().name());
    lines.add_line(" ", component.version().as_str());
    add_facts(lines, component, app);
    add_settings(lines, component.settings());
}

/// The components, for this app.
pub(crate) fn components_text(
    alloc: Global,
    components: &Components,
    app: &Text,
) -> Result<Text, NoMemory> {
    let mut lines = Lines::new(alloc);
    for place in 0..components.len() {
        add_component(&mut lines, components.at(place), app);
    }
    lines.done()
}
