ghost use Rattle.std.specs.Prelude.{◌≡◌, ◌≤◌, ℕ, List, Some, codes, option_map};
ghost use Rattle.resource_spec.specs.Component.{HasNeeds, kind_name, setting_of, prefix_by, key_prefix_of};
ghost use Rattle.side_base.specs.Limits.{greatest_duration};
ghost use Rattle.resource_spec.specs.Schedule.{period_in};
ghost use Rattle.resource_spec.specs.Url.{address_of, url_shown};

use crate::schedule::period_of;
use crate::setting::Settings;
use crate::url::{Url, url_of};
use side_base::Text;
use std::marker::Model;

/// What a component is.
#[derive(Clone, Copy, Debug, PartialEq, Eq)]
pub enum ComponentKind {
    /// `state.in-memory`: a store whose rows are kept in memory.
    StateMemory,
    /// `state.journal`: a store whose rows are kept in a file; its setting `path` is there.
    StateJournal,
    /// `pubsub.in-memory`: a broker.
    PubsubMemory,
    /// `bindings.http`: an output binding; its setting `url` is an address.
    BindingHttp,
    /// `bindings.cron`: an input binding, which ticks; its setting `schedule` says how often.
    BindingCron,
}

impl ComponentKind {
    /// The type that documents give a component of this kind. Takes no memory.
    pub fn name(self) -> &'static str
        ensures { result.now ≡ kind_name self }
    {
        match self {
            ComponentKind::StateMemory => "state.in-memory",
            ComponentKind::StateJournal => "state.journal",
            ComponentKind::PubsubMemory => "pubsub.in-memory",
            ComponentKind::BindingHttp => "bindings.http",
            ComponentKind::BindingCron => "bindings.cron",
        }
    }
}

/// A component that has what its kind needs: a journal has a path, an output binding an address, a cron component a schedule that
/// says a period, and a store no prefix by namespaces. Contracts see it as the record of its name, kind, version and settings.
#[derive(Debug, Drop)]
pub struct Component {
    name: Text,
    kind: ComponentKind,
    version: Text,
    settings: Settings,
}

impl Model for Component {
    ghost use Rattle.resource_spec.specs.Component.{Loaded, HasNeeds};

    ghost Value = { Loaded };

    ghost view = { λ c. record { name = c.name; kind = c.kind; version = c.version; settings = c.settings } };

    ghost invariant = { λ c. HasNeeds (record { name = c.name; kind = c.kind; version = c.version; settings = c.settings }) };
}

impl Component {
    /// A component of these parts. Takes no memory.
    pub fn new(name: Text, kind: ComponentKind, version: Text, settings: Settings) -> Component
        requires { HasNeeds (record { name = name; kind = kind; version = version; settings = settings }) }
        ensures { result ≡ record { name = name; kind = kind; version = version; settings = settings } }
    {
        Component {
            name,
            kind,
            version,
            settings,
        }
    }

    /// Its name, by which requests call it.
    pub fn name(&self) -> &Text
        ensures { result.now ≡ self.now.name }
    {
        &self.name
    }

    /// What it is.
    pub fn kind(&self) -> ComponentKind
        ensures kind { result ≡ self.now.kind }
        ensures needs { HasNeeds self.now }
    {
        self.kind
    }

    /// The version that its document says; `v1` where it says none.
    pub fn version(&self) -> &Text
        ensures { result.now ≡ self.now.version }
    {
        &self.version
    }

    /// All its settings.
    pub fn settings(&self) -> &Settings
        ensures { result.now ≡ self.now.settings }
    {
        &self.settings
    }

    /// The path of a journal's file.
    pub fn path(&self) -> &Text
        requires { self.now.kind ≡ ComponentKind.StateJournal }
        ensures { setting_of self.now (codes "path") ≡ Some result.now }
    {
        match self.settings.find(b"path") {
            Some(path) => path,
            None => unreachable!(),
        }
    }

    /// Where an output binding sends its requests.
    pub fn url(&self) -> Url<'_>
        requires { self.now.kind ≡ ComponentKind.BindingHttp }
        ensures { (text : List ℕ) → setting_of self.now (codes "url") ≡ Some text → address_of text ≡ Some (url_shown result) }
    {
        match self.settings.find(b"url") {
            Some(url) => match url_of(url.bytes()) {
                Some(url) => url,
                None => unreachable!(),
            },
            None => unreachable!(),
        }
    }

    /// The schedule of a cron component.
    pub fn schedule(&self) -> &Text
        requires { self.now.kind ≡ ComponentKind.BindingCron }
        ensures { setting_of self.now (codes "schedule") ≡ Some result.now }
    {
        match self.settings.find(b"schedule") {
            Some(schedule) => schedule,
            None => unreachable!(),
        }
    }

    /// How often a cron component ticks, in milliseconds: from 1,000 to 31,536,000,000.
    pub fn period(&self) -> u64
        requires { self.now.kind ≡ ComponentKind.BindingCron }
        ensures says { (text : List ℕ) → setting_of self.now (codes "schedule") ≡ Some text → period_in text ≡ Some result }
        ensures low { 1000 ≤ result }
        ensures high { result ≤ greatest_duration }
    {
        match self.settings.find(b"schedule") {
            Some(schedule) => match period_of(schedule.bytes()) {
                Some(period) => period,
                None => unreachable!(),
            },
            None => unreachable!(),
        }
    }

    /// What stands before the keys that an app has in a store: the app's id, where the setting `keyPrefix` isn't there or is
    /// `appid`, the component's name where it is `name`, nothing where it is `none`, and its own text where it is another.
    /// Takes no memory.
    pub fn key_prefix<'a>(&'a self, app: &'a Text) -> Option<&'a Text>
        ensures { option_map (λ text. text.now) result ≡ key_prefix_of app.now self.now }
    {
        match self.settings.find(b"keyPrefix") {
            None => Some(app),
            Some(setting) => self.prefix_said(app, setting),
        }
    }

    // The prefix that this setting says.
    fn prefix_said<'a>(&'a self, app: &'a Text, setting: &'a Text) -> Option<&'a Text>
        ensures { option_map (λ text. text.now) result ≡ prefix_by app.now self.now.name (Some setting.now) }
    {
        let said = setting.bytes();
        if said == b"appid".as_slice() {
            Some(app)
        } else if said == b"name".as_slice() {
            Some(&self.name)
        } else if said == b"none".as_slice() {
            None
        } else {
            Some(setting)
        }
    }
}
