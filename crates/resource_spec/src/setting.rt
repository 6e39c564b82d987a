ghost use Rattle.std.specs.Prelude.{◌≡◌, ◌<◌, [], ◌∷◌, ◌++◌, length, slice_index_or, option_map, OnOk, OnErr};
ghost use Rattle.resource_spec.specs.Setting.{setting_named};

use side_base::{NoMemory, Text};
use std::alloc::Global;
use std::marker::Model;

/// One setting of a component.
#[derive(Debug, Drop)]
pub struct Setting {
    pub name: Text,
    pub value: Text,
}

/// The settings of a component, in the order of its document. Contracts see them as a list.
#[derive(Debug, Drop)]
pub struct Settings {
    list: Vec<Setting>,
}

impl Model for Settings {
    ghost use Rattle.std.specs.Prelude.{List};
    ghost use Rattle.resource_spec.specs.declared.setting.Setting.{Setting};

    ghost Value = { List Setting };

    ghost view = { λ s. s.list.items };
}

impl Settings {
    /// No settings; takes no memory.
    pub fn new(alloc: Global) -> Settings
        ensures { result ≡ [] }
    {
        Settings {
            list: Vec::new(alloc),
        }
    }

    /// Adds a setting at the end; without memory the settings stay as they were.
    pub fn push(&mut self, setting: Setting) -> Result<(), NoMemory>
        ensures ok { OnOk result (self.new ≡ self.old ++ setting ∷ []) }
        ensures err { OnErr result (self.new ≡ self.old) }
    {
        self.list.push(setting)?;
        Ok(())
    }

    /// The number of settings.
    pub fn len(&self) -> usize
        ensures { result ≡ length self.now }
    {
        self.list.len()
    }

    /// The setting at this place, counted from 0.
    pub fn at(&self, place: usize) -> &Setting
        requires { place < length self.now }
        ensures { result.now ≡ slice_index_or self.now place result.now }
    {
        &self.list[place]
    }

    /// The value of the first setting of this name; `None` exactly where there is none.
    pub fn find(&self, name: &[u8]) -> Option<&Text>
        ensures { option_map (λ text. text.now) result ≡ setting_named name.now self.now }
    {
        match self
            .list
            .iter()
            .find(|setting| setting.name.bytes() == name)
        {
            Some(setting) => Some(&setting.value),
            None => None,
        }
    }
}
