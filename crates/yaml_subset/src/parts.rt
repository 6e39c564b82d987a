// The parts of a line, one after the other.
ghost use Rattle.std.specs.Prelude.{◌≡◌, [], Some, option_map};
ghost use Rattle.yaml_lines.specs.LineParts.{name_in};
ghost use Rattle.yaml_lines.specs.LineShown.{name_shown, value_shown, parts_shown};
ghost use Rattle.yaml_lines.specs.Shown.{spelled_shown};
ghost use Rattle.yaml_subset.specs.Front.{Front};
ghost use Rattle.yaml_subset.specs.Held.{Stands, Led, Placed, Told};
ghost use Rattle.yaml_subset.specs.Line.{text_said};
ghost use Rattle.yaml_subset.specs.Refusal.{at_line, with_lead, with_both, with_leaf, with_name, with_parts};

use crate::error::YamlErr;
use crate::grow::Row;
use crate::open::Holder;
use crate::reader::Reader;
use std::alloc::Global;
use yaml_lines::{Name, Parts, Spelled, Value};

fn text_of_name(alloc: Global, text: Spelled<Vec<u8>>) -> Vec<u8>
    ensures { result.items ≡ text_said (spelled_shown (λ t. t.items) text) }
{
    match text {
        Spelled::Good(text) => text,
        Spelled::LeftOut(_) => Vec::new(alloc),
        Spelled::Wrong(_) => Vec::new(alloc),
    }
}

impl Reader {
    // Takes a value, if there is one.
    fn value_or(&mut self, alloc: Global, line: usize, value: Option<Value>) -> Result<(), YamlErr>
        ensures { (front : Front) → Stands self.old front → Placed self.new result (with_leaf line (option_map value_shown value) front) }
    {
        match value {
            Some(value) => self.value(alloc, line, value),
            None => Ok(()),
        }
    }

    // Takes the name of a member. Tells whether it is taken.
    fn name(&mut self, alloc: Global, line: usize, name: Name) -> Result<bool, YamlErr>
        ensures { (front : Front) → Stands self.old front → Led self.new result (with_name line (Some (name_shown name)) front) }
    {
        let row = Row {
            holder: Holder::Mapping,
            column: name.column,
            line,
            name: text_of_name(alloc, name.text),
        };
        self.lead(alloc, row, name.first)
    }

    // Takes a name, if there is one.
    fn name_or(&mut self, alloc: Global, line: usize, name: Option<Name>) -> Result<bool, YamlErr>
        ensures { (front : Front) → Stands self.old front → Told self.new result (option_map name_shown name) (with_name line (option_map name_shown name) front) }
    {
        match name {
            Some(name) => self.name(alloc, line, name),
            None => Ok(false),
        }
    }

    // Takes a dash.
    fn dash(&mut self, alloc: Global, line: usize, column: usize) -> Result<(), YamlErr>
        ensures { (front : Front) → Stands self.old front → Placed self.new result (at_line line 45 (with_lead Holder.Sequence column line [] front)) }
    {
        let row = Row {
            holder: Holder::Sequence,
            column,
            line,
            name: Vec::new(alloc),
        };
        match self.lead(alloc, row, b'-') {
            Ok(_) => Ok(()),
            Err(error) => Err(error),
        }
    }

    /// A document begins.
    pub(crate) fn start(&mut self, alloc: Global, line: usize, first: u8) -> Result<(), YamlErr>
        ensures { (front : Front) → Stands self.old front → Placed self.new result (at_line line first (with_lead Holder.File 0 line [] front)) }
    {
        let row = Row {
            holder: Holder::File,
            column: 0,
            line,
            name: Vec::new(alloc),
        };
        match self.lead(alloc, row, first) {
            Ok(_) => Ok(()),
            Err(error) => Err(error),
        }
    }

    // Takes a name and a value. Tells whether the name is taken.
    fn name_and_value(
        &mut self,
        alloc: Global,
        line: usize,
        name: Option<Name>,
        value: Option<Value>,
    ) -> Result<bool, YamlErr>
        ensures { (front : Front) → Stands self.old front → Told self.new result (option_map name_shown name) (with_both line (option_map name_shown name) (option_map value_shown value) front) }
    {
        match self.name_or(alloc, line, name) {
            Ok(repeated) => match self.value_or(alloc, line, value) {
                Ok(()) => Ok(repeated),
                Err(error) => Err(error),
            },
            Err(error) => Err(error),
        }
    }

    /// Takes all parts of a line. Tells whether its name is taken.
    pub(crate) fn parts(
        &mut self,
        alloc: Global,
        line: usize,
        parts: Parts,
    ) -> Result<bool, YamlErr>
        ensures { (front : Front) → Stands self.old front → Told self.new result (name_in (parts_shown parts)) (with_parts line (parts_shown parts) front) }
    {
        match parts {
            Parts::Dashed {
                column,
                name,
                value,
            } => match self.dash(alloc, line, column) {
                Ok(()) => self.name_and_value(alloc, line, name, value),
                Err(error) => Err(error),
            },
            Parts::Member { name, value } => { self.name_and_value(alloc, line, Some(name), value) }
            Parts::Alone { value } => match self.value(alloc, line, value) {
                Ok(()) => Ok(false),
                Err(error) => Err(error),
            },
        }
    }
}
