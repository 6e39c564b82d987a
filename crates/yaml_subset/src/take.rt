// Lines, one after the other.
ghost use Rattle.std.specs.Prelude.{◌≡◌, ◌||◌, Some, option_map, Ok, Err, if◌then◌else◌};
ghost use Rattle.yaml_lines.specs.LineParts.{name_in, value_in, column_of, first_of};
ghost use Rattle.yaml_lines.specs.LineShown.{name_shown, value_shown, parts_shown, line_shown};
ghost use Rattle.yaml_lines.specs.Shown.{leaf_shown, spelled_shown};
ghost use Rattle.yaml_subset.specs.Front.{Front};
ghost use Rattle.yaml_subset.specs.Held.{Stands, Placed, IsCheck};
ghost use Rattle.yaml_subset.specs.Refusal.{byte_left_out, name_left_out, value_left_out, first_of_two, wrong_name_in, wrong_value_in, placed, with_parts, with_start, what_left_out, unless_left_out, unless_goes_on, after_line};

use crate::error::YamlErr;
use crate::reader::Reader;
use std::alloc::Global;
use yaml_lines::{Line, Name, Parts, Spelled, Value};

fn name_byte_left_out(name: &Name) -> Option<u8>
    ensures { result ≡ name_left_out (Some (name_shown name.now)) }
{
    match name.text {
        Spelled::LeftOut(byte) => Some(byte),
        Spelled::Good(_) => None,
        Spelled::Wrong(_) => None,
    }
}

fn value_byte_left_out(value: &Value) -> Option<u8>
    ensures { result ≡ value_left_out (Some (value_shown value.now)) }
{
    match value.leaf {
        Spelled::LeftOut(byte) => Some(byte),
        Spelled::Good(_) => None,
        Spelled::Wrong(_) => None,
    }
}

fn name_or_none_left_out(name: &Option<Name>) -> Option<u8>
    ensures { result ≡ name_left_out (option_map name_shown name.now) }
{
    match name {
        Some(name) => name_byte_left_out(name),
        None => None,
    }
}

fn value_or_none_left_out(value: &Option<Value>) -> Option<u8>
    ensures { result ≡ value_left_out (option_map value_shown value.now) }
{
    match value {
        Some(value) => value_byte_left_out(value),
        None => None,
    }
}

fn first_left_out(name: Option<u8>, value: Option<u8>) -> Option<u8>
    ensures { result ≡ first_of_two name value }
{
    match name {
        Some(byte) => Some(byte),
        None => value,
    }
}

// The first byte of what is left out in a line.
fn left_out_in(parts: &Parts) -> Option<u8>
    ensures { result ≡ first_of_two (name_left_out (name_in (parts_shown parts.now))) (value_left_out (value_in (parts_shown parts.now))) }
{
    match parts {
        Parts::Dashed {
            column: _,
            name,
            value,
        } => first_left_out(name_or_none_left_out(name), value_or_none_left_out(value)),
        Parts::Member { name, value } => {
            first_left_out(name_byte_left_out(name), value_or_none_left_out(value))
        }
        Parts::Alone { value } => value_byte_left_out(value),
    }
}

fn is_wrong_name(name: &Name) -> bool
    ensures { result ≡ wrong_name_in (Some (name_shown name.now)) }
{
    match name.text {
        Spelled::Wrong(_) => true,
        Spelled::Good(_) => false,
        Spelled::LeftOut(_) => false,
    }
}

fn is_wrong_value(value: &Value) -> bool
    ensures { result ≡ wrong_value_in (Some (value_shown value.now)) }
{
    match value.leaf {
        Spelled::Wrong(_) => true,
        Spelled::Good(_) => false,
        Spelled::LeftOut(_) => false,
    }
}

fn is_wrong_name_or_none(name: &Option<Name>) -> bool
    ensures { result ≡ wrong_name_in (option_map name_shown name.now) }
{
    match name {
        Some(name) => is_wrong_name(name),
        None => false,
    }
}

fn is_wrong_value_or_none(value: &Option<Value>) -> bool
    ensures { result ≡ wrong_value_in (option_map value_shown value.now) }
{
    match value {
        Some(value) => is_wrong_value(value),
        None => false,
    }
}

// Whether a name or a value of the line spells nothing.
fn has_wrong_part(parts: &Parts) -> bool
    ensures { result ≡ (wrong_name_in (name_in (parts_shown parts.now)) || wrong_value_in (value_in (parts_shown parts.now))) }
{
    match parts {
        Parts::Dashed {
            column: _,
            name,
            value,
        } => {
            let name = is_wrong_name_or_none(name);
            let value = is_wrong_value_or_none(value);
            name || value
        }
        Parts::Member { name, value } => {
            let name = is_wrong_name(name);
            let value = is_wrong_value_or_none(value);
            name || value
        }
        Parts::Alone { value } => is_wrong_value(value),
    }
}

fn column_of_parts(parts: &Parts) -> usize
    ensures { result ≡ column_of (parts_shown parts.now) }
{
    match parts {
        Parts::Dashed {
            column,
            name: _,
            value: _,
        } => *column,
        Parts::Member { name, value: _ } => name.column,
        Parts::Alone { value } => value.column,
    }
}

fn first_of_parts(parts: &Parts) -> u8
    ensures { result ≡ first_of (parts_shown parts.now) }
{
    match parts {
        Parts::Dashed {
            column: _,
            name: _,
            value: _,
        } => b'-',
        Parts::Member { name, value: _ } => name.first,
        Parts::Alone { value } => value.first,
    }
}

fn checked(number: usize, wrong: bool, repeated: bool) -> Result<(), YamlErr>
    ensures { (front : Front) → IsCheck result (if wrong then Err (YamlErr.Scalar number) else if repeated then Err (YamlErr.Repeated number) else Ok front) front }
{
    if wrong {
        Err(YamlErr::Scalar { line: number })
    } else if repeated {
        Err(YamlErr::Repeated { line: number })
    } else {
        Ok(())
    }
}

impl Reader {
    // Takes the parts of a line, and refuses it for what is wrong in it.
    fn place(&mut self, alloc: Global, line: Line) -> Result<(), YamlErr>
        ensures { (front : Front) → Stands self.old front → Placed self.new result (placed (line_shown line) (with_parts line.number (parts_shown line.parts) front)) }
    {
        let wrong = has_wrong_part(&line.parts);
        let number = line.number;
        match self.parts(alloc, number, line.parts) {
            Ok(repeated) => checked(number, wrong, repeated),
            Err(error) => Err(error),
        }
    }

    // Takes a line of a document that has begun.
    fn take_begun(&mut self, alloc: Global, line: Line) -> Result<(), YamlErr>
        ensures { (front : Front) → Stands self.old front → Placed self.new result (unless_goes_on (line_shown line) front) }
    {
        if self.goes_on_at(column_of_parts(&line.parts)) {
            return Err(YamlErr::LeftOut {
                line: line.number,
                what: first_of_parts(&line.parts),
            });
        }
        match left_out_in(&line.parts) {
            Some(what) => Err(YamlErr::LeftOut {
                line: line.number,
                what,
            }),
            None => self.place(alloc, line),
        }
    }

    // Begins the document of a line that is the first one of it.
    fn start_or(&mut self, alloc: Global, line: &Line) -> Result<(), YamlErr>
        ensures { (front : Front) → Stands self.old front → Placed self.new result (with_start (line_shown line.now) line.now.starts front) }
    {
        if line.starts {
            self.start(alloc, line.number, first_of_parts(&line.parts))
        } else {
            Ok(())
        }
    }

    /// Takes a line.
    #[tactic(auto, unfolding(crate::specs::Refusal::after_line))]
    pub(crate) fn take(&mut self, alloc: Global, line: Line) -> Result<(), YamlErr>
        ensures { (front : Front) → Stands self.old front → Placed self.new result (after_line (line_shown line) front) }
    {
        if line.tab {
            return Err(YamlErr::Tab { line: line.number });
        }
        match self.start_or(alloc, &line) {
            Ok(()) => self.take_begun(alloc, line),
            Err(error) => Err(error),
        }
    }
}
