// How a refusal is told.
ghost use Rattle.std.specs.Prelude.{◌≡◌, ◌++◌, IfOk, decimal};
ghost use Rattle.yaml_subset.specs.RefusalText.{refusal_text};

use crate::error::YamlErr;
use itoa::Buffer;
use side_base::{NoMemory, Text};
use std::alloc::Global;

// These words and a number behind them.
fn with_number(alloc: Global, words: &str, number: usize) -> Result<Text, NoMemory>
    ensures { IfOk result (λ text. text ≡ words.now ++ decimal number) }
{
    let mut buffer = Buffer::new();
    let mut text = Text::from_str(alloc, words)?;
    text.push(buffer.format(number))?;
    Ok(text)
}

impl YamlErr {
    /// The text by which a refusal is told: its name, and its line, or the place of a byte, behind it.
    pub fn text(&self, alloc: Global) -> Result<Text, NoMemory>
        ensures { IfOk result (λ text. text ≡ refusal_text self.now) }
    {
        match self {
            YamlErr::Tab { line } => with_number(alloc, "Tab line ", *line),
            YamlErr::Indent { line } => with_number(alloc, "Indent line ", *line),
            YamlErr::LeftOut { line, .. } => with_number(alloc, "LeftOut line ", *line),
            YamlErr::Repeated { line } => with_number(alloc, "Repeated line ", *line),
            YamlErr::Scalar { line } => with_number(alloc, "Scalar line ", *line),
            YamlErr::NotUtf8 { at } => with_number(alloc, "NotUtf8 at ", *at),
            YamlErr::NoMemory => Ok(Text::from_static(alloc, "NoMemory")),
        }
    }
}
