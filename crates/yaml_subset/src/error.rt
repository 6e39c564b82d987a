use std::error::Error;
use std::fmt;

/// Why a file was not read. Lines count from 1 over the whole file.
#[derive(Clone, Copy, Debug, PartialEq, Eq)]
pub enum YamlErr {
    /// There is a tab in the white space that begins the line.
    Tab { line: usize },
    /// The line stands at an indent that no open part has.
    Indent { line: usize },
    /// YAML that this subset leaves out begins on the line, with the byte `what`.
    LeftOut { line: usize, what: u8 },
    /// A mapping has the name of this line twice.
    Repeated { line: usize },
    /// There is no scalar as there should be one: a quote without its end, a wrong escape, text after a closed value, a
    /// plain scalar that begins as none may, or a line of another kind than its place wants.
    Scalar { line: usize },
    /// The bytes aren't UTF-8; the first broken sequence begins at `at`.
    NotUtf8 { at: usize },
    /// There is no room for the parts.
    NoMemory,
}

impl fmt::Display for YamlErr {
    fn fmt<W: fmt::Write>(&self, f: &mut fmt::Formatter<W>) -> fmt::Result {
        match self {
            YamlErr::Tab { line } => write!(f, "tab in the indent of line {line}"),
            YamlErr::Indent { line } => write!(f, "no open part has the indent of line {line}"),
            YamlErr::LeftOut { line, what } => write!(
                f,
                "byte {what} begins what is left out, on line {line}"
            ),
            YamlErr::Repeated { line } => write!(f, "repeated name on line {line}"),
            YamlErr::Scalar { line } => write!(f, "no scalar on line {line}"),
            YamlErr::NotUtf8 { at } => write!(f, "no UTF-8 at {at}"),
            YamlErr::NoMemory => f.write_str("no memory"),
        }
    }
}

impl Error for YamlErr {}
