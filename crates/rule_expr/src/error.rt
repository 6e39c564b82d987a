use std::error::Error;
use std::fmt;

/// Why a text was not read as a rule: the first place where it leaves the grammar, in bytes from its beginning; the length of the
/// text where it ends too early.
#[derive(Clone, Copy, Debug, PartialEq, Eq)]
pub enum RuleErr {
    /// No rule goes on with what stands at place `at`. A number outside of 64 bits is refused at its first byte, a text in quotes
    /// that isn't closed at the end of the rule, and a wrong escape at the byte behind its backslash.
    Bad { at: usize },
    /// At place `at` stands what rules of other systems have and these leave out: one of `+`, `*`, `/`, `%` and `?`, a `-` that no
    /// digit follows, or a name where an operand or a call must stand and this is none.
    LeftOut { at: usize },
    /// A bracket that would be the 33rd open one stands at place `at`.
    Deep { at: usize },
    /// There is no room for the rule.
    NoMemory,
}

impl fmt::Display for RuleErr {
    fn fmt<W: fmt::Write>(&self, f: &mut fmt::Formatter<W>) -> fmt::Result {
        match self {
            RuleErr::Bad { at } => write!(f, "no rule at {at}"),
            RuleErr::LeftOut { at } => write!(f, "left out at {at}"),
            RuleErr::Deep { at } => write!(f, "nested too deep at {at}"),
            RuleErr::NoMemory => f.write_str("no memory"),
        }
    }
}

impl Error for RuleErr {}
