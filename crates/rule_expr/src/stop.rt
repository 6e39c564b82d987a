// Where the reading of a rule stops.
ghost use Rattle.std.specs.Prelude.{◌≡◌};
ghost use Rattle.rule_expr.specs.Refusals.{error_at};

use crate::error::RuleErr;

/// Why no more of a rule is read: the last `left` of its bytes stand from that place on.
#[derive(Clone, Copy, Debug, PartialEq, Eq)]
pub enum Stop {
    /// No rule goes on so.
    Bad { left: usize },
    /// Rules leave this out.
    LeftOut { left: usize },
    /// A bracket that would be the 33rd open one.
    Deep { left: usize },
    /// There is no room for the rule.
    NoMemory,
}

/// The refusal of a rule of so many bytes.
pub(crate) fn error_at(length: usize, stop: Stop) -> RuleErr
    ensures { result ≡ error_at length stop }
{
    match stop {
        Stop::Bad { left } => RuleErr::Bad {
            at: length.saturating_sub(left),
        },
        Stop::LeftOut { left } => RuleErr::LeftOut {
            at: length.saturating_sub(left),
        },
        Stop::Deep { left } => RuleErr::Deep {
            at: length.saturating_sub(left),
        },
        Stop::NoMemory => RuleErr::NoMemory,
    }
}
