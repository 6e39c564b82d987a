// Why reading stops.
ghost use Rattle.std.specs.Prelude.{◌≡◌, length};
ghost use Rattle.rule_expr.specs.Parts.{part_at};
ghost use Rattle.rule_expr.specs.Places.{why_not};

use crate::seen::{is_left_out, part_at};
use crate::stop::Stop;
use rule_value::Part;

/// Why nothing goes on with what stands next. `named` is whether a name may stand there.
pub(crate) fn why_not(rest: &[u8], named: bool) -> Stop
    ensures { result ≡ why_not named (part_at rest.now) (length rest.now) }
{
    let left = rest.len();
    match part_at(rest) {
        Part::Named { word: _ } => {
            if named {
                Stop::LeftOut { left }
            } else {
                Stop::Bad { left }
            }
        }
        Part::Stray { byte } => {
            if is_left_out(byte) {
                Stop::LeftOut { left }
            } else {
                Stop::Bad { left }
            }
        }
        _ => Stop::Bad { left },
    }
}
