// What is said of what is asked.

use case_text::Lines;
use side_base::NoMemory;

/// Adds `yes` or `no`.
pub(crate) fn add_flag(lines: &mut Lines, flag: bool) {
    lines.add(if flag { "yes" } else { "no" });
}

/// Says where memory lacked, so that the case is played again.
pub(crate) fn note(lines: &mut Lines, done: Result<(), NoMemory>) {
    if done.is_err() {
        lines.lack();
    }
}
