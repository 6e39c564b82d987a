// What came of the cases that were played.
ghost use Rattle.std.specs.Prelude.{◌≡◌, ◌⊎◌, ◌<◌, ◌^◌, ◌++◌, suc, true, false, [], codes};
ghost use Rattle.case_text.specs.Lines.{Added, line, shown};

use crate::lines::Lines;
use side_base::Text;
use std::alloc::Global;
use std::io;

/// How many cases were played, how many of them differ, how many were right only when they were played again, and what is said of those
/// that differ.
#[derive(Drop)]
pub struct Tally {
    cases: u32,
    differ: u32,
    again: u32,
    lines: Lines,
}

impl Tally {
    /// No case yet.
    pub fn new(alloc: Global) -> Tally
        ensures cases { result.cases ≡ 0 }
        ensures differ { result.differ ≡ 0 }
        ensures again { result.again ≡ 0 }
        ensures told { (result.lines.text ≡ []) × (result.lines.lacks ≡ false) }
    {
        Tally {
            cases: 0,
            differ: 0,
            again: 0,
            lines: Lines::new(alloc),
        }
    }

    /// Counts a case of this title, of which this is wrong, and which was played again, if it was. It is told if anything is wrong.
    pub fn count(&mut self, title: &[u8], wrong: &Text, again: bool)
        ensures cases { suc self.old.cases < 2 ^ 32 → self.new.cases ≡ suc self.old.cases }
        ensures right { wrong.now ≡ [] → (self.new.differ ≡ self.old.differ) × (self.new.lines ≡ self.old.lines) }
        ensures again { again ≡ true → wrong.now ≡ [] → suc self.old.again < 2 ^ 32 → self.new.again ≡ suc self.old.again }
        ensures at_once { again ≡ false → self.new.again ≡ self.old.again }
        ensures still_wrong { (wrong.now ≡ []) ⊎ (self.new.again ≡ self.old.again) }
        ensures differ { suc self.old.differ < 2 ^ 32 → (wrong.now ≡ []) ⊎ (self.new.differ ≡ suc self.old.differ) }
        ensures told { (wrong.now ≡ []) ⊎ Added (line (codes "== ") (shown title.now) ++ line wrong.now []) self.old.lines self.new.lines }
    {
        self.cases = self.cases.saturating_add(1);
        if !wrong.is_empty() {
            self.differ = self.differ.saturating_add(1);
            self.lines.add_bytes("== ", title);
            self.lines.add_line(wrong.as_str(), "");
        } else if again {
            self.again = self.again.saturating_add(1);
        }
    }

    /// Prints what is told of the cases that differ, then how many were right only when they were played again, if any were, and last how
    /// many were played and how many differ.
    pub fn print<P: Print>(&self, rt: &P) -> io::Result<()> {
        print!(rt; "{}", self.lines.as_str())?;
        if self.again > 0 {
            println!(rt;
                "{} were right only when they were played again",
                self.again
            )?;
        }
        println!(rt; "{} cases, {} differ", self.cases, self.differ)
    }
}
