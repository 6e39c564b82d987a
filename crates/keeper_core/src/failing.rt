ghost use Rattle.std.specs.Prelude.{◌≡◌, ◌≤◌, ◌↔◌, ◌+◌, ◌-◌, ◌^◌, min, IsTrue, Contains};

use side_base::Places;

/// Which commits fail, and how many there were.
#[derive(Drop)]
pub(crate) struct FailingCommits {
    /// Counted from 0.
    pub(crate) places: Places,
    pub(crate) commits: u64,
    pub(crate) faults: u64,
}

impl FailingCommits {
    /// Whether the next commit is one that fails.
    pub(crate) fn is_next(&self) -> bool
        ensures { IsTrue result ↔ Contains self.now.places self.now.commits }
    {
        for i in 0..self.places.len() {
            if u64::from(*self.places.at(i)) == self.commits {
                return true;
            }
        }
        false
    }

    /// Counts a commit that fails.
    pub(crate) fn fail(&mut self)
        ensures places { self.new.places ≡ self.old.places }
        ensures commits { self.new.commits ≡ min (self.old.commits + 1) (2 ^ 64 - 1) }
        ensures faults { self.new.faults ≡ min (self.old.faults + 1) (2 ^ 64 - 1) }
        ensures no_fewer { self.old.faults ≤ self.new.faults }
    {
        self.commits = self.commits.saturating_add(1);
        self.faults = self.faults.saturating_add(1);
    }

    /// Counts another commit.
    pub(crate) fn pass(&mut self)
        ensures places { self.new.places ≡ self.old.places }
        ensures commits { self.new.commits ≡ min (self.old.commits + 1) (2 ^ 64 - 1) }
        ensures faults { self.new.faults ≡ self.old.faults }
    {
        self.commits = self.commits.saturating_add(1);
    }
}
