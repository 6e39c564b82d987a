ghost use Rattle.std.specs.Prelude.{◌≡◌, ◌<◌, ◌≤◌, ◌↔◌, drop, IsTrue, IsErr, IfOk, OnOk, OnErr, Contains};
ghost use Rattle.side_world.specs.Faults.{Rose, RoseWith};
ghost use Rattle.disk_memory.specs.Plan.{begun, counted, plan_in, moved, FailsNext};

use side_base::{Places, Sequence};
use side_world::Failed;

/// The greatest numbers of bytes that the calls of a device in memory move, in order of the calls that do not fail.
///
/// 0 counts as 1. Calls past the end of the list move as many bytes as they can.
pub type Sizes = Sequence<usize>;

/// Which calls of a device in memory fail, and how many bytes the others move.
#[derive(Debug, Drop)]
pub struct Schedule {
    /// How many bytes the next calls that do not fail move.
    pub sizes: Sizes,
    /// The calls that fail, counted from 0.
    pub failing: Places,
    /// How many calls were made; the count stops at 2^64 - 1.
    pub calls: u64,
    /// How many faults there were; the count stops at 2^64 - 1.
    pub faults: u64,
}

impl Schedule {
    /// No call was made yet; `failing` are the calls that fail, counted from 0.
    pub fn new(sizes: Sizes, failing: Places) -> Self
        ensures sizes { result.sizes ≡ sizes }
        ensures faults { result.faults ≡ 0 }
        ensures plan { plan_in result ≡ begun failing }
    {
        Schedule {
            sizes,
            failing,
            calls: 0,
            faults: 0,
        }
    }

    /// Counts a call, and answers how many of the `possible` bytes it moves.
    pub fn next(&mut self, possible: usize) -> Result<usize, Failed>
        requires { 0 < possible }
        ensures listed { IsErr result ↔ FailsNext (plan_in self.old) }
        ensures counted { plan_in self.new ≡ counted (plan_in self.old) }
        ensures some { IfOk result (λ n. 0 < n) }
        ensures within { IfOk result (λ n. n ≤ possible) }
        ensures moved { IfOk result (λ n. n ≡ moved self.old.sizes possible) }
        ensures rest { OnOk result (self.new.sizes ≡ drop 1 self.old.sizes) }
        ensures none_used { OnErr result (self.new.sizes ≡ self.old.sizes) }
        ensures ok { OnOk result (self.new.faults ≡ self.old.faults) }
        ensures failed { OnErr result (Rose self.old.faults self.new.faults) }
        ensures no_fewer { self.old.faults ≤ self.new.faults }
    {
        self.call()?;
        match self.sizes.take_first() {
            Some(size) => Ok(size.max(1).min(possible)),
            None => Ok(possible),
        }
    }

    /// Counts a call, which fails where it is listed.
    pub fn call(&mut self) -> Result<(), Failed>
        ensures sizes { self.new.sizes ≡ self.old.sizes }
        ensures listed { IsErr result ↔ FailsNext (plan_in self.old) }
        ensures counted { plan_in self.new ≡ counted (plan_in self.old) }
        ensures ok { OnOk result (self.new.faults ≡ self.old.faults) }
        ensures failed { OnErr result (Rose self.old.faults self.new.faults) }
        ensures no_fewer { self.old.faults ≤ self.new.faults }
    {
        let call = self.calls;
        self.calls = call.saturating_add(1);
        if is_listed(&self.failing, call) {
            self.faults = self.faults.saturating_add(1);
            return Err(Failed);
        }
        Ok(())
    }

    /// Counts a fault where what came back has some.
    pub fn count_back(&mut self, faults: u64)
        ensures rose { RoseWith faults self.old.faults self.new.faults }
        ensures sizes { self.new.sizes ≡ self.old.sizes }
        ensures plan { plan_in self.new ≡ plan_in self.old }
        ensures no_fewer { self.old.faults ≤ self.new.faults }
    {
        if faults > 0 {
            self.fail();
        }
    }

    /// Counts a fault of the device itself.
    pub fn fail(&mut self)
        ensures failed { Rose self.old.faults self.new.faults }
        ensures sizes { self.new.sizes ≡ self.old.sizes }
        ensures plan { plan_in self.new ≡ plan_in self.old }
        ensures no_fewer { self.old.faults ≤ self.new.faults }
    {
        self.faults = self.faults.saturating_add(1);
    }
}

fn is_listed(places: &Places, call: u64) -> bool
    ensures { IsTrue result ↔ Contains places.now call }
{
    for i in 0..places.len() {
        if u64::from(*places.at(i)) == call {
            return true;
        }
    }
    false
}
