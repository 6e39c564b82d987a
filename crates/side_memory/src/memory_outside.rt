ghost use Rattle.std.specs.Prelude.{◌≡◌, drop};
ghost use Rattle.side_memory.specs.MemoryOutside.{first_number};

use crate::disk_places::{DiskPlace, give, place_of, put, take};
use crate::memory_acceptor::MemoryAcceptor;
use crate::memory_clock::MemoryClock;
use crate::memory_link::MemoryLink;
use crate::notes::Notes;
use crate::worker_backs::{back_at, keep_back};
use crate::worker_script::{MemoryParts, WorkerScript, take_script};
use disk_memory::{MemoryDisk, Schedule, Sizes};
use side_base::{Blob, NoMemory, Places, Sequence};
use side_world::{Acceptor, Disk, Failed, Link, Outside, OutsideCall};
use std::alloc::Global;

/// The numbers that an outside in memory answers, in order, and 0 behind their end.
pub type Numbers = Sequence<u64>;

/// A whole outside in memory: its disks by their paths, and the parts of each worker. It tells what it holds, its calls, and what
/// came back, until there is no memory for a note, or a part comes back that it never gave out.
#[derive(Debug, Drop)]
pub struct MemoryOutside {
    alloc: Global,
    disks: Vec<DiskPlace>,
    disks_told: bool,
    scripts: Vec<Option<WorkerScript>>,
    backs: Vec<Option<MemoryParts>>,
    backs_told: bool,
    numbers: Numbers,
    given: Notes<u64>,
    notes: Notes<OutsideCall>,
    schedule: Schedule,
}

impl MemoryOutside {
    ghost use Rattle.std.specs.Prelude.{◌≡◌, ◌≤◌, [], ◌∷◌, ◌++◌, ℕ, None, Some, OnOk, OnErr, option_map};
    ghost use Rattle.side_world.specs.Outside.{ChangesAt};
    ghost use Rattle.disk_memory.specs.MemoryDisk.{bytes_of};
    ghost use Rattle.side_memory.specs.MemoryOutside.{disks_of, held_of, failing_of, backs_of, back_of, scripts_of, parts_told, calls_of, faults_of, plan_of, numbers_of, IsUnused};
    ghost use Rattle.disk_memory.specs.Plan.{begun};

    /// An outside without disks and workers, which answers these numbers; `failing` are the calls of `take_disk` and `worker` that
    /// fail, counted from 0 over both.
    pub fn new(alloc: Global, numbers: Numbers, failing: Places) -> Self
        ensures unused { IsUnused result }
        ensures scripts { scripts_of result ≡ [] }
        ensures left { numbers_of result ≡ numbers }
        ensures plan { plan_of result ≡ begun failing }
    {
        MemoryOutside {
            alloc,
            disks: Vec::new(alloc),
            disks_told: true,
            scripts: Vec::new(alloc),
            backs: Vec::new(alloc),
            backs_told: true,
            numbers,
            given: Notes::new(alloc),
            notes: Notes::new(alloc),
            schedule: Schedule::new(Sizes::new(alloc), failing),
        }
    }

    /// Puts a disk of these bytes at `path`; `failing` are its calls that fail, counted from 0, once it is taken.
    pub fn add_disk(&mut self, path: &[u8], bytes: &[u8], failing: Places) -> Result<(), NoMemory>
        ensures held { OnOk result (ChangesAt path.now (disks_of self.old) (disks_of self.new) (λ _ held. held ≡ Some bytes.now)) }
        ensures failing { OnOk result (failing_of self.new path.now ≡ failing) }
        ensures err { OnErr result (disks_of self.new ≡ disks_of self.old) }
        ensures backs { backs_of self.new ≡ backs_of self.old }
        ensures calls { calls_of self.new ≡ calls_of self.old }
        ensures faults { faults_of self.new ≡ faults_of self.old }
        ensures scripts { scripts_of self.new ≡ scripts_of self.old }
        ensures left { numbers_of self.new ≡ numbers_of self.old }
        ensures plan { plan_of self.new ≡ plan_of self.old }
    {
        put(self.alloc, &mut self.disks, path, bytes, failing)
    }

    /// The disk at `path`, where there is one and it is not taken.
    pub fn disk(&self, path: &[u8]) -> Option<&MemoryDisk>
        ensures { option_map (λ d. bytes_of d.now) result ≡ held_of self.now path.now }
    {
        match place_of(&self.disks, path) {
            Some(place) => self.disks[place].disk.as_ref(),
            None => None,
        }
    }

    /// Lets one worker more be asked for: the first has the number 0.
    pub fn add_worker(&mut self, script: WorkerScript) -> Result<(), NoMemory>
        ensures added { OnOk result (scripts_of self.new ≡ scripts_of self.old ++ Some script ∷ []) }
        ensures disks { disks_of self.new ≡ disks_of self.old }
        ensures calls { calls_of self.new ≡ calls_of self.old }
        ensures faults { faults_of self.new ≡ faults_of self.old }
        ensures left { numbers_of self.new ≡ numbers_of self.old }
        ensures plan { plan_of self.new ≡ plan_of self.old }
    {
        self.backs.push(None)?;
        if let Err(error) = self.scripts.push(Some(script)) {
            self.backs.pop();
            return Err(error.into());
        }
        Ok(())
    }

    /// What came back of the worker of this number, where it is back.
    pub fn back(&self, number: u32) -> Option<&MemoryParts>
        ensures { option_map (λ p. parts_told p.now) result ≡ back_of self.now number }
    {
        back_at(&self.backs, number)
    }
}

impl MemoryOutside {
    ghost use Rattle.std.specs.Prelude.{◌≡◌, ◌≤◌, ◌↔◌, set, None, IfOk, OnOk, OnErr, IsErr};
    ghost use Rattle.side_world.specs.Faults.{Rose};
    ghost use Rattle.side_world.specs.Outside.{IsTaken, IsNewDisk, AreNew};
    ghost use Rattle.disk_memory.specs.MemoryDisk.{IsToFail};
    ghost use Rattle.side_memory.specs.MemoryOutside.{disks_of, failing_of, backs_of, scripts_of, BeginsAs, calls_of, given_of, faults_of, plan_of, numbers_of, WorkerFails};
    ghost use Rattle.disk_memory.specs.Plan.{counted, FailsNext};

    // Takes a disk, and counts a fault where the call is to fail, or there is no memory.
    fn open_disk(&mut self, path: &[u8]) -> Result<MemoryDisk, Failed>
        ensures new { IfOk result (IsNewDisk ⟦<MemoryDisk as Disk>⟧) }
        ensures taken { IfOk result (λ disk. IsTaken ⟦<MemoryDisk as Disk>⟧ disk path.now (disks_of self.old) (disks_of self.new)) }
        ensures backs { backs_of self.new ≡ backs_of self.old }
        ensures calls { calls_of self.new ≡ calls_of self.old }
        ensures numbers { given_of self.new ≡ given_of self.old }
        ensures no_fault { OnOk result (faults_of self.new ≡ faults_of self.old) }
        ensures failed { OnErr result (Rose (faults_of self.old) (faults_of self.new)) }
        ensures untouched { OnErr result (disks_of self.new ≡ disks_of self.old) }
        ensures no_fewer { faults_of self.old ≤ faults_of self.new }
        ensures prepared { IfOk result (IsToFail (failing_of self.old path.now)) }
        ensures listed { FailsNext (plan_of self.old) → IsErr result }
        ensures counted { plan_of self.new ≡ counted (plan_of self.old) }
        ensures scripts { scripts_of self.new ≡ scripts_of self.old }
        ensures left { numbers_of self.new ≡ numbers_of self.old }
    {
        self.schedule.call()?;
        match take(self.alloc, &mut self.disks, path) {
            Ok(disk) => Ok(disk),
            Err(_) => {
                self.schedule.fail();
                Err(Failed)
            }
        }
    }

    // Begins a worker, and counts a fault where the call is to fail, or there is no such worker that was not begun.
    fn begin_worker(&mut self, number: u32) -> Result<MemoryParts, Failed>
        ensures new { IfOk result (AreNew ⟦<MemoryAcceptor as Acceptor>⟧ ⟦<MemoryLink as Link>⟧) }
        ensures begun { IfOk result (BeginsAs (scripts_of self.old) number) }
        ensures disks { disks_of self.new ≡ disks_of self.old }
        ensures backs { backs_of self.new ≡ backs_of self.old }
        ensures calls { calls_of self.new ≡ calls_of self.old }
        ensures numbers { given_of self.new ≡ given_of self.old }
        ensures no_fault { OnOk result (faults_of self.new ≡ faults_of self.old) }
        ensures failed { OnErr result (Rose (faults_of self.old) (faults_of self.new)) }
        ensures no_fewer { faults_of self.old ≤ faults_of self.new }
        ensures listed { IsErr result ↔ WorkerFails self.old number }
        ensures counted { plan_of self.new ≡ counted (plan_of self.old) }
        ensures once { OnOk result (scripts_of self.new ≡ set (scripts_of self.old) number None) }
        ensures stays { OnErr result (scripts_of self.new ≡ scripts_of self.old) }
        ensures left { numbers_of self.new ≡ numbers_of self.old }
    {
        self.schedule.call()?;
        match take_script(&mut self.scripts, number) {
            Some(script) => Ok(script.into_parts(self.alloc)),
            None => {
                self.schedule.fail();
                Err(Failed)
            }
        }
    }
}

impl Outside for MemoryOutside {
    type Disk = MemoryDisk;

    type Acceptor = MemoryAcceptor;

    type Link = MemoryLink;

    type Clock = MemoryClock;

    ghost use Rattle.std.specs.Prelude.{◌≡◌, ◌≤◌, ◌↔◌, [], ◌∷◌, drop, set, None, IfOk, OnOk, OnErr, IsErr};
    ghost use Rattle.side_world.specs.Faults.{Rose, RoseWith};
    ghost use Rattle.side_world.specs.Told.{Tells};
    ghost use Rattle.side_world.specs.Outside.{IsNewDisk, IsTaken, IsGiven, AreNew, IsBack};
    ghost use Rattle.side_world.specs.declared.outside.OutsideCall.TheVariants as call;
    ghost use Rattle.disk_memory.specs.MemoryDisk.{faults_of as disk_faults, IsToFail};
    ghost use Rattle.side_memory.specs.MemoryOutside.{disks_of, failing_of, backs_of, calls_of, given_of, faults_of, scripts_of, BeginsAs, plan_of, numbers_of, first_number, WorkerFails};
    ghost use Rattle.disk_memory.specs.Plan.{counted, FailsNext};

    ghost disks = { disks_of };

    ghost calls = { calls_of };

    ghost backs = { backs_of };

    ghost numbers = { given_of };

    ghost faults = { faults_of };

    /// Fails where it is a call that is to fail, and where there is no memory.
    fn take_disk(&mut self, path: &[u8]) -> Result<MemoryDisk, Failed>
        ensures new { IfOk result (IsNewDisk ⟦<MemoryDisk as Disk>⟧) }
        ensures taken { IfOk result (λ disk. IsTaken ⟦<MemoryDisk as Disk>⟧ disk path.now (disks_of self.old) (disks_of self.new)) }
        ensures calls { Tells (calls_of self.old) (calls_of self.new) (call.TakeDisk path.now ∷ []) }
        ensures backs { backs_of self.new ≡ backs_of self.old }
        ensures numbers { given_of self.new ≡ given_of self.old }
        ensures no_fault { OnOk result (faults_of self.new ≡ faults_of self.old) }

        ensures failed { OnErr result (Rose (faults_of self.old) (faults_of self.new)) }
        ensures untouched { OnErr result (disks_of self.new ≡ disks_of self.old) }
        ensures no_fewer { faults_of self.old ≤ faults_of self.new }
        ensures prepared { IfOk result (IsToFail (failing_of self.old path.now)) }
        ensures listed { FailsNext (plan_of self.old) → IsErr result }
        ensures counted { plan_of self.new ≡ counted (plan_of self.old) }
        ensures scripts { scripts_of self.new ≡ scripts_of self.old }
        ensures left { numbers_of self.new ≡ numbers_of self.old }
    {
        let taken = self.open_disk(path);
        match Blob::from_bytes(self.alloc, path) {
            Ok(path) => self.notes.add(OutsideCall::TakeDisk { path }),
            Err(_) => self.notes.stop(),
        }
        taken
    }

    fn give_disk(&mut self, path: &[u8], disk: MemoryDisk)
        ensures given { IsGiven ⟦<MemoryDisk as Disk>⟧ disk path.now (disks_of self.old) (disks_of self.new) }
        ensures calls { calls_of self.new ≡ calls_of self.old }
        ensures backs { backs_of self.new ≡ backs_of self.old }
        ensures numbers { given_of self.new ≡ given_of self.old }
        ensures faults { RoseWith (disk_faults disk) (faults_of self.old) (faults_of self.new) }
        ensures no_fewer { faults_of self.old ≤ faults_of self.new }
        ensures scripts { scripts_of self.new ≡ scripts_of self.old }
        ensures left { numbers_of self.new ≡ numbers_of self.old }
        ensures plan { plan_of self.new ≡ plan_of self.old }
    {
        self.schedule.count_back(disk.faults());
        if !give(&mut self.disks, path, disk) {
            self.disks_told = false;
        }
    }

    /// Fails exactly where it is a call that is to fail, or there is no such worker that was not begun.
    fn worker(&mut self, port: u16, number: u32) -> Result<MemoryParts, Failed>
        ensures new { IfOk result (AreNew ⟦<MemoryAcceptor as Acceptor>⟧ ⟦<MemoryLink as Link>⟧) }
        ensures disks { disks_of self.new ≡ disks_of self.old }
        ensures calls { Tells (calls_of self.old) (calls_of self.new) (call.Worker port number ∷ []) }
        ensures backs { backs_of self.new ≡ backs_of self.old }
        ensures numbers { given_of self.new ≡ given_of self.old }
        ensures no_fault { OnOk result (faults_of self.new ≡ faults_of self.old) }

        ensures failed { OnErr result (Rose (faults_of self.old) (faults_of self.new)) }
        ensures no_fewer { faults_of self.old ≤ faults_of self.new }
        ensures begun { IfOk result (BeginsAs (scripts_of self.old) number) }
        ensures listed { IsErr result ↔ WorkerFails self.old number }
        ensures counted { plan_of self.new ≡ counted (plan_of self.old) }
        ensures once { OnOk result (scripts_of self.new ≡ set (scripts_of self.old) number None) }
        ensures stays { OnErr result (scripts_of self.new ≡ scripts_of self.old) }
        ensures left { numbers_of self.new ≡ numbers_of self.old }
    {
        let parts = self.begin_worker(number);
        self.notes.add(OutsideCall::Worker { port, number });
        parts
    }

    fn give_worker(&mut self, number: u32, parts: MemoryParts)
        ensures disks { disks_of self.new ≡ disks_of self.old }
        ensures calls { calls_of self.new ≡ calls_of self.old }
        ensures back { IsBack ⟦<MemoryAcceptor as Acceptor>⟧ ⟦<MemoryLink as Link>⟧ number parts (backs_of self.old) (backs_of self.new) }
        ensures numbers { given_of self.new ≡ given_of self.old }
        ensures faults { RoseWith parts.acceptor.faults (faults_of self.old) (faults_of self.new) }
        ensures no_fewer { faults_of self.old ≤ faults_of self.new }
        ensures scripts { scripts_of self.new ≡ scripts_of self.old }
        ensures left { numbers_of self.new ≡ numbers_of self.old }
        ensures plan { plan_of self.new ≡ plan_of self.old }
    {
        self.schedule.count_back(parts.acceptor.faults());
        if !keep_back(&mut self.backs, number, parts) {
            self.backs_told = false;
        }
    }

    /// The next of its numbers, and 0 behind their end.
    fn start_number(&mut self) -> u64
        ensures disks { disks_of self.new ≡ disks_of self.old }
        ensures calls { calls_of self.new ≡ calls_of self.old }
        ensures backs { backs_of self.new ≡ backs_of self.old }
        ensures numbers { Tells (given_of self.old) (given_of self.new) (result ∷ []) }
        ensures faults { faults_of self.new ≡ faults_of self.old }
        ensures first { result ≡ first_number (numbers_of self.old) }
        ensures rest { numbers_of self.new ≡ drop 1 (numbers_of self.old) }
        ensures scripts { scripts_of self.new ≡ scripts_of self.old }
        ensures plan { plan_of self.new ≡ plan_of self.old }
    {
        let number = take_number(&mut self.numbers);
        self.given.add(number);
        number
    }
}

fn take_number(numbers: &mut Numbers) -> u64
    ensures first { result ≡ first_number numbers.old }
    ensures rest { numbers.new ≡ drop 1 numbers.old }
{
    match numbers.take_first() {
        Some(number) => number,
        None => 0,
    }
}
