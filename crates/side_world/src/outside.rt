ghost use Rattle.std.specs.Prelude.{◌≡◌, ◌≤◌, ℕ, List, [], ◌∷◌, Option, IfOk, OnOk, OnErr};
ghost use Rattle.side_world.specs.Faults.{Rose, RoseWith};
ghost use Rattle.side_world.specs.Told.{Tells};

use crate::{Acceptor, Clock, Disk, Failed, Link};
use side_base::Blob;

/// What a worker has of the outside for itself.
#[derive(Debug, Drop)]
pub struct WorkerParts<A, L, C> {
    pub acceptor: A,
    pub link: L,
    pub clock: C,
}

/// A call that asks the outside for a part of it.
#[derive(Debug, Drop)]
pub enum OutsideCall {
    TakeDisk { path: Blob },
    Worker { port: u16, number: u32 },
}

/// The outside of a whole program: the disks that it may take, and the parts of each worker.
///
/// Disks and parts are lent: what was given out comes back.
pub trait Outside {
    type Disk: Disk + Send;

    type Acceptor: Acceptor + Send;

    type Link: Link + Send;

    type Clock: Clock + Send;

    ghost use Rattle.side_world.specs.declared.outside.OutsideCall.{OutsideCall};
    ghost use Rattle.side_world.specs.declared.outside.OutsideCall.TheVariants as call;
    ghost use Rattle.side_world.specs.Outside.{Disks, Backs, IsNewDisk, IsTaken, IsGiven, AreNew, IsBack};

    // The disks that are there and not taken, with their bytes, where they are told.
    ghost disks: { Self → Option Disks };

    // The calls of `take_disk` and `worker`, in order, where they are told.
    ghost calls: { Self → Option (List OutsideCall) };

    // What came back of each worker, where it is told.
    ghost backs: { Self → Option Backs };

    // The numbers that it gave, in order, where they are told.
    ghost numbers: { Self → Option (List ℕ) };

    // How often it has failed, or a part of it that came back had. The count stops at 2^64 - 1.
    ghost faults: { Self → ℕ };

    /// The disk at `path`, of length 0 where there is none. It has no faults, and a crash leaves what a read gives.
    ///
    /// `Failed` comes only where the count of faults rose.
    fn take_disk(&mut self, path: &[u8]) -> Result<Self::Disk, Failed>
        ensures new { IfOk result (IsNewDisk Self.Disk.Disk) }
        ensures taken { IfOk result (λ disk. IsTaken Self.Disk.Disk disk path.now (disks self.old) (disks self.new)) }
        ensures calls { Tells (calls self.old) (calls self.new) (call.TakeDisk path.now ∷ []) }
        ensures backs { backs self.new ≡ backs self.old }
        ensures numbers { numbers self.new ≡ numbers self.old }
        ensures no_fault { OnOk result (faults self.new ≡ faults self.old) }

        ensures failed { OnErr result (Rose (faults self.old) (faults self.new)) }
        ensures untouched { OnErr result (disks self.new ≡ disks self.old) }
        ensures no_fewer { faults self.old ≤ faults self.new };

    /// Takes back the disk of `path`. The count of faults rises exactly where the disk's isn't 0. Takes no memory.
    fn give_disk(&mut self, path: &[u8], disk: Self::Disk)
        ensures given { IsGiven Self.Disk.Disk disk path.now (disks self.old) (disks self.new) }
        ensures calls { calls self.new ≡ calls self.old }
        ensures backs { backs self.new ≡ backs self.old }
        ensures numbers { numbers self.new ≡ numbers self.old }
        ensures faults { RoseWith (Self.Disk.faults disk) (faults self.old) (faults self.new) }
        ensures no_fewer { faults self.old ≤ faults self.new };

    /// The parts of the worker of this number, whose acceptor listens at `port`. They have no faults, and tell nothing yet.
    ///
    /// `Failed` comes only where the count of faults rose.
    fn worker(
        &mut self,
        port: u16,
        number: u32,
    ) -> Result<WorkerParts<Self::Acceptor, Self::Link, Self::Clock>, Failed>
        ensures new { IfOk result (AreNew Self.Acceptor.Acceptor Self.Link.Link) }
        ensures disks { disks self.new ≡ disks self.old }
        ensures calls { Tells (calls self.old) (calls self.new) (call.Worker port number ∷ []) }
        ensures backs { backs self.new ≡ backs self.old }
        ensures numbers { numbers self.new ≡ numbers self.old }
        ensures no_fault { OnOk result (faults self.new ≡ faults self.old) }

        ensures failed { OnErr result (Rose (faults self.old) (faults self.new)) }
        ensures no_fewer { faults self.old ≤ faults self.new };

    /// Takes back the parts of the worker of this number. The count of faults rises exactly where the acceptor's isn't 0.
    /// Takes no memory.
    fn give_worker(
        &mut self,
        number: u32,
        parts: WorkerParts<Self::Acceptor, Self::Link, Self::Clock>,
    )
        ensures disks { disks self.new ≡ disks self.old }
        ensures calls { calls self.new ≡ calls self.old }
        ensures back { IsBack Self.Acceptor.Acceptor Self.Link.Link number parts (backs self.old) (backs self.new) }
        ensures numbers { numbers self.new ≡ numbers self.old }
        ensures faults { RoseWith (Self.Acceptor.faults parts.acceptor) (faults self.old) (faults self.new) }
        ensures no_fewer { faults self.old ≤ faults self.new };

    /// A number from which random words are drawn. A real outside gives one that nobody can predict.
    fn start_number(&mut self) -> u64
        ensures disks { disks self.new ≡ disks self.old }
        ensures calls { calls self.new ≡ calls self.old }
        ensures backs { backs self.new ≡ backs self.old }
        ensures numbers { Tells (numbers self.old) (numbers self.new) (result ∷ []) }
        ensures faults { faults self.new ≡ faults self.old };
}
