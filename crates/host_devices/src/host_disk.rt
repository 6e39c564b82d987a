ghost use Rattle.std.specs.Prelude.{◌≡◌, ◌≤◌, ◌+◌, None, IfOk, OnOk, OnErr, IsErr, true, false, length, max};
ghost use Rattle.std.proofs.Common.{rules};
ghost use Rattle.side_world.specs.Faults.{Rose};
ghost use Rattle.host_devices.specs.HostDisk.{is_lost};

use crate::fault_count::FaultCount;
use side_world::{Disk, Failed};
use std::fs::{File, Files, OpenOptions};
use std::io::{self, ErrorKind};
use std::os::unix::fs::FileExt;
use std::path::Path;

/// A disk over a regular file of the host, which is locked while it is open. Each error of the host is a fault.
///
/// It keeps the length that the file had when it was opened, and what was written since. After a sync that failed every call fails:
/// the system may have dropped what it didn't write, and a later sync wouldn't tell.
#[derive(Drop)]
pub struct HostDisk {
    file: File,
    len: u64,
    faults: FaultCount,
    /// Whether a sync has failed.
    lost: bool,
}

impl HostDisk {
    /// The file at `path`, which is made, empty, where there is none; what it has, and its name in its folder, have reached the disk
    /// then. Fails where that is no regular file, and where it is open as a disk already, in this process or in another.
    pub fn open<R: Files<File = File>>(files: &R, path: &str) -> io::Result<Self>
        ensures none_yet { IfOk result (λ disk. ⟦<HostDisk as Disk>⟧.faults disk ≡ 0) }
        ensures whole { IfOk result (λ disk. is_lost disk ≡ false) }
    {
        let mut how = OpenOptions::new();
        let file = how.read(true).write(true).create(true).open(files, path)?;
        if !file.metadata()?.is_file() {
            return Err(io::Error::from(ErrorKind::InvalidInput));
        }
        file.try_lock()?;
        let len = file.metadata()?.len();
        sync_name(files, &file, path)?;
        Ok(HostDisk {
            file,
            len,
            faults: FaultCount::none(),
            lost: false,
        })
    }

    /// How often it has failed.
    pub fn faults(&self) -> &FaultCount
        ensures { result.now ≡ ⟦<HostDisk as Disk>⟧.faults self.now }
    {
        &self.faults
    }

    /// Fails where a sync has failed.
    fn look(&mut self) -> Result<(), Failed>
        ensures same { OnOk result (self.new ≡ self.old) }
        ensures lost { self.old.lost ≡ true → IsErr result }
        ensures only { OnErr result (self.old.lost ≡ true) }
        ensures stays { self.new.lost ≡ self.old.lost }
        ensures len { self.new.len ≡ self.old.len }
        ensures failed { OnErr result (Rose self.old.faults self.new.faults) }
        ensures no_fewer { self.old.faults ≤ self.new.faults }
    {
        if self.lost {
            return Err(self.faults.fail());
        }
        Ok(())
    }
}

/// Has a file and its name, which may have been made just now, by this program or by a copy, reach the disk.
fn sync_name<R: Files<File = File>>(files: &R, file: &File, path: &str) -> io::Result<()> {
    file.sync_all()?;
    let folder = match Path::new(path).parent() {
        Some(folder) if !folder.as_str().is_empty() => folder.as_str(),
        _ => ".",
    };
    File::open(files, folder)?.sync_all()
}

impl Disk for HostDisk {
    ghost contents = { λ _. None };

    ghost size = { λ d. d.len };

    ghost leaves = { λ _ _. ⊥ };

    ghost moment = { λ _. 0 };

    ghost left_since = { λ _ _ _. ⊥ };

    ghost faults = { λ d. d.faults };

    fn len(&mut self) -> Result<u64, Failed>
        ensures len { IfOk result (λ n. n ≡ self.old.len) }
        ensures size { self.new.len ≡ self.old.len }
        ensures no_fault { OnOk result (self.new.faults ≡ self.old.faults) }
        ensures failed { OnErr result (Rose self.old.faults self.new.faults) }
        ensures no_fewer { self.old.faults ≤ self.new.faults }
        // After a sync that failed, each call fails.
        ensures lost { is_lost self.old ≡ true → IsErr result }
        ensures stays { is_lost self.new ≡ is_lost self.old }
    {
        self.look()?;
        Ok(self.len)
    }

    fn read_at(&mut self, at: u64, into: &mut [u8]) -> Result<(), Failed>
        requires { at + length into.old ≤ self.old.len }
        ensures length { length into.new ≡ length into.old }
        ensures size { self.new.len ≡ self.old.len }
        ensures no_fault { OnOk result (self.new.faults ≡ self.old.faults) }
        ensures failed { OnErr result (Rose self.old.faults self.new.faults) }
        ensures no_fewer { self.old.faults ≤ self.new.faults }
        // After a sync that failed, each call fails.
        ensures lost { is_lost self.old ≡ true → IsErr result }
        ensures stays { is_lost self.new ≡ is_lost self.old }
    {
        self.look()?;
        self.faults.counted(self.file.read_exact_at(into, at))
    }

    fn write_at(&mut self, at: u64, piece: &[u8]) -> Result<(), Failed>
        requires { at ≤ self.old.len }
        ensures size { OnOk result (self.new.len ≡ max self.old.len (at + length piece.now)) }
        ensures no_shorter { self.old.len ≤ self.new.len }
        ensures no_longer { self.new.len ≤ max self.old.len (at + length piece.now) }
        ensures no_fault { OnOk result (self.new.faults ≡ self.old.faults) }
        ensures failed { OnErr result (Rose self.old.faults self.new.faults) }
        ensures no_fewer { self.old.faults ≤ self.new.faults }
        // After a sync that failed, each call fails.
        ensures lost { is_lost self.old ≡ true → IsErr result }
        ensures stays { is_lost self.new ≡ is_lost self.old }
    {
        self.look()?;
        let end = at.checked_add(piece.len() as u64);
        match (end, self.file.write_all_at(piece, at)) {
            (Some(end), Ok(())) => {
                self.len = self.len.max(end);
                Ok(())
            }
            _ => Err(self.faults.fail()),
        }
    }

    fn sync(&mut self) -> Result<(), Failed>
        ensures size { self.new.len ≡ self.old.len }
        ensures no_fault { OnOk result (self.new.faults ≡ self.old.faults) }
        ensures failed { OnErr result (Rose self.old.faults self.new.faults) }
        ensures no_fewer { self.old.faults ≤ self.new.faults }
        // After a sync that failed, each call fails.
        ensures lost { is_lost self.old ≡ true → IsErr result }
        ensures loses { IsErr result → is_lost self.new ≡ true }
        ensures keeps { OnOk result (is_lost self.new ≡ false) }
    {
        self.look()?;
        let synced = self.file.sync_data();
        self.lost = synced.is_err();
        self.faults.counted(synced)
    }

    ghost as_long = { Prim.search rules };

    ghost is_left = { Prim.search rules };

    ghost counts_now = { λ disk t c le left. left };

    ghost only_now = { λ disk c left. left };
}
