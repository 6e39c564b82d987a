ghost use Rattle.std.specs.Prelude.{option_map};

use crate::file_search::{copied, find, is_there, listing, read_note};
use crate::notes::Notes;
use disk_memory::{Schedule, Sizes};
use side_base::{Blob, Names, NoMemory, Places, Text};
use side_world::{Failed, Files, FilesCall, FilesErr};
use std::alloc::Global;

/// A file in memory.
#[derive(Debug, Drop)]
pub(crate) struct MemoryFile {
    pub(crate) folder: Blob,
    pub(crate) name: Text,
    pub(crate) bytes: Blob,
}

/// Folders of files in memory. It tells them, and its calls until there is no memory for a note. A folder or a file that isn't
/// there is a fault.
#[derive(Debug, Drop)]
pub struct MemoryFiles {
    alloc: Global,
    folders: Vec<Blob>,
    files: Vec<MemoryFile>,
    notes: Notes<FilesCall>,
    schedule: Schedule,
}

impl MemoryFiles {
    ghost use Rattle.std.specs.Prelude.{◌≡◌, [], ◌∷◌, ◌++◌, ℕ, List, Some, None, OnOk, OnErr};
    ghost use Rattle.side_memory.specs.MemoryFiles.{files_of, with_file, folders_of, calls_of, faults_of, plan_of};
    ghost use Rattle.disk_memory.specs.Plan.{begun};

    /// No folders; `failing` are the calls that fail, counted from 0 over all calls.
    pub fn new(alloc: Global, failing: Places) -> Self
        ensures folders { folders_of result ≡ [] }
        ensures files { (folder name : List ℕ) → files_of result folder name ≡ None }
        ensures calls { calls_of result ≡ Some [] }
        ensures faults { faults_of result ≡ 0 }
        ensures plan { plan_of result ≡ begun failing }
    {
        MemoryFiles {
            alloc,
            folders: Vec::new(alloc),
            files: Vec::new(alloc),
            notes: Notes::new(alloc),
            schedule: Schedule::new(Sizes::new(alloc), failing),
        }
    }

    /// Adds a folder without files.
    pub fn add_folder(&mut self, folder: &[u8]) -> Result<(), NoMemory>
        ensures folders { OnOk result (folders_of self.new ≡ folders_of self.old ++ folder.now ∷ []) }
        ensures files { files_of self.new ≡ files_of self.old }
        ensures calls { calls_of self.new ≡ calls_of self.old }
        ensures faults { faults_of self.new ≡ faults_of self.old }
        ensures plan { plan_of self.new ≡ plan_of self.old }
    {
        self.folders.push(Blob::from_bytes(self.alloc, folder)?)?;
        Ok(())
    }

    /// Adds a file to a folder, which is there then. Of two of one name the first counts.
    pub fn add_file(&mut self, folder: &[u8], name: Text, bytes: Blob) -> Result<(), NoMemory>
        ensures folders { OnOk result (folders_of self.new ≡ folders_of self.old ++ folder.now ∷ []) }
        ensures there { OnOk result (files_of self.old folder.now name ≡ None → files_of self.new folder.now name ≡ Some bytes) }
        ensures added { OnOk result ((in_folder named : List ℕ) → files_of self.new in_folder named ≡ with_file (files_of self.old) folder.now name bytes in_folder named) }
        ensures calls { calls_of self.new ≡ calls_of self.old }
        ensures faults { faults_of self.new ≡ faults_of self.old }
        ensures plan { plan_of self.new ≡ plan_of self.old }
    {
        self.add_folder(folder)?;
        let file = MemoryFile {
            folder: Blob::from_bytes(self.alloc, folder)?,
            name,
            bytes,
        };
        self.files.push(file)?;
        Ok(())
    }

    /// The calls so far, where they are told.
    pub fn calls(&self) -> Option<&[FilesCall]>
        ensures { option_map (λ s. s.now) result ≡ calls_of self.now }
    {
        self.notes.items()
    }
}

impl MemoryFiles {
    ghost use Rattle.std.specs.Prelude.{◌≡◌, ◌≤◌, ◌<◌, ◌↔◌, ℕ, Some, IfOk, IsErrOf, length};
    ghost use Rattle.side_world.specs.Files.{IsListing, ListsAll, HasBytes, HasLength, CountsFault};
    ghost use Rattle.side_world.specs.declared.files.FilesErr.TheVariants as refused;
    ghost use Rattle.side_memory.specs.MemoryFiles.{told_of, calls_of, faults_of, plan_of, ListFails, ReadFails};
    ghost use Rattle.disk_memory.specs.Plan.{counted};

    // Lists a folder, and counts a fault where the call is to fail or the folder isn't there.
    fn listed(&mut self, folder: &[u8]) -> Result<Names, FilesErr>
        ensures names { IfOk result IsListing }
        ensures all { IfOk result (λ names. ListsAll (Some (told_of self.old)) folder.now names) }
        ensures no_file { (len : ℕ) → IsErrOf result (refused.TooLong len) → ⊥ }
        ensures told { told_of self.new ≡ told_of self.old }
        ensures calls { calls_of self.new ≡ calls_of self.old }
        ensures faults { CountsFault result (faults_of self.old) (faults_of self.new) }
        ensures no_fewer { faults_of self.old ≤ faults_of self.new }
        ensures listed { IsErrOf result refused.Failed ↔ ListFails self.old folder.now }
        ensures counted { plan_of self.new ≡ counted (plan_of self.old) }
    {
        if let Err(Failed) = self.schedule.call() {
            return Err(FilesErr::Failed);
        }
        if !is_there(&self.folders, folder) {
            self.schedule.fail();
            return Err(FilesErr::Failed);
        }
        match listing(self.alloc, &self.files, folder) {
            Ok(names) => Ok(names),
            Err(_) => Err(FilesErr::NoMemory),
        }
    }

    // Reads a file, and counts a fault where the call is to fail or the file isn't there.
    fn found(&mut self, folder: &[u8], name: &[u8]) -> Result<Blob, FilesErr>
        ensures bytes { IfOk result (λ bytes. HasBytes (Some (told_of self.old)) folder.now name.now bytes) }
        ensures within { IfOk result (λ bytes. length bytes ≤ 1048576) }
        ensures too_long { (len : ℕ) → IsErrOf result (refused.TooLong len) → 1048576 < len }
        ensures length { (len : ℕ) → IsErrOf result (refused.TooLong len) → HasLength (Some (told_of self.old)) folder.now name.now len }
        ensures told { told_of self.new ≡ told_of self.old }
        ensures calls { calls_of self.new ≡ calls_of self.old }
        ensures faults { CountsFault result (faults_of self.old) (faults_of self.new) }
        ensures no_fewer { faults_of self.old ≤ faults_of self.new }
        ensures listed { IsErrOf result refused.Failed ↔ ReadFails self.old folder.now name.now }
        ensures counted { plan_of self.new ≡ counted (plan_of self.old) }
    {
        if let Err(Failed) = self.schedule.call() {
            return Err(FilesErr::Failed);
        }
        if !is_there(&self.folders, folder) {
            self.schedule.fail();
            return Err(FilesErr::Failed);
        }
        match find(&self.files, folder, name) {
            Some(bytes) => copied(bytes),
            None => {
                self.schedule.fail();
                Err(FilesErr::Failed)
            }
        }
    }
}

impl Files for MemoryFiles {
    ghost use Rattle.std.specs.Prelude.{◌≡◌, ◌≤◌, ◌<◌, ◌↔◌, [], ◌∷◌, ℕ, Some, IfOk, IsErrOf, length};
    ghost use Rattle.side_world.specs.Told.{Tells};
    ghost use Rattle.side_world.specs.Files.{IsListing, ListsAll, HasBytes, HasLength, CountsFault};
    ghost use Rattle.side_world.specs.declared.files.FilesErr.TheVariants as refused;
    ghost use Rattle.side_world.specs.declared.files.FilesCall.TheVariants as call;
    ghost use Rattle.side_memory.specs.MemoryFiles.{told_of, calls_of, faults_of, plan_of, ListFails, ReadFails};
    ghost use Rattle.disk_memory.specs.Plan.{counted};

    ghost folders = { λ f. Some (told_of f) };

    ghost calls = { calls_of };

    ghost faults = { faults_of };

    /// Fails exactly where it is a call that is to fail, or there is no such folder.
    fn list(&mut self, folder: &[u8]) -> Result<Names, FilesErr>
        ensures names { IfOk result IsListing }
        ensures all { IfOk result (λ names. ListsAll (Some (told_of self.old)) folder.now names) }
        ensures no_file { (len : ℕ) → IsErrOf result (refused.TooLong len) → ⊥ }
        ensures folders { Some (told_of self.new) ≡ Some (told_of self.old) }
        ensures calls { Tells (calls_of self.old) (calls_of self.new) (call.List folder.now ∷ []) }
        ensures faults { CountsFault result (faults_of self.old) (faults_of self.new) }
        ensures no_fewer { faults_of self.old ≤ faults_of self.new }
        ensures listed { IsErrOf result refused.Failed ↔ ListFails self.old folder.now }
        ensures counted { plan_of self.new ≡ counted (plan_of self.old) }
    {
        let listed = self.listed(folder);
        match Blob::from_bytes(self.alloc, folder) {
            Ok(folder) => self.notes.add(FilesCall::List { folder }),
            Err(_) => self.notes.stop(),
        }
        listed
    }

    /// Fails exactly where it is a call that is to fail, or there is no such folder, or no such file.
    fn read(&mut self, folder: &[u8], name: &[u8]) -> Result<Blob, FilesErr>
        ensures bytes { IfOk result (λ bytes. HasBytes (Some (told_of self.old)) folder.now name.now bytes) }
        ensures within { IfOk result (λ bytes. length bytes ≤ 1048576) }
        ensures too_long { (len : ℕ) → IsErrOf result (refused.TooLong len) → 1048576 < len }
        ensures length { (len : ℕ) → IsErrOf result (refused.TooLong len) → HasLength (Some (told_of self.old)) folder.now name.now len }
        ensures folders { Some (told_of self.new) ≡ Some (told_of self.old) }
        ensures calls { Tells (calls_of self.old) (calls_of self.new) (call.Read folder.now name.now ∷ []) }
        ensures faults { CountsFault result (faults_of self.old) (faults_of self.new) }
        ensures no_fewer { faults_of self.old ≤ faults_of self.new }
        ensures listed { IsErrOf result refused.Failed ↔ ReadFails self.old folder.now name.now }
        ensures counted { plan_of self.new ≡ counted (plan_of self.old) }
    {
        let found = self.found(folder, name);
        match read_note(self.alloc, folder, name) {
            Ok(call) => self.notes.add(call),
            Err(_) => self.notes.stop(),
        }
        found
    }
}
