ghost use Rattle.std.specs.Prelude.{◌≡◌, ◌≢◌, ◌<◌, ◌≤◌, ℕ, List, [], ◌∷◌, length, Option, IfOk, IsErrOf};
ghost use Rattle.side_world.specs.Told.{Tells};

use side_base::{Blob, Names};
use std::error::Error;
use std::fmt;

/// Why a folder was not listed, or a file not read.
#[derive(Clone, Copy, Debug, PartialEq, Eq)]
pub enum FilesErr {
    /// It is not there, or can't be read: the count of faults rose.
    Failed,
    /// The file has `len` bytes, which is more than 1,048,576.
    TooLong { len: u128 },
    /// There is no room for the names or the bytes.
    NoMemory,
}

impl fmt::Display for FilesErr {
    fn fmt<W: fmt::Write>(&self, f: &mut fmt::Formatter<W>) -> fmt::Result {
        match self {
            FilesErr::Failed => f.write_str("the files failed"),
            FilesErr::TooLong { len } => write!(f, "a file of {len} bytes is too long"),
            FilesErr::NoMemory => f.write_str("no memory"),
        }
    }
}

impl Error for FilesErr {}

/// A call on files.
#[derive(Debug, Drop)]
pub enum FilesCall {
    List { folder: Blob },
    Read { folder: Blob, name: Blob },
}

/// Folders of resource files. Nothing changes them while they are read.
pub trait Files {
    ghost use Rattle.side_world.specs.declared.files.FilesErr.TheVariants as refused;
    ghost use Rattle.side_world.specs.declared.files.FilesCall.{FilesCall};
    ghost use Rattle.side_world.specs.declared.files.FilesCall.TheVariants as call;
    ghost use Rattle.side_world.specs.Files.{Folders, IsListing, ListsAll, HasBytes, HasLength, CountsFault};

    // The files that are there, where they are told.
    ghost folders: { Self → Option Folders };

    // The calls, in order, where they are told.
    ghost calls: { Self → Option (List FilesCall) };

    // How often a call has failed. The count stops at 2^64 - 1.
    ghost faults: { Self → ℕ };

    /// The names in `folder` that end in `.yaml` or `.yml`, in the order of their bytes.
    ///
    /// `Failed` comes only where the count of faults rose.
    fn list(&mut self, folder: &[u8]) -> Result<Names, FilesErr>
        ensures names { IfOk result IsListing }
        ensures all { IfOk result (λ names. ListsAll (folders self.old) folder.now names) }
        ensures no_file { (len : ℕ) → IsErrOf result (refused.TooLong len) → ⊥ }
        ensures folders { folders self.new ≡ folders self.old }
        ensures calls { Tells (calls self.old) (calls self.new) (call.List folder.now ∷ []) }
        ensures faults { CountsFault result (faults self.old) (faults self.new) }
        ensures no_fewer { faults self.old ≤ faults self.new };

    /// The bytes of the file of this name in `folder`, of which there are at most 1,048,576.
    ///
    /// `TooLong` comes exactly where it has more. `Failed` comes only where the count of faults rose, as where it is gone.
    fn read(&mut self, folder: &[u8], name: &[u8]) -> Result<Blob, FilesErr>
        ensures bytes { IfOk result (λ bytes. HasBytes (folders self.old) folder.now name.now bytes) }
        ensures within { IfOk result (λ bytes. length bytes ≤ 1048576) }
        ensures too_long { (len : ℕ) → IsErrOf result (refused.TooLong len) → 1048576 < len }
        ensures length { (len : ℕ) → IsErrOf result (refused.TooLong len) → HasLength (folders self.old) folder.now name.now len }
        ensures folders { folders self.new ≡ folders self.old }
        ensures calls { Tells (calls self.old) (calls self.new) (call.Read folder.now name.now ∷ []) }
        ensures faults { CountsFault result (faults self.old) (faults self.new) }
        ensures no_fewer { faults self.old ≤ faults self.new };
}
