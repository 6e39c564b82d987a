// The resource files of a folder, one after the other.
ghost use Rattle.std.specs.Prelude.{◌≡◌, ◌≤◌, ℕ, [], ◌∷◌, if◌then◌else◌};
ghost use Rattle.side_world.specs.declared.files.FilesErr.TheVariants as not_read;
ghost use Rattle.side_world.specs.Told.{Tells};
ghost use Rattle.side_world.specs.declared.files.FilesCall.TheVariants as call;
ghost use Rattle.resource_files.specs.declared.resources.ResourcesErr.TheVariants as told;
ghost use Rattle.resource_files.specs.Added.{reading_for};
ghost use Rattle.resource_files.specs.Refusals.{wants_memory};
ghost use Rattle.resource_files.specs.Steps.{IsNext, CountsFailed, unread as unread_by, unlisted as unlisted_by};
ghost use Rattle.resource_files.specs.Read.{IsReadFrom};

use crate::adding::add_file;
use crate::resources::{Refusal, Resources, ResourcesErr, nothing};
use crate::telling::is_memory;
use side_base::Text;
use side_world::{Files, FilesErr};
use std::alloc::Global;

// A refusal of this file, where it says more than that there is no memory.
fn refused(file: Text, refusal: Refusal) -> ResourcesErr
    ensures { result ≡ (if wants_memory refusal then told.NoMemory else told.Refused file refusal) }
{
    if is_memory(&refusal) {
        ResourcesErr::NoMemory
    } else {
        ResourcesErr::Refused { file, refusal }
    }
}

// Why the file of this name isn't read.
fn unread(file: Text, error: FilesErr) -> ResourcesErr
    ensures { result ≡ unread_by file error }
{
    match error {
        FilesErr::Failed => ResourcesErr::Failed,
        FilesErr::TooLong { len } => ResourcesErr::Refused {
            file,
            refusal: Refusal::TooLong { len },
        },
        FilesErr::NoMemory => ResourcesErr::NoMemory,
    }
}

// Why a folder isn't listed, which has no length.
fn unlisted(error: FilesErr) -> ResourcesErr
    requires { (len : ℕ) → error ≡ not_read.TooLong len → ⊥ }
    ensures { result ≡ unlisted_by error }
{
    match error {
        FilesErr::Failed => ResourcesErr::Failed,
        FilesErr::TooLong { .. } => unreachable!(),
        FilesErr::NoMemory => ResourcesErr::NoMemory,
    }
}

// Reads the file of this name, and adds what it says.
fn read_file<F: Files>(
    alloc: Global,
    files: &mut F,
    folder: &[u8],
    app: &Text,
    subscribing: bool,
    name: Text,
    all: &mut Resources,
) -> Result<(), ResourcesErr>
    ensures next { IsNext (F.folders files.old) folder.now (reading_for app.now subscribing) name all.old all.new result }
    ensures folders { F.folders files.new ≡ F.folders files.old }
    ensures calls { Tells (F.calls files.old) (F.calls files.new) (call.Read folder.now name ∷ []) }
    ensures faults { CountsFailed result (F.faults files.old) (F.faults files.new) }
    ensures no_fewer { F.faults files.old ≤ F.faults files.new }
{
    match files.read(folder, name.bytes()) {
        Ok(bytes) => match add_file(alloc, bytes.bytes(), app, subscribing, all) {
            Ok(()) => Ok(()),
            Err(refusal) => Err(refused(name, refusal)),
        },
        Err(error) => Err(unread(name, error)),
    }
}

/// Reads the resource files of a folder in the order of their names, for this app, up to the first that is refused: one call
/// lists the folder, and one reads each file.
///
/// Of a file its documents are read first, then its components, then its policies, then its subscriptions, each joined to those
/// of the files before it; the first refusal counts. Where `subscribing` is false, subscriptions are passed over, and none is refused. A file of more than 1,048,576 bytes is refused. `Failed` comes only where the count of faults
/// rose, as where the folder isn't there; with every other answer that count is as before.
pub fn read_resources<F: Files>(
    alloc: Global,
    files: &mut F,
    folder: &[u8],
    app: &Text,
    subscribing: bool,
) -> Result<Resources, ResourcesErr>
    ensures read { IsReadFrom (F.folders files.old) (F.calls files.old) (F.calls files.new) (F.faults files.old) (F.faults files.new) folder.now (reading_for app.now subscribing) result }
    ensures folders { F.folders files.new ≡ F.folders files.old }
    ensures no_fewer { F.faults files.old ≤ F.faults files.new }
{
    let mut names = match files.list(folder) {
        Ok(names) => names,
        Err(error) => return Err(unlisted(error)),
    };
    let mut all = nothing(alloc);
    while let Some(name) = names.take_first() {
        match read_file(alloc, files, folder, app, subscribing, name, &mut all) {
            Ok(()) => {}
            Err(error) => return Err(error),
        }
    }
    Ok(all)
}
