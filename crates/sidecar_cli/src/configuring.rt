ghost use Rattle.std.specs.Prelude.{◌≡◌, ◌++◌, IfOk, codes};
ghost use Rattle.resource_files.specs.Refusals.{told_as};
ghost use Rattle.sidecar_cli.specs.Configured.{IsConfigured, Says};
ghost use Rattle.sidecar_cli.specs.World.{files_at};

use crate::{Device, Status};
use resource_files::{
    Refusal, Resources, ResourcesErr, read_resources, refusal_text, usual_resources,
};
use side_base::{Blob, NoMemory, Text};
use side_world::Files;
use std::alloc::Global;

/// The resources for an app: those of the files of a folder, of which subscriptions are read or passed over, or without a folder a store and a broker in memory.
pub(crate) fn configured<F: Files>(
    alloc: Global,
    files: &mut F,
    folder: &Option<Text>,
    app: &Text,
    subscribing: bool,
) -> Result<Resources, ResourcesErr>
    ensures { IsConfigured folder.now app.now subscribing (files_at F.Files files.old) (files_at F.Files files.new) result }
{
    match folder {
        Some(folder) => read_resources(alloc, files, folder.bytes(), app, subscribing),
        None => match usual_resources(alloc, app) {
            Ok(resources) => Ok(resources),
            Err(NoMemory) => Err(ResourcesErr::NoMemory),
        },
    }
}

/// How a run ends that has no resources.
pub(crate) fn without_resources(alloc: Global, error: ResourcesErr) -> Status
    ensures { Says error result }
{
    match error {
        ResourcesErr::Refused { file, refusal } => match refused(alloc, &file, &refusal) {
            Ok(text) => Status::BadResources { text },
            Err(NoMemory) => Status::NoMemory,
        },
        ResourcesErr::Failed => Status::OutsideFailed(Device::Files),
        ResourcesErr::NoMemory => Status::NoMemory,
    }
}

/// A file and why it is refused.
fn refused(alloc: Global, file: &Text, refusal: &Refusal) -> Result<Blob, NoMemory>
    ensures { IfOk result (λ text. text ≡ file.now ++ (codes ": " ++ told_as refusal.now)) }
{
    let told = refusal_text(alloc, refusal)?;
    placed(alloc, file, &told)
}

/// What is told of a place.
pub(crate) fn placed(alloc: Global, place: &Text, told: &Text) -> Result<Blob, NoMemory>
    ensures { IfOk result (λ text. text ≡ place.now ++ (codes ": " ++ told.now)) }
{
    let mut text = Blob::from_bytes(alloc, place.bytes())?;
    text.push(b": ")?;
    text.push(told.bytes())?;
    Ok(text)
}
