ghost use Rattle.std.specs.Prelude.{◌≡◌, IfOk, length};
ghost use Rattle.conn_serve.specs.Ends.{sink_at};
ghost use Rattle.sidecar_cli.specs.Check.{check_line, IsCheck, IsCounted};
ghost use Rattle.sidecar_cli.specs.World.{OverWorld};

use crate::configuring::{configured, without_resources};
use crate::{Device, Status, World};
use itoa::Buffer;
use resource_files::Resources;
use side_base::{Blob, NoMemory};
use side_world::{Clock, Failed, Files, Link, Outside, Sink, Source, send};
use sidecar_words::Words;
use std::alloc::Global;
use topic_spec::allowed;

/// Reads the resources, and says how many components there are, and how many subscriptions that are kept.
pub(crate) fn check<S: Source, N: Sink, E: Sink, F: Files, L: Link, C: Clock, O: Outside>(
    alloc: Global,
    given: &Words,
    world: &mut World<S, N, E, F, L, C, O>,
) -> Status
    ensures { OverWorld S.Source N.Sink E.Sink F.Files L.Link C.Clock O.Outside (IsCheck given.now) world.old world.new result }
{
    match configured(alloc, &mut world.files, &given.resources, &given.app, true) {
        Ok(resources) => {
            let Resources {
                components,
                subscriptions,
                ..
            } = resources;
            let kept = allowed(subscriptions, &components, &given.app);
            tell(alloc, components.len(), kept.len(), &mut world.sink)
        }
        Err(error) => without_resources(alloc, error),
    }
}

/// Says how many components and subscriptions there are.
fn tell<N: Sink>(alloc: Global, components: usize, subscriptions: usize, sink: &mut N) -> Status
    ensures { IsCounted components subscriptions (sink_at N.Sink sink.old) (sink_at N.Sink sink.new) result }
{
    let Ok(line) = line(alloc, components, subscriptions) else {
        return Status::NoMemory;
    };
    match send(sink, line.bytes()) {
        Ok(()) => Status::Ok,
        Err(Failed) => Status::OutsideFailed(Device::Sink),
    }
}

/// The line that says so many components and subscriptions.
#[tactic(auto, unfolding(crate::specs::Check::check_line))]
fn line(alloc: Global, components: usize, subscriptions: usize) -> Result<Blob, NoMemory>
    ensures { IfOk result (λ line. line ≡ check_line components subscriptions) }
{
    let mut line = Blob::from_bytes(alloc, b"ok components ")?;
    line.push(Buffer::new().format(components).as_bytes())?;
    line.push(b" subscriptions ")?;
    line.push(Buffer::new().format(subscriptions).as_bytes())?;
    line.push(b"\n")?;
    Ok(line)
}
