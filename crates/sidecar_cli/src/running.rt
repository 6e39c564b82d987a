ghost use Rattle.std.specs.Prelude.{◌<◌};
ghost use Rattle.sidecar_cli.specs.Promises.{EndsWellWhereItMay, HasItsCause, RefusesWords};
ghost use Rattle.sidecar_cli.specs.Run.{IsCommand, IsMain, IsRun};
ghost use Rattle.sidecar_cli.specs.World.{OverWorld, words_by};

use crate::checking::check;
use crate::drilling::run_drill;
use crate::playing::play;
use crate::serving::serve_port;
use crate::{Status, World};
use http_frames::laws::streams_are_unique;
use keeper_journal::AnyKeeper;
use rand_core::{Rng, SeedableRng};
use rand_pcg::Pcg64;
use side_base::Text;
use side_world::{Clock, Files, Link, Outside, Sink, Source};
use sidecar_core::ObjectKinds;
use sidecar_words::{Mode, Words, WordsErr, read_words};
use state_core::Store;
use std::alloc::Global;
use std::sync::Wait;
use std::thread::Threads;

/// Runs the command that `words` ask for, without the program's name, over a world, and writes to the note how it ended.
///
/// With `--stdio` the requests of one connection are answered, over stores that are started for it and whose disks are given back; with
/// `--check` the resources are read and counted; with `--drill` generated requests are answered and their statuses counted; without any of them the connections of a port are served, by workers side by side. Words that mean nothing are refused.
///
/// `run` says all that was done, by definitions; what follows of it is said by name: words are refused only where they mean nothing, each status has its cause, and where
/// nothing is refused or fails and no cell is exhausted a run ends with 0, or for want of memory.
pub fn sidecar_main<
    S: Source,
    N: Sink,
    E: Sink,
    F: Files,
    L: Link,
    C: Clock,
    O: Outside,
    W: Threads + Wait + Sync,
>(rt: &W, alloc: Global, words: &[Text], world: &mut World<S, N, E, F, L, C, O>) -> Status
    ensures run { OverWorld S.Source N.Sink E.Sink F.Files L.Link C.Clock O.Outside (IsMain ⟦<Store<AnyKeeper<O::Disk>> as ObjectKinds>⟧.kinds (words_by ⟦<Pcg64 as Rng>⟧ ⟦<Pcg64 as SeedableRng>⟧) words.now) world.old world.new result }
    ensures usage { OverWorld S.Source N.Sink E.Sink F.Files L.Link C.Clock O.Outside (RefusesWords words.now) world.old world.new result }
    ensures status_has_its_cause { OverWorld S.Source N.Sink E.Sink F.Files L.Link C.Clock O.Outside (HasItsCause ⟦<Store<AnyKeeper<O::Disk>> as ObjectKinds>⟧.kinds words.now) world.old world.new result }
    ensures ends_well_where_all_is_well { OverWorld S.Source N.Sink E.Sink F.Files L.Link C.Clock O.Outside (EndsWellWhereItMay ⟦<Store<AnyKeeper<O::Disk>> as ObjectKinds>⟧.kinds words.now) world.old world.new result }
{
    streams_are_unique();
    let status = run(rt, alloc, words, world);
    status.tell(&mut world.note);
    status
}

/// Reads the words, and does what they mean.
fn run<
    S: Source,
    N: Sink,
    E: Sink,
    F: Files,
    L: Link,
    C: Clock,
    O: Outside,
    W: Threads + Wait + Sync,
>(rt: &W, alloc: Global, words: &[Text], world: &mut World<S, N, E, F, L, C, O>) -> Status
    ensures { OverWorld S.Source N.Sink E.Sink F.Files L.Link C.Clock O.Outside (IsRun ⟦<Store<AnyKeeper<O::Disk>> as ObjectKinds>⟧.kinds (words_by ⟦<Pcg64 as Rng>⟧ ⟦<Pcg64 as SeedableRng>⟧) words.now) world.old world.new result }
{
    match read_words(alloc, words) {
        Ok(given) => command(rt, alloc, given, world),
        Err(WordsErr::Usage) => Status::Usage,
        Err(WordsErr::NoMemory) => Status::NoMemory,
    }
}

/// Does what the words mean.
fn command<
    S: Source,
    N: Sink,
    E: Sink,
    F: Files,
    L: Link,
    C: Clock,
    O: Outside,
    W: Threads + Wait + Sync,
>(rt: &W, alloc: Global, given: Words, world: &mut World<S, N, E, F, L, C, O>) -> Status
    requires { given.workers < 65535 }
    ensures { OverWorld S.Source N.Sink E.Sink F.Files L.Link C.Clock O.Outside (IsCommand ⟦<Store<AnyKeeper<O::Disk>> as ObjectKinds>⟧.kinds (words_by ⟦<Pcg64 as Rng>⟧ ⟦<Pcg64 as SeedableRng>⟧) given) world.old world.new result }
{
    match given.mode {
        Mode::Stdio => play(rt, alloc, given, world),
        Mode::Check => check(alloc, &given, world),
        Mode::Drill { start, requests } => run_drill(rt, alloc, given.app, start, requests, world),
        Mode::Serve => serve_port(rt, alloc, given, world),
    }
}
