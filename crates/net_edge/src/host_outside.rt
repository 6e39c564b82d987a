ghost use Rattle.std.specs.Prelude.{◌≡◌, None, IfOk};
ghost use Rattle.side_world.specs.Outside.{IsNewDisk, AreNew};

use crate::start_numbers::StartNumbers;
use crate::{DoorLimits, TcpAcceptor, TcpDoor, TcpLink};
use host_devices::{FaultCount, HostClock, HostDisk};
use side_world::{Acceptor, Disk, Failed, Link, Outside, WorkerParts};
use std::fs::{File, Files};
use std::io::{self, ErrorKind};
use std::net::{Net, TcpListener, TcpStream};
use std::random::RandomSource;
use std::sync::Wait;
use std::time;

/// The handle of a host that an outside needs.
pub trait Host: Files<File = File>
    + Net<Listener = TcpListener, Stream = TcpStream>
    + RandomSource
    + time::Clock
    + Wait
    + AllocGlobal
    + Copy {}

impl<R> Host for R
where
    R: Files<File = File>
        + Net<Listener = TcpListener, Stream = TcpStream>
        + RandomSource
        + time::Clock
        + Wait
        + AllocGlobal
        + Copy,
{}

/// What this outside gives to a worker.
type HostParts<R> = WorkerParts<TcpAcceptor<R>, TcpLink<R>, HostClock<R>>;

/// The outside of a program on this host: disks are its files, the workers share one door of 127.0.0.1, and each has a link of
/// its own and the host's clock. It tells nothing. Each error of the host is a fault, and so are a second port, and workers that leave no
/// descriptor to connections.
#[derive(Drop)]
pub struct HostOutside<R> {
    rt: R,
    /// How many disks it has given.
    disks: usize,
    door: Option<PortDoor>,
    numbers: StartNumbers,
    faults: FaultCount,
}

/// A door, and the port for which it was opened.
#[derive(Drop)]
struct PortDoor {
    port: u16,
    door: TcpDoor,
}

impl<R: Host + Send> HostOutside<R> {
    ghost use Rattle.std.specs.Prelude.{◌≡◌, IfOk};

    /// What this handle reaches. The door is opened with the first worker.
    pub fn new(rt: R) -> io::Result<Self>
        ensures { IfOk result (λ outside. ⟦<HostOutside<R> as Outside>⟧.faults outside ≡ 0) }
    {
        Ok(HostOutside {
            rt,
            disks: 0,
            door: None,
            numbers: StartNumbers::new(&rt)?,
            faults: FaultCount::none(),
        })
    }
}

/// The file at this path.
fn open_disk<R: Files<File = File>>(rt: &R, path: &[u8]) -> io::Result<HostDisk>
    ensures { IfOk result (IsNewDisk ⟦<HostDisk as Disk>⟧) }
{
    match str::from_utf8(path) {
        Ok(path) => HostDisk::open(rt, path),
        Err(_) => Err(io::Error::from(ErrorKind::InvalidInput)),
    }
}

/// What the next worker at this port has. The first call opens the door, which leaves a descriptor to each of so many disks.
fn open_worker<R: Host>(
    rt: R,
    door: &mut Option<PortDoor>,
    port: u16,
    disks: usize,
) -> io::Result<HostParts<R>>
    ensures { IfOk result (AreNew ⟦<TcpAcceptor<R> as Acceptor>⟧ ⟦<TcpLink<R> as Link>⟧) }
{
    if door.is_none() {
        let open = TcpDoor::open_within(
            &rt,
            port,
            DoorLimits {
                left_to_disks: disks,
                ..DoorLimits::standard()
            },
        )?;
        *door = Some(PortDoor { port, door: open });
    }
    match door {
        Some(open) if open.port == port => worker_parts(rt, &open.door),
        _ => Err(io::Error::from(ErrorKind::AddrNotAvailable)),
    }
}

/// What a worker at this door has.
fn worker_parts<R: Host>(rt: R, door: &TcpDoor) -> io::Result<HostParts<R>>
    ensures { IfOk result (AreNew ⟦<TcpAcceptor<R> as Acceptor>⟧ ⟦<TcpLink<R> as Link>⟧) }
{
    let acceptor = door.acceptor(rt)?;
    Ok(WorkerParts {
        link: door.link(rt, &acceptor)?,
        acceptor,
        clock: HostClock::new(rt)?,
    })
}

impl<R: Host + Send> Outside for HostOutside<R> {
    type Disk = HostDisk;

    type Acceptor = TcpAcceptor<R>;

    type Link = TcpLink<R>;

    type Clock = HostClock<R>;

    ghost use Rattle.std.specs.Prelude.{◌≡◌, ◌≤◌};
    ghost use Rattle.side_world.specs.Faults.{RoseWith};

    ghost disks = { λ _. None };

    ghost calls = { λ _. None };

    ghost backs = { λ _. None };

    ghost numbers = { λ _. None };

    ghost faults = { λ o. o.faults };

    fn take_disk(&mut self, path: &[u8]) -> Result<HostDisk, Failed> {
        self.disks = self.disks.saturating_add(1);
        self.faults.counted(open_disk(&self.rt, path))
    }

    fn give_disk(&mut self, _path: &[u8], disk: HostDisk) {
        self.faults.count_back(disk.faults());
    }

    fn worker(&mut self, port: u16, _number: u32) -> Result<HostParts<R>, Failed> {
        let parts = open_worker(self.rt, &mut self.door, port, self.disks);
        self.faults.counted(parts)
    }

    fn give_worker(&mut self, _number: u32, parts: HostParts<R>)
        ensures faults { RoseWith parts.acceptor.faults self.old.faults self.new.faults }
        ensures no_fewer { self.old.faults ≤ self.new.faults }
    {
        self.faults.count_back(parts.acceptor.faults());
    }

    fn start_number(&mut self) -> u64 {
        self.numbers.next_number()
    }
}
