ghost use Rattle.std.specs.Prelude.{◌≡◌, IfOk};
ghost use Rattle.state_core.specs.Taken.{IsTaken};
ghost use Rattle.turn_cell.specs.Sitting.{IsSeatOf};
ghost use Rattle.turn_cell.specs.Growth.{Stays};

use keeper_core::{Keeper, MemoryKeeper};
use side_base::{Blob, Moment, NoMemory, Places, Text};
use state_core::{Cmd, Item, Items, Mode, Reply, Store};
use std::alloc::Global;
use std::sync::Wait;
use std::test::Fail;
use std::thread::{Threads, join};
use turn_cell::{Seat, TurnCell};

/// How many saves each thread makes.
const SAVES: u32 = 1000;

/// A moment of a day, in milliseconds since 1970.
const DAY: u64 = 1_700_000_000_000;

/// A seat that was used, and how many of its saves were answered `Saved`.
#[derive(Drop)]
struct Saver {
    seat: Seat<Store<MemoryKeeper>>,
    saved: u32,
}

/// The command that saves one value under the key.
fn save(alloc: Global, key: &'static str, now: Moment) -> Result<Cmd, NoMemory>
    ensures { IfOk result IsTaken }
{
    let value = Blob::from_bytes(alloc, b"{\"amount\":1}")?;
    let mut items = Items::new(alloc);
    items.push(Item {
        key: Text::from_static(alloc, key),
        value,
        etag: None,
        mode: Mode::Unsaid,
        ttl: None,
    })?;
    Ok(Cmd::Save { items, now })
}

/// Gives the command once; whether it is answered `Saved`.
fn is_saved<R: Wait>(
    rt: &R,
    cell: &TurnCell<Store<MemoryKeeper>>,
    seat: &mut Seat<Store<MemoryKeeper>>,
    cmd: &Cmd,
) -> bool
    requires seat { IsSeatOf cell.now seat.old }
    requires taken { IsTaken cmd.now }
    ensures { Stays seat.old seat.new }
{
    let answer = cell.call(rt, seat, cmd);
    let is_saved = matches!(&answer, Ok(Reply::Saved));
    drop(answer);
    is_saved
}

/// Gives the command `SAVES` times.
fn save_often<R: Wait>(
    rt: &R,
    cell: &TurnCell<Store<MemoryKeeper>>,
    mut seat: Seat<Store<MemoryKeeper>>,
    cmd: &Cmd,
) -> Saver
    requires seat { IsSeatOf cell.now seat }
    requires taken { IsTaken cmd.now }
    ensures { Stays seat result.seat }
{
    let mut saved: u32 = 0;
    for _ in 0..SAVES {
        saved = saved.wrapping_add(u32::from(is_saved(rt, cell, &mut seat, cmd)));
    }
    Saver { seat, saved }
}

/// The greatest version that a new store gave, and one, after a thread each has given its command `SAVES` times; and how many were saved.
fn next_after<R: Threads + Wait + Sync>(
    rt: &R,
    alloc: Global,
    one: &Cmd,
    two: &Cmd,
) -> Result<(u64, u32, u32), NoMemory>
    requires one { IsTaken one.now }
    requires two { IsTaken two.now }
{
    let keeper = MemoryKeeper::new(alloc, 1_000_000, Places::new(alloc), [7; 16]);
    let (cell, mut root) = TurnCell::start(alloc, Store::new(alloc, keeper))?;
    let child = cell.split(&mut root);
    let (first, second) = join(
        rt,
        || save_often(rt, &cell, root, one),
        || save_often(rt, &cell, child, two),
    );
    let Saver {
        seat: mut root,
        saved: ones,
    } = first;
    let Saver {
        seat: child,
        saved: twos,
    } = second;
    cell.meet(&mut root, child);
    let next = cell.close(root).into_keeper().next_version();
    Ok((next, ones, twos))
}

#[test]
fn two_threads_save_in_turn(rt: HostRuntime) -> Result<(), Fail> {
    let alloc = rt.alloc();
    let now = Moment::at(DAY).unwrap();
    let one = save(alloc, "one", now)?;
    let two = save(alloc, "two", now)?;
    let made = next_after(&rt, alloc, &one, &two);
    drop(one);
    drop(two);
    assert_eq!(rt; made?, (2001, SAVES, SAVES));
    Ok(())
}
