//! The commands to a store that are measured.
ghost use Rattle.std.specs.Prelude.{All, IfOk};
ghost use Rattle.state_core.specs.Taken.{IsTaken, IsTtl};

use side_base::{Blob, Moment, NoMemory, Text};
use state_core::{Cmd, Item, Items, Mode};
use std::alloc::Global;

const VALUE: &[u8] = b"{\"name\":\"somebody\",\"city\":\"somewhere\",\"amount\":12.50}";

/// A prime, and so prime to every number of rows that is no multiple of it: keys come from all over.
const STRIDE: u64 = 7_919_123;

/// How many seconds a row lives that has an end.
const SECONDS: u64 = 1;

/// What is asked of rows.
#[derive(Clone, Copy)]
pub(crate) enum Kind {
    Get,
    /// To store them without an end.
    Save,
    /// To store them with an end.
    SaveEnding,
}

/// The moment so many milliseconds after the beginning of 1970.
fn moment(ms: u32) -> Moment {
    match Moment::at(u64::from(ms)) {
        Some(moment) => moment,
        None => unreachable!(),
    }
}

fn key(alloc: Global, number: u32) -> Result<Text, NoMemory> {
    let key = format!(in alloc; "shop||order-{number:010}")?;
    Ok(Text::from_string(key))
}

fn item(alloc: Global, number: u32, ttl: Option<u64>) -> Result<Item, NoMemory>
    requires { IsTtl ttl }
    ensures { IfOk result (λ item. IsTtl item.ttl) }
{
    let value = Blob::from_bytes(alloc, VALUE)?;
    Ok(Item {
        key: key(alloc, number)?,
        value,
        etag: None,
        mode: Mode::Unsaid,
        ttl,
    })
}

fn save(alloc: Global, number: u32, ttl: Option<u64>, now: Moment) -> Result<Cmd, NoMemory>
    requires { IsTtl ttl }
    ensures { IfOk result IsTaken }
{
    let item = item(alloc, number, ttl)?;
    let mut items = Items::new(alloc);
    items.push(item)?;
    Ok(Cmd::Save { items, now })
}

fn get(alloc: Global, number: u32, now: Moment) -> Result<Cmd, NoMemory>
    ensures { IfOk result IsTaken }
{
    let key = key(alloc, number)?;
    Ok(Cmd::Get { key, now })
}

/// The command for the row with this number, so many milliseconds after the beginning of 1970.
pub(crate) fn command(alloc: Global, kind: Kind, number: u32, ms: u32) -> Result<Cmd, NoMemory>
    ensures { IfOk result IsTaken }
{
    match kind {
        Kind::Get => get(alloc, number, moment(ms)),
        Kind::Save => save(alloc, number, None, moment(ms)),
        Kind::SaveEnding => save(alloc, number, Some(SECONDS), moment(ms)),
    }
}

/// The number of a row out of so many, all over them as `i` rises.
fn scattered(i: u32, rows: u32) -> u32 {
    if rows == 0 {
        return 0;
    }
    (u64::from(i) * STRIDE % u64::from(rows)) as u32
}

/// Adds the command for the row with this number.
fn add(alloc: Global, kind: Kind, number: u32, ms: u32, cmds: &mut Vec<Cmd>) -> Result<(), NoMemory>
    requires { All IsTaken cmds.old.items }
    ensures { All IsTaken cmds.new.items }
{
    let cmd = command(alloc, kind, number, ms)?;
    cmds.push(cmd)?;
    Ok(())
}

/// Adds so many commands for rows out of so many.
fn add_all(
    alloc: Global,
    kind: Kind,
    count: u32,
    rows: u32,
    ms: u32,
    cmds: &mut Vec<Cmd>,
) -> Result<(), NoMemory>
    requires { All IsTaken cmds.old.items }
    ensures { All IsTaken cmds.new.items }
{
    for i in 0..count {
        add(alloc, kind, scattered(i, rows), ms, cmds)?;
    }
    Ok(())
}

/// So many commands for rows out of so many; fewer where memory lacks.
pub(crate) fn commands(alloc: Global, kind: Kind, count: u32, rows: u32, ms: u32) -> Vec<Cmd>
    ensures { All IsTaken result.items }
{
    let mut cmds = Vec::new(alloc);
    let _ = add_all(alloc, kind, count, rows, ms, &mut cmds);
    cmds
}
