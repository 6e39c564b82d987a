//! One call, step by step: the wait without a ticket, a glance at the tickets, a ticket, the wait with it, the step of the object, and who waits is woken.
ghost use Rattle.std.specs.Prelude.{◌≡◌, ℕ, ◌+◌, ◌^◌, ◌<◌, ◌≤◌, ◌↔◌, [], ◌∷◌, ◌++◌, length, Some, IfOk, IfErr, IsErr};
ghost use Rattle.turn_cell.specs.declared.view.Stage.TheVariants.{Idle, Waiting, InTurn, Decided};
ghost use Rattle.turn_cell.specs.History.{IsLegal};
ghost use Rattle.turn_cell.specs.Sitting.{Extends, Exhausts, IsAlone, entry_by};
ghost use Rattle.turn_cell.specs.Play.{Hit, IsTokenOf, IsFree, IsWaiting, IsServed, IsSoundView, StepMade, sitting};

use crate::error::Exhausted;
use crate::object::Object;
use crate::sleepers::Sleepers;
use crate::table::{
    Decide, Decision, Draw, Glance, Leave, Look, OBJECT, Pass, SERVING, TICKET, Token, Words,
};
use std::hint::spin_loop;
use std::marker::Brand;
use std::snapshot::Snapshot;
use std::sync::Wait;
use std::thread::yield_now;

/// The most entries of a history.
const MOST_ENTRIES: u64 = 1 << 62;

// How often a seat without a ticket looks before it sleeps, and how often it sleeps before it draws a ticket while others have one.
const GLIMPSES: u32 = 6;

const PATIENCE: u32 = 8;

// How often a seat with a ticket looks before it yields the processor, and how often before it sleeps.
const LOOKS: u32 = 200;

const YIELDS: u32 = 208;

/// Whether nobody has a ticket. It tells the seat nothing.
fn is_quiet<O: Object>(table: &Words<O>) -> bool
    requires { table.now.table_id.words ≡ 16 }
{
    table.peek(TICKET) == table.peek(SERVING)
}

/// Spins for so many looks.
fn pause(spins: u32) {
    for _ in 0..spins {
        spin_loop();
    }
}

/// Whether nobody has a ticket at one of some looks, which come ever later. Where others sleep already it gives up at once: they are better woken
/// one by one than looked past.
fn falls_quiet<O: Object>(table: &Words<O>, sleepers: &Sleepers) -> bool
    requires { table.now.table_id.words ≡ 16 }
{
    let mut spins: u32 = 1;
    for _ in 0..GLIMPSES {
        if is_quiet(table) {
            return true;
        }
        if sleepers.has_comers() {
            return false;
        }
        pause(spins);
        spins = spins.saturating_mul(2);
    }
    false
}

/// Waits without a ticket while others have one, though not for ever. Who slept announces those that may sleep still.
fn approach<O: Object, R: Wait>(rt: &R, table: &Words<O>, sleepers: &Sleepers)
    requires { table.now.table_id.words ≡ 16 }
{
    if is_quiet(table) {
        return;
    }
    for slept in 0..PATIENCE {
        if falls_quiet(table, sleepers) {
            if slept != 0 {
                sleepers.announce();
            }
            return;
        }
        sleepers.announce();
        if !is_quiet(table) {
            sleepers.sleep(rt);
        }
    }
    sleepers.announce();
}

/// The ticket of a free seat, unless the cell is exhausted.
fn draw<O: Object>(
    table: &Words<O>,
    sleepers: &Sleepers,
    token: &mut Token<O>,
) -> Result<u64, Exhausted>
    requires table { IsTokenOf table.now.table_id table.now.key.value token.old }
    requires free { IsFree token.old }
    ensures table { token.new.table_id ≡ token.old.table_id }
    ensures ok { IfOk result (λ n. token.new.me ≡ (record token.old.me.0 { stage = Waiting n }, [])) }
    ensures err { IfErr result (λ e. Exhausts O.Object table.now.key.value (sitting token.old) e.count (sitting token.new) × IsFree token.new) }
    ensures exact { IfErr result (λ _. IsAlone (sitting token.old) → length token.old.me.0.seen ≡ 2 ^ 62) }
{
    let count = table.load::<Glance>(token, TICKET);
    if count >= MOST_ENTRIES {
        sleepers.wake_one();
        return Err(Exhausted { count });
    }
    Ok(table.fetch_add::<Draw>(token, TICKET, 1))
}

// What a seat does between two looks: it spins, then yields, then sleeps until the word moves.
fn rest<O: Object, R: Wait>(rt: &R, table: &Words<O>, sleepers: &Sleepers, serving: u64, looks: u32)
    requires { table.now.table_id.words ≡ 16 }
{
    if looks < LOOKS {
        spin_loop();
    } else if looks < YIELDS {
        yield_now();
    } else {
        sleepers.enter();
        table.park(rt, SERVING, (serving & 0xffff_ffff) as u32);
        sleepers.leave();
    }
}

/// Waits until the ticket is served.
fn wait<O: Object, R: Wait>(
    rt: &R,
    table: &Words<O>,
    sleepers: &Sleepers,
    token: &mut Token<O>,
    number: u64,
)
    requires table { IsTokenOf table.now.table_id table.now.key.value token.old }
    requires waits { IsWaiting number token.old }
    ensures table { token.new.table_id ≡ token.old.table_id }
    ensures hit { Hit O.Object table.now.key.value token.old.me number token.new.me }
{
    let mut looks: u32 = 0;
    for _ in rt.forever() {
        let serving = table.load::<Look>(token, SERVING);
        if serving == number {
            return;
        }
        rest(rt, table, sleepers, serving, looks);
        looks = looks.saturating_add(1);
    }
    unreachable!()
}

/// Wakes those with a ticket where one of them sleeps, or else one of those without.
fn hand_on<O: Object>(table: &Words<O>, sleepers: &Sleepers)
    requires { table.now.table_id.words ≡ 16 }
{
    if sleepers.has_heirs() {
        table.wake_all(SERVING);
    } else {
        sleepers.wake_one();
    }
}

/// Makes the object's step in its slot, and remembers what the object is then.
fn make_step<O: Object>(
    table: &Words<O>,
    token: &mut Token<O>,
    number: u64,
    cmd: &O::Cmd,
) -> (O::Reply, Snapshot<O>)
    requires table { IsTokenOf table.now.table_id table.now.key.value token.old }
    requires served { IsServed O.Object table.now.key.value number token.old }
    requires room { number < 2 ^ 62 }
    requires takes { O.takes table.now.key.value cmd.now }
    ensures table { token.new.table_id ≡ token.old.table_id }
    ensures held { token.new.me ≡ (token.old.me.0, (0, Some result.1.value) ∷ []) }
    ensures steps { O.steps table.now.key.value token.old.me.0.seen (entry_by (sitting token.old) cmd.now result.0 (O.mark result.1.value)) }
    ensures stands { O.stands table.now.key.value (token.old.me.0.seen ++ entry_by (sitting token.old) cmd.now result.0 (O.mark result.1.value) ∷ []) result.1.value }
{
    let _ = number;
    let object = token.slot_mut(table, OBJECT).as_mut().unwrap();
    let reply = object.apply(cmd);
    let after = Snapshot::of(object);
    (reply, after)
}

/// Decides the entry. It is in the history once the seat leaves.
fn decide<O: Object, W: Decision<O::Cmd, O::Reply>>(
    table: &Words<O>,
    token: &mut Token<O>,
    number: u64,
    object: &Snapshot<O>,
    cmd: &O::Cmd,
    reply: &O::Reply,
)
    requires table { IsTokenOf table.now.table_id table.now.key.value token.old }
    requires turn { (token.old.me.0.stage ≡ InTurn number) × (number < 2 ^ 62) }
    requires legal { IsLegal O.Object table.now.key.value (token.old.me.0.seen ++ entry_by (sitting token.old) cmd.now reply.now (O.mark object.now.value) ∷ []) }
    requires entry { W.entry ≡ Some (entry_by (sitting token.old) cmd.now reply.now (O.mark object.now.value)) }
    ensures table { token.new.table_id ≡ token.old.table_id }
    ensures decided { token.new.me ≡ (record token.old.me.0 { stage = Decided number (entry_by (sitting token.old) cmd.now reply.now (O.mark object.now.value)) }, token.old.me.1) }
{
    let _ = number;
    let _ = object;
    let _ = cmd;
    let _ = reply;
    table.fetch_or::<Decide<W>>(token, SERVING, 0);
}

/// Makes the step of the ticket that is served.
fn run<O: Object>(table: &Words<O>, token: &mut Token<O>, number: u64, cmd: &O::Cmd) -> O::Reply
    requires table { IsTokenOf table.now.table_id table.now.key.value token.old }
    requires served { IsServed O.Object table.now.key.value number token.old }
    requires room { number < 2 ^ 62 }
    requires takes { O.takes table.now.key.value cmd.now }
    ensures table { token.new.table_id ≡ token.old.table_id }
    ensures step { StepMade O.Object table.now.key.value token.old.me.0 cmd.now result token.new.me }
{
    let (reply, after) = make_step(table, token, number, cmd);
    decide::<O, Brand>(table, token, number, &after, cmd, &reply);
    table.fetch_add::<Leave>(token, SERVING, 1);
    reply
}

/// Leaves a turn past the last entry.
fn pass<O: Object>(table: &Words<O>, token: &mut Token<O>, number: u64)
    requires table { IsTokenOf table.now.table_id table.now.key.value token.old }
    requires served { IsServed O.Object table.now.key.value number token.old }
    requires late { 2 ^ 62 ≤ number }
    ensures table { token.new.table_id ≡ token.old.table_id }
    ensures free { token.new.me ≡ (record token.old.me.0 { count = Some number; stage = Idle }, []) }
    ensures sound { IsSoundView O.Object table.now.key.value token.new.me.0 }
{
    table.fetch_add::<Pass>(token, SERVING, 1);
}

/// One call of a free seat.
pub(crate) fn take_turn<O: Object, R: Wait>(
    rt: &R,
    table: &Words<O>,
    sleepers: &Sleepers,
    token: &mut Token<O>,
    cmd: &O::Cmd,
) -> Result<O::Reply, Exhausted>
    requires table { IsTokenOf table.now.table_id table.now.key.value token.old }
    requires free { IsFree token.old }
    requires takes { O.takes table.now.key.value cmd.now }
    ensures free { IsFree token.new }
    ensures ok { IfOk result (λ reply. Extends O.Object table.now.key.value (sitting token.old) cmd.now reply (sitting token.new)) }
    ensures err { IfErr result (λ e. Exhausts O.Object table.now.key.value (sitting token.old) e.count (sitting token.new)) }
    ensures exact { IsAlone (sitting token.old) → (IsErr result ↔ (length token.old.me.0.seen ≡ 2 ^ 62)) }
{
    approach(rt, table, sleepers);
    let number = draw(table, sleepers, token)?;
    wait(rt, table, sleepers, token, number);
    if number >= MOST_ENTRIES {
        pass(table, token, number);
        hand_on(table, sleepers);
        return Err(Exhausted { count: number });
    }
    let reply = run(table, token, number, cmd);
    hand_on(table, sleepers);
    Ok(reply)
}
