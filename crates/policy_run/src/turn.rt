ghost use Rattle.std.specs.Prelude.{◌≡◌, ℕ, true, IfErr};
ghost use Rattle.breaker_core.specs.declared.command.BreakerCmd.TheVariants.{Admit};
ghost use Rattle.breaker_core.specs.Fits.{Fits};
ghost use Rattle.policy_run.specs.Effects.{AreNone, Made, Runs, times};
ghost use Rattle.policy_run.specs.Turn.{IsAdmission, IsAdmittedBy, IsReport, is_good};
ghost use Rattle.policy_run.specs.Attempts.{TurnsTo, IsRest, MadeBoth, turned_by};

use crate::{Attempt, Guard, Operation, Outcome, Refusal, Stepped};
use breaker_core::{BreakerCmd, BreakerReply};
use side_world::Clock;
use std::sync::Wait;
use turn_cell::Exhausted;

/// How one turn ended.
#[derive(Drop)]
pub(crate) enum Turned<A, B> {
    /// The attempt failed, and was reported.
    Failed(B),
    /// The call is over.
    Ended(Outcome<A, B>),
}

/// What came of asking whether an attempt may be made.
#[derive(Clone, Copy)]
pub(crate) enum Admission {
    /// It may, and belongs to this generation of the breaker; without a breaker it is 0.
    LetThrough { generation: u64 },
    Refused(Refusal),
    Exhausted { count: u64 },
}

/// One turn: an attempt is let through, made and reported.
pub(crate) fn turn<P: Operation, G: Guard, C: Clock, W: Wait>(
    rt: &W,
    limit: u64,
    guard: &mut G,
    op: &mut P,
    clock: &mut C,
) -> Turned<P::Good, P::Bad>
    requires guard { G.ready guard.old }
    requires op { P.ready op.old }
    ensures turn { Made (TurnsTo (G.there guard.old) (P.makes op.old limit) result) (Runs P.did op.old op.new) (Runs G.held guard.old guard.new) (times C.Clock clock.old clock.new) AreNone }
    ensures there { G.there guard.new ≡ G.there guard.old }
    ensures shows { (count : ℕ) → result ≡ Turned.Ended (Outcome.Exhausted count) → G.shows guard.new count }
    ensures shown { (good : P.Good) → result ≡ Turned.Ended (Outcome.Good good) → P.shown op.new good }
{
    match admit::<P, G, C, W>(rt, guard, clock) {
        Admission::LetThrough { generation } => attempt(rt, limit, generation, guard, op, clock),
        Admission::Refused(refusal) => Turned::Ended(Outcome::Refused(refusal)),
        Admission::Exhausted { count } => Turned::Ended(Outcome::Exhausted { count }),
    }
}

/// Asks the breaker, if there is one, to let an attempt through.
fn admit<P: Operation, G: Guard, C: Clock, W: Wait>(
    rt: &W,
    guard: &mut G,
    clock: &mut C,
) -> Admission
    requires { G.ready guard.old }
    ensures admission { Made {E = P.Own} (IsAdmission (G.there guard.old) result) AreNone (Runs G.held guard.old guard.new) (times C.Clock clock.old clock.new) AreNone }
    ensures there { G.there guard.new ≡ G.there guard.old }
    ensures shows { (count : ℕ) → result ≡ Admission.Exhausted count → G.shows guard.new count }
{
    if !guard.is_there() {
        return Admission::LetThrough { generation: 0 };
    }
    let now = clock.now();
    match guard.step(rt, &BreakerCmd::Admit { now }) {
        Stepped::Answered(reply) => admission_by(reply),
        Stepped::Exhausted { count } => Admission::Exhausted { count },
        Stepped::NoBreaker => unreachable!(),
    }
}

/// What the breaker's answer to an admission means.
fn admission_by(reply: BreakerReply) -> Admission
    requires { (now : ℕ) × Fits (Admit now) reply }
    ensures { IsAdmittedBy reply result }
{
    match reply {
        BreakerReply::Admitted { generation, .. } => Admission::LetThrough { generation },
        BreakerReply::Opened { until } => Admission::Refused(Refusal::Opened { until }),
        BreakerReply::TooMany { out } => Admission::Refused(Refusal::TooMany { out }),
        BreakerReply::Counted | BreakerReply::Stale { .. } => unreachable!(),
    }
}

/// Makes an attempt that was let through, and reports it.
fn attempt<P: Operation, G: Guard, C: Clock, W: Wait>(
    rt: &W,
    limit: u64,
    generation: u64,
    guard: &mut G,
    op: &mut P,
    clock: &mut C,
) -> Turned<P::Good, P::Bad>
    requires guard { G.ready guard.old }
    requires op { P.ready op.old }
    ensures rest { MadeBoth (P.makes op.old limit) (λ answer. IsRest (G.there guard.old) generation answer result) (Runs P.did op.old op.new) (Runs G.held guard.old guard.new) (times C.Clock clock.old clock.new) }
    ensures there { G.there guard.new ≡ G.there guard.old }
    ensures shows { (count : ℕ) → result ≡ Turned.Ended (Outcome.Exhausted count) → G.shows guard.new count }
    ensures shown { (good : P.Good) → result ≡ Turned.Ended (Outcome.Good good) → P.shown op.new good }
{
    let answer = op.attempt(rt, limit, clock);
    match report::<P, G, C, W>(rt, generation, is_good(&answer), guard, clock) {
        Ok(()) => outcome_of(answer),
        Err(Exhausted { count }) => Turned::Ended(Outcome::Exhausted { count }),
    }
}

/// Whether an attempt is reported as good.
fn is_good<A, B>(answer: &Attempt<A, B>) -> bool
    ensures { result ≡ is_good answer.now }
{
    match answer {
        Attempt::Good(_) | Attempt::NoMemory => true,
        Attempt::Bad(_) => false,
    }
}

/// What a reported attempt makes of the call.
fn outcome_of<A: Drop, B: Drop>(answer: Attempt<A, B>) -> Turned<A, B>
    ensures { result ≡ turned_by answer }
{
    match answer {
        Attempt::Good(good) => Turned::Ended(Outcome::Good(good)),
        Attempt::Bad(bad) => Turned::Failed(bad),
        Attempt::NoMemory => Turned::Ended(Outcome::NoMemory),
    }
}

/// Reports an attempt of this generation to the breaker, if there is one.
fn report<P: Operation, G: Guard, C: Clock, W: Wait>(
    rt: &W,
    generation: u64,
    good: bool,
    guard: &mut G,
    clock: &mut C,
) -> Result<(), Exhausted>
    requires { G.ready guard.old }
    ensures report { Made {E = P.Own} (IsReport (G.there guard.old) generation good result) AreNone (Runs G.held guard.old guard.new) (times C.Clock clock.old clock.new) AreNone }
    ensures there { G.there guard.new ≡ G.there guard.old }
    ensures shows { IfErr result (λ e. G.shows guard.new e.count) }
{
    let there = guard.is_there();
    if !there {
        return Ok(());
    }
    let now = clock.now();
    match guard.step(
        rt,
        &BreakerCmd::Report {
            generation,
            now,
            good,
        },
    ) {
        Stepped::Answered(_) => Ok(()),
        Stepped::Exhausted { count } => Err(Exhausted { count }),
        Stepped::NoBreaker => unreachable!(),
    }
}
