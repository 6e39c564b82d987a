ghost use Rattle.sidecar_objects.specs.Did.{Standing};
ghost use Rattle.state_core.specs.declared.store.Store.{Store as StoreRecord};

use crate::due::{Due, set, take};
use crate::ending::{served_of, turned_of};
use crate::serving::Serving;
use crate::telling::{did_something, next_due};
use keeper_core::Keeper;
use rand_core::Rng;
use side_world::{Accepted, Acceptor, Clock, Link};
use sidecar_core::{ObjectKinds, idle_turn, serve_connection};
use sidecar_workers::{Got, Served, Turned, Work, after_serve, after_turn};
use state_core::Store;
use std::sync::Wait;

impl<K: Keeper, A: Acceptor, L: Link, C: Clock, R: Rng> Work for Serving<'_, K, A, L, C, R> {
    ghost use Rattle.std.specs.Prelude.{◌≡◌, is_some, None};
    ghost use Rattle.std.proofs.Common.{◌∙◌, refl};
    ghost use Rattle.sidecar_objects.specs.Pass.{cells_of, standing};
    ghost use Rattle.sidecar_serving.specs.Worker.{HasDone, HasExit, owed_of, IsNewDue};

    ghost owes = { λ w. owed_of w.due };

    ghost is_over = { λ w. is_some w.exit };

    ghost keeps = { λ x y. (y.shared.now ≡ x.shared.now) × ((start : Standing (StoreRecord K K.Keeper)) → HasDone x.shared.now.config ⟦<Store<K> as ObjectKinds>⟧.kinds (cells_of x.shared.now.objects) start (owed_of x.due) (IsNewDue A.From.Source A.Into.Sink x.due) (record { at = standing L.Link C.Clock x.pass x.link x.clock (R.stream x.rng); told = A.told x.acceptor; exit = x.exit }) → HasDone y.shared.now.config ⟦<Store<K> as ObjectKinds>⟧.kinds (cells_of y.shared.now.objects) start (owed_of y.due) (IsNewDue A.From.Source A.Into.Sink y.due) (record { at = standing L.Link C.Clock y.pass y.link y.clock (R.stream y.rng); told = A.told y.acceptor; exit = y.exit })) };

    ghost exits = { λ e w. HasExit e (A.told w.acceptor) (A.faults w.acceptor) w.exit };

    ghost calls = { λ _. None };

    fn accept<W: Wait>(&mut self, _rt: &W) -> Got {
        match self.acceptor.accept() {
            Accepted::Conn { source, sink } => {
                set(&mut self.due, Due::Serve { source, sink });
                Got::Conn
            }
            Accepted::Idle => {
                set(&mut self.due, Due::Turn);
                Got::Idle
            }
            Accepted::Closed => Got::Closed,
            Accepted::Failed => {
                self.acceptor.leave();
                Got::Failed
            }
        }
    }

    fn serve<W: Wait>(&mut self, rt: &W) -> Served {
        match take(&mut self.due) {
            Due::Serve {
                mut source,
                mut sink,
            } => {
                let ended = serve_connection(
                    rt,
                    self.shared,
                    &mut self.pass,
                    &mut self.buffers,
                    &mut source,
                    &mut sink,
                    &mut self.link,
                    &mut self.clock,
                    &mut self.rng,
                );
                self.acceptor.end(source, sink);
                let served = served_of(ended);
                self.exit = after_serve(served);
                if self.exit.is_some() {
                    self.acceptor.leave();
                    return served;
                }
                if self.shared.config.app_port.is_some() {
                    self.acceptor.wake();
                }
                served
            }
            Due::Nothing | Due::Turn => unreachable!(),
        }
    }

    fn turn<W: Wait>(&mut self, rt: &W) -> Turned {
        match take(&mut self.due) {
            Due::Turn => {
                let turn = idle_turn(
                    rt,
                    self.shared,
                    &mut self.pass,
                    &mut self.link,
                    &mut self.clock,
                    &mut self.rng,
                );
                let turned = turned_of(&turn);
                self.exit = after_turn(turned);
                if self.exit.is_some() {
                    self.acceptor.leave();
                    return turned;
                }
                if did_something(&turn) {
                    self.acceptor.wake();
                    return turned;
                }
                self.acceptor.due(next_due(&turn));
                turned
            }
            Due::Nothing | Due::Serve { .. } => unreachable!(),
        }
    }

    ghost stays = { λ x. (refl, λ start done. done) };

    ghost chains = { λ x y z first second. (second.0 ∙ first.0, λ start done. second.1 start (first.1 start done)) };
}
