ghost use Rattle.std.specs.Prelude.{◌≡◌, ◌≤◌, ◌+◌, nat_lt};
ghost use Rattle.link_call.specs.Linked.{by_status, heard};

use crate::Miss;
use policy_run::{Attempt, Operation};
use side_base::{LinkRequest, Moment, Response};
use side_world::{Clock, Link, LinkCall, LinkErr};
use std::sync::Wait;

/// The first status that is no good reply.
const FIRST_FAILING: u16 = 500;

/// A request to another program: each attempt is one call of the link, within the attempt's limit.
#[derive(Drop)]
pub struct Asking<'a, L: Link> {
    pub link: &'a mut L,
    pub request: &'a LinkRequest,
}

impl<L: Link> Operation for Asking<'_, L> {
    ghost use Rattle.std.specs.Prelude.{◌≡◌};
    ghost use Rattle.link_call.specs.LinkAt.{Holds, holds_none, holds_more, link_at};
    ghost use Rattle.link_call.specs.Linked.{Tries, tries_alike};

    type Good = Response;

    type Bad = Miss;

    type Own = LinkCall;

    ghost ready = { λ _. Unit {0} };

    ghost makes = { λ asking. Tries asking.request.now };

    ghost did = { λ a calls b. Holds a.request.now a.link.ghost_name (link_at L.Link a.link.now) calls b.request.now b.link.ghost_name (link_at L.Link b.link.now) };

    ghost shown = { λ _ _. Unit {0} };

    fn attempt<W: Wait, C: Clock>(
        &mut self,
        _rt: &W,
        limit: u64,
        clock: &mut C,
    ) -> Attempt<Response, Miss> {
        if limit == 0 {
            return heard(self.link.call(self.request, limit), false);
        }
        let before = clock.now();
        let answer = self.link.call(self.request, limit);
        let after = clock.now();
        heard(answer, is_late(before, after, limit))
    }

    ghost none = { λ a _. holds_none a.request.now a.link.ghost_name (link_at L.Link a.link.now) };

    ghost more = { λ a b c xs ys. holds_more a.request.now a.link.ghost_name (link_at L.Link a.link.now) xs b.request.now b.link.ghost_name (link_at L.Link b.link.now) ys c.request.now c.link.ghost_name (link_at L.Link c.link.now) };

    ghost stays = { λ _ _ _ _ _. tt };

    ghost alike = { λ a b xs did limit came events. tries_alike a.request.now b.request.now limit came events did.same_request };
}

/// Whether the clock moved by more than the limit.
fn is_late(before: Moment, after: Moment, limit: u64) -> bool
    requires { before ≤ after }
    ensures { result ≡ nat_lt (before + limit) after }
{
    after.ms() - before.ms() > limit
}

/// What is heard of a call: a fault of the link comes first, then an expiry, whatever the reply.
fn heard(answer: Result<Response, LinkErr>, is_late: bool) -> Attempt<Response, Miss>
    ensures { result ≡ heard answer is_late }
{
    match answer {
        Ok(response) => {
            if is_late {
                return Attempt::Bad(Miss::Expired);
            }
            by_status(response)
        }
        Err(LinkErr::Failed) => Attempt::Bad(Miss::Failed),
        Err(LinkErr::Expired) => Attempt::Bad(Miss::Expired),
        Err(LinkErr::NoMemory) => Attempt::NoMemory,
    }
}

/// What a reply in time means: below 500 it is good.
fn by_status(response: Response) -> Attempt<Response, Miss>
    ensures { result ≡ by_status response }
{
    if response.status < FIRST_FAILING {
        Attempt::Good(response)
    } else {
        Attempt::Bad(Miss::Replied(response))
    }
}
