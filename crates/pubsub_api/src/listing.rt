//! The subscriptions that an app lists.
ghost use Rattle.std.specs.Prelude.{◌≡◌};
ghost use Rattle.topic_spec.specs.Loading.{IsLoad};
ghost use Rattle.pubsub_api.specs.Listing.{IsList, IsSaid, unlisted};

use json_text::laws::the_root_is_the_value_of_the_text;
use json_text::{JsonErr, read};
use side_base::{Response, Text};
use std::alloc::Global;
use topic_spec::{SubErr, Subs, app_list};

/// The subscriptions that an app's reply to the question for them says: those of the list that a reply of 200 holds, none where
/// it holds nothing, and none of any other status, whatever its body is. A body that is no JSON list is `Wrong` with the field
/// `list`.
pub fn app_subscriptions(alloc: Global, reply: &Response) -> Result<Subs, SubErr>
    ensures { IsLoad (IsSaid reply.now) result }
{
    if reply.status != 200 {
        return Ok(Subs::new(alloc));
    }
    listed(alloc, reply.body.bytes())
}

/// The subscriptions of a body.
fn listed(alloc: Global, body: &[u8]) -> Result<Subs, SubErr>
    ensures { IsLoad (IsList body.now) result }
{
    if body.is_empty() {
        return Ok(Subs::new(alloc));
    }
    the_root_is_the_value_of_the_text();
    match read(alloc, body) {
        Ok(doc) => app_list(alloc, &doc),
        Err(error) => Err(unlisted(alloc, error)),
    }
}

/// Why a body that is no JSON text is no list.
fn unlisted(alloc: Global, error: JsonErr) -> SubErr
    ensures { result ≡ unlisted error }
{
    match error {
        JsonErr::Bad { .. } | JsonErr::Deep { .. } => SubErr::Wrong {
            doc: 0,
            field: Text::from_static(alloc, "list"),
        },
        JsonErr::NoMemory => SubErr::NoMemory,
    }
}
