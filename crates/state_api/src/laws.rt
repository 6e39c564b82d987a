//! What holds of the definitions that the contracts cite, as functions whose contract is the law.
ghost use Rattle.std.specs.Prelude.{◌≡◌, ◌<◌, All, List, ℕ, length, Result};
ghost use Rattle.side_base.specs.declared.message.Request.{Request};
ghost use Rattle.api_routes.specs.declared.route.Route.{Route};
ghost use Rattle.state_core.specs.declared.command.Prefix.{Prefix};
ghost use Rattle.state_core.specs.declared.command.Cmd.{Cmd};
ghost use Rattle.state_api.specs.declared.what.What.{What};
ghost use Rattle.state_api.specs.declared.what.What.TheVariants.{TooMany};
ghost use Rattle.state_api.specs.declared.raw.RawItem.{RawItem};
ghost use Rattle.state_core.specs.declared.command.Item.{Item};
ghost use Rattle.state_core.specs.declared.command.Op.{Op};
ghost use Rattle.state_api.specs.declared.running.Ran.{Ran};
ghost use Rattle.state_api.specs.Moment.{IsSame};
ghost use Rattle.state_api.specs.Ran.{IsAnswer};
ghost use Rattle.state_api.specs.Response.{IsCut, response_of};
ghost use Rattle.state_api.specs.Asked.{Asks, AsksActor};
ghost use Rattle.state_api.specs.Laws.{AreKeyed, AsksSave, AsksTransaction, HasItems, IsFaultySave, IsNestedOp, IsOfWords, RefusesSave, SavesFineItems};

use json_text::laws::a_text_has_one_tree;

/// A request of a route means one command, or is malformed in one way: so a command is told exactly where it is the one that the
/// request means, and each fault exactly where it is the first, unless memory runs out.
pub fn a_request_means_one_answer()
    ensures { (prefix : Prefix) (request : Request) (route : Route) (one other : Result Cmd What) → Asks prefix request route one → Asks prefix request route other → one ≡ other }
{
    a_text_has_one_tree();
}

/// So does a request of the state of actors, of an app's.
pub fn an_actors_request_means_one_answer()
    ensures { (app : List ℕ) (request : Request) (route : Route) (one other : Result Cmd What) → AsksActor app request route one → AsksActor app request route other → one ≡ other }
{
    a_text_has_one_tree();
}

/// The response does not depend on the moment at which a command is given, nor does what it may be answered.
pub fn the_moment_changes_no_response()
    ensures response { (cmd after : Cmd) (ran : Ran) → IsSame cmd after → response_of after ran ≡ response_of cmd ran }
    ensures answer { (cmd after : Cmd) (ran : Ran) → IsSame cmd after → IsAnswer cmd ran → IsAnswer after ran }
    ensures cut { (cmd after : Cmd) → IsSame cmd after → IsCut cmd → IsCut after }
{}

/// A save that a request means has at most 1,024 items, and each has a key of 1 to 1,024 bytes without `||`, behind what the prefix puts
/// before it.
pub fn a_save_has_few_keyed_items()
    ensures { (prefix : Prefix) (request : Request) (store : List ℕ) (items : List Item) → AsksSave prefix request store items → AreKeyed prefix items }
{}

/// A save that is malformed in an item's words, and in nothing that is tested before, has at most 1,024 items, and is refused for
/// the first that has a fault: for its key, or else its concurrency, or else its time to live.
pub fn a_save_is_refused_for_its_first_faulty_item()
    ensures { (prefix : Prefix) (request : Request) (store : List ℕ) (what : What) → IsOfWords what → RefusesSave prefix request store what → IsFaultySave request what }
{}

/// The other way round: a save of at most 1,024 items in whose words nothing is wrong is a command, which stores these items in their
/// order; where an item has a fault, that of the first such item refuses the save; and more items than 1,024 refuse it, whatever their
/// words are.
pub fn a_save_is_refused_for_its_items_alone()
    ensures fine { (prefix : Prefix) (request : Request) (store : List ℕ) (raws : List RawItem) → SavesFineItems prefix request store raws }
    ensures faulty { (prefix : Prefix) (request : Request) (store : List ℕ) (what : What) → IsFaultySave request what → RefusesSave prefix request store what }
    ensures many { (prefix : Prefix) (request : Request) (store : List ℕ) (raws : List RawItem) → HasItems request raws → 1024 < length raws → RefusesSave prefix request store TooMany }
{}

/// A transaction that a request means has values that are JSON texts by themselves, in which at most 60 lists and maps stand within
/// one another: a body has at most 64 of them, and the map, its list, the operation and its request stand round each value.
pub fn a_transaction_has_values_nested_60_deep()
    ensures { (prefix : Prefix) (request : Request) (store : List ℕ) (ops : List Op) → AsksTransaction prefix request store ops → All (IsNestedOp 60) ops }
{}
