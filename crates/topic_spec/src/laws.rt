//! What holds of the definitions that the contracts cite, as functions whose contract is the law.
ghost use Rattle.std.specs.Prelude.{◌≡◌, ℕ, List, [], ◌++◌, Option, Result, Ok};
ghost use Rattle.json_text.specs.Forest.{Forest};
ghost use Rattle.yaml_subset.specs.Trees.{Trees};
ghost use Rattle.resource_spec.specs.Component.{Loaded};
ghost use Rattle.rule_value.specs.Values.{Event};
ghost use Rattle.topic_spec.specs.declared.draft.Draft.{Draft};
ghost use Rattle.topic_spec.specs.declared.sub.Sub.{Sub};
ghost use Rattle.topic_spec.specs.declared.sub_err.SubErr.{SubErr};
ghost use Rattle.topic_spec.specs.Aiming.{AreSubs, aims_of, kept};
ghost use Rattle.topic_spec.specs.Documents.{all_said};
ghost use Rattle.topic_spec.specs.Laws.{AreSound, LeadToPaths, drafts_said};
ghost use Rattle.topic_spec.specs.Listed.{ListLoads};
ghost use Rattle.topic_spec.specs.Loading.{Loads};

/// What documents and an app's list come to are subscriptions that can be delivered: each has a rule or a default, its paths begin
/// with a slash, and its dead-letter topic is another one. So are those that are joined, and those that are kept.
pub fn loaded_subscriptions_are_sound()
    ensures files { (app : List ℕ) (documents : Trees) (subs : List Sub) → Loads 0 [] (all_said app 0 documents) (Ok subs) → AreSound subs }
    ensures list { (bytes : List ℕ) (values : Forest) (subs : List Sub) → ListLoads bytes values (Ok subs) → AreSound subs }
    ensures joined { (one more : List Sub) → AreSound one → AreSound more → AreSound (one ++ more) }
    ensures kept { (components : List Loaded) (app : List ℕ) (subs : List Sub) → AreSound subs → AreSound (kept components app subs) }
{}

/// The paths to which such subscriptions deliver an event begin with a slash.
pub fn aims_lead_to_paths()
    ensures { (event : Event) (pubsub topic : List ℕ) (subs : List Sub) → AreSound subs → LeadToPaths (aims_of event pubsub topic subs) }
{}

/// What is loaded are the subscriptions that were written down, in their order, as the clause of `aims` by the texts of rules asks
/// for; so it is of those that are joined.
pub fn loaded_subscriptions_are_written_down()
    ensures loaded { (doc : ℕ) (said : List (Result (Option Draft) SubErr)) (subs : List Sub) → Loads doc [] said (Ok subs) → AreSubs (drafts_said said) subs }
    ensures joined { (drafts others : List Draft) (one more : List Sub) → AreSubs drafts one → AreSubs others more → AreSubs (drafts ++ others) (one ++ more) }
{}
