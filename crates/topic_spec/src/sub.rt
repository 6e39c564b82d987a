ghost use Rattle.std.specs.Prelude.{◌≡◌, ◌<◌, ◌≤◌, [], ◌∷◌, ◌++◌, ◌+◌, length, slice_index_or, OnOk, OnErr};

use rule_expr::Expr;
use side_base::{NoMemory, Sequence, Text};
use std::alloc::Global;
use std::marker::Model;

/// A rule of a subscription: the path is taken where the expression answers yes.
#[derive(Drop)]
pub struct Rule {
    pub expr: Expr,
    pub path: Text,
}

/// A list of rules, in the order in which they are tried.
pub type Rules = Sequence<Rule>;

/// A subscription to a topic of a pub/sub component.
#[derive(Drop)]
pub struct Sub {
    /// The name of the component.
    pub pubsub: Text,
    /// The topic.
    pub topic: Text,
    /// Its rules.
    pub rules: Rules,
    /// The path where no rule answers yes.
    pub default: Option<Text>,
    /// The topic to which go messages whose delivery is given up; another one than its own.
    pub dead: Option<Text>,
}

/// Subscriptions, in the order of their documents: at most 256. Contracts see them as a list.
#[derive(Drop)]
pub struct Subs {
    pub(crate) list: Vec<Sub>,
}

impl Model for Subs {
    ghost use Rattle.std.specs.Prelude.{◌≤◌, List, length};
    ghost use Rattle.topic_spec.specs.declared.sub.Sub.{Sub};

    ghost Value = { List Sub };

    ghost view = { λ s. s.list.items };

    ghost invariant = { λ s. length s.list.items ≤ 256 };
}

impl Subs {
    /// No subscriptions; takes no memory.
    pub fn new(alloc: Global) -> Subs
        ensures { result ≡ [] }
    {
        Subs {
            list: Vec::new(alloc),
        }
    }

    /// Adds a subscription at the end; without memory nothing changes.
    pub(crate) fn push(&mut self, sub: Sub) -> Result<(), NoMemory>
        requires { length self.old < 256 }
        ensures ok { OnOk result (self.new ≡ self.old ++ sub ∷ []) }
        ensures err { OnErr result (self.new ≡ self.old) }
    {
        self.list.push(sub)?;
        Ok(())
    }

    /// Adds subscriptions at the end, in their order; without memory nothing changes.
    pub(crate) fn append(&mut self, more: Subs) -> Result<(), NoMemory>
        requires { length self.old + length more ≤ 256 }
        ensures ok { OnOk result (self.new ≡ self.old ++ more) }
        ensures err { OnErr result (self.new ≡ self.old) }
    {
        let mut others = more.list;
        self.list.append(&mut others)?;
        Ok(())
    }

    /// The number of subscriptions.
    pub fn len(&self) -> usize
        ensures exact { result ≡ length self.now }
        ensures within { result ≤ 256 }
    {
        self.list.len()
    }

    /// The subscription at this place, counted from 0.
    pub fn at(&self, place: usize) -> &Sub
        requires { place < length self.now }
        ensures { result.now ≡ slice_index_or self.now place result.now }
    {
        &self.list[place]
    }
}
