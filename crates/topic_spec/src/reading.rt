//! The rules of subscriptions, read.
ghost use Rattle.topic_spec.specs.Reading.{AreRules, IsReading, IsReadAs, IsRefusal, IsSub};

use crate::draft::{Draft, RuleTexts};
use crate::sub::{Rule, Rules, Sub};
use crate::sub_err::SubErr;
use rule_expr::{Expr, RuleErr, parse};
use side_base::{Sequence, Text};
use std::alloc::Global;

// The refusal of a rule, in the document of this number.
fn rule_refused(doc: usize, why: RuleErr) -> SubErr
    ensures { IsRefusal doc why result }
{
    match why {
        RuleErr::Bad { at } => SubErr::Rule { doc, at },
        RuleErr::LeftOut { at } => SubErr::Rule { doc, at },
        RuleErr::Deep { at } => SubErr::Rule { doc, at },
        RuleErr::NoMemory => SubErr::NoMemory,
    }
}

// The expression that a text is.
fn expr_of(alloc: Global, doc: usize, text: &Text) -> Result<Expr, SubErr>
    ensures { IsReadAs doc text.now result }
{
    match parse(alloc, text.as_str()) {
        Ok(expr) => Ok(expr),
        Err(why) => Err(rule_refused(doc, why)),
    }
}

// The rules that the texts are, in their order.
fn rules_of(alloc: Global, doc: usize, mut texts: RuleTexts) -> Result<Rules, SubErr>
    ensures { IsReading doc texts (AreRules texts) result }
{
    let mut rules = Sequence::new(alloc);
    while let Some(text) = texts.take_first() {
        let expr = match expr_of(alloc, doc, &text.condition) {
            Ok(expr) => expr,
            Err(error) => return Err(error),
        };
        match rules.push(Rule {
            expr,
            path: text.path,
        }) {
            Ok(()) => {}
            Err(_) => return Err(SubErr::NoMemory),
        }
    }
    Ok(rules)
}

/// The subscription that a draft of the document of this number is.
pub(crate) fn sub_of(alloc: Global, doc: usize, draft: Draft) -> Result<Sub, SubErr>
    ensures { IsReading doc draft.rules (IsSub draft) result }
{
    match rules_of(alloc, doc, draft.rules) {
        Ok(rules) => Ok(Sub {
            pubsub: draft.pubsub,
            topic: draft.topic,
            rules,
            default: draft.default,
            dead: draft.dead,
        }),
        Err(error) => Err(error),
    }
}
