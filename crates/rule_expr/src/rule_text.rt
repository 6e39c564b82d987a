ghost use Rattle.std.specs.Prelude.{◌≢◌, IfOk, IfErr};
ghost use Rattle.rule_expr.specs.declared.error.RuleErr.TheVariants.{NoMemory};
ghost use Rattle.rule_value.specs.Codes.{IsExpr};
ghost use Rattle.rule_expr.specs.Rules.{IsRule};
ghost use Rattle.rule_value.specs.Trees.{Tree, or};
ghost use Rattle.rule_expr.specs.Walks.{IsRefused};

use crate::error::RuleErr;
use crate::parser::Parser;
use crate::stop::error_at;
use rule_value::Expr;
use std::alloc::Global;

/// Reads a rule, in which at most 32 brackets stand within one another. A refusal is of the first place where the text leaves the
/// grammar.
#[tactic(auto, using(crate::proofs::Producing::ruled, crate::proofs::Producing::ruled_fits, crate::proofs::Texts::ruled_utf8))]
pub fn parse(alloc: Global, text: &str) -> Result<Expr, RuleErr>
    ensures ok { IfOk result (λ expr. (tree : Tree or) × IsRule text.now tree × IsExpr expr.ops.items tree) }
    ensures err { IfErr result (λ why. why ≢ NoMemory → IsRefused text.now why) }
{
    let mut parser = Parser::new(alloc, text.as_bytes());
    match parser.either(32) {
        Ok(()) => {}
        Err(stop) => return Err(error_at(text.len(), stop)),
    }
    match parser.finish() {
        Ok(ops) => Ok(Expr::new(ops)),
        Err(stop) => Err(error_at(text.len(), stop)),
    }
}
