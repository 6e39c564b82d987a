// Reads a rule by its grammar, from the left, and writes down the steps that compute it.
ghost use Rattle.std.specs.Prelude.{◌≡◌, ◌≤◌, ◌+◌, ◌-◌, ◌++◌, ℕ, true, false, List, [], ◌∷◌, length, OnOk, IfErr, suc};
ghost use Rattle.rule_value.specs.declared.part.Part.TheVariants as parts;
ghost use Rattle.rule_value.specs.declared.part.Word.TheVariants as words;
ghost use Rattle.rule_expr.specs.Parts.{part_at};
ghost use Rattle.rule_value.specs.Trees.{or, and, rel, list, items, unary, post, round, atom};
ghost use Rattle.rule_expr.specs.Places.{operand, after, open_list, list_end};
ghost use Rattle.rule_expr.specs.Reading.{Reads};
ghost use Rattle.rule_expr.specs.Walking.{Walks, Halts, HaltsOperand, HaltsItems, HaltsRound, WalksAtom, WalksOperand, WalksRound, Went, WentItems, IsRelationOver, IsAndOver, IsOrOver, IsItemsOver, is_bang};

use crate::parser::Parser;
use crate::stop::Stop;
use rule_value::{Op, Part, Word};

impl<'t> Parser<'t> {
    /// `or = and , { "||" , and }`
    #[cycle(grammar)]
    #[tactic(auto, using(crate::proofs::Producing::or_one, crate::proofs::Producing::or_more))]
    pub(crate) fn either(&mut self, room: usize) -> Result<(), Stop>
        ensures ok { OnOk result (Reads or room self.old.rest.now self.new.rest.now self.old.ops.items self.new.ops.items) }
        ensures walk { OnOk result (Went IsOrOver room self.old.rest.now self.new.rest.now) }
        ensures err { IfErr result (Halts room (operand true) self.old.rest.now) }
    {
        self.both(room)?;
        while let Part::Either = self.part() {
            self.pass();
            self.both(room)?;
            self.put(Op::Either)?;
        }
        Ok(())
    }

    /// `and = rel , { "&&" , rel }`
    #[cycle(grammar)]
    #[tactic(auto, using(crate::proofs::Producing::and_one, crate::proofs::Producing::and_more))]
    fn both(&mut self, room: usize) -> Result<(), Stop>
        ensures ok { OnOk result (Reads and room self.old.rest.now self.new.rest.now self.old.ops.items self.new.ops.items) }
        ensures walk { OnOk result (Went IsAndOver room self.old.rest.now self.new.rest.now) }
        ensures err { IfErr result (Halts room (operand true) self.old.rest.now) }
    {
        self.relation(room)?;
        while let Part::Both = self.part() {
            self.pass();
            self.relation(room)?;
            self.put(Op::Both)?;
        }
        Ok(())
    }

    /// `rel = unary , [ ( "==" | "!=" | "<=" | "<" | ">=" | ">" ) , unary | "in" , list ]`
    #[cycle(grammar)]
    #[tactic(auto, using(crate::proofs::Producing::rel_one, crate::proofs::Producing::rel_test, crate::proofs::Producing::rel_list))]
    fn relation(&mut self, room: usize) -> Result<(), Stop>
        ensures ok { OnOk result (Reads rel room self.old.rest.now self.new.rest.now self.old.ops.items self.new.ops.items) }
        ensures walk { OnOk result (Went IsRelationOver room self.old.rest.now self.new.rest.now) }
        ensures err { IfErr result (Halts room (operand true) self.old.rest.now) }
    {
        self.unary(room)?;
        match self.part() {
            Part::Test { relation } => {
                self.pass();
                self.unary(room)?;
                self.put(Op::Test { relation })
            }
            Part::Named { word } => match word {
                Word::In => {
                    self.word(Op::Begin)?;
                    self.list(room)?;
                    self.put(Op::Chosen)
                }
                _ => Ok(()),
            },
            _ => Ok(()),
        }
    }

    /// `list = "[" , [ or , { "," , or } ] , "]"`
    #[cycle(grammar)]
    #[tactic(auto, using(crate::proofs::Producing::list_some, crate::proofs::Producing::list_none))]
    fn list(&mut self, room: usize) -> Result<(), Stop>
        ensures ok { OnOk result (Reads list room self.old.rest.now self.new.rest.now self.old.ops.items self.new.ops.items) }
        ensures walk { OnOk result (Walks room open_list self.old.rest.now (after false list_end) self.new.rest.now) }
        ensures err { IfErr result (Halts room open_list self.old.rest.now) }
    {
        self.open_square(room)?;
        match self.part() {
            Part::CloseList => self.close_square(),
            _ => {
                self.items(room - 1)?;
                self.close_square()
            }
        }
    }

    // `or , { "," , or }`
    #[cycle(grammar)]
    #[tactic(auto, using(crate::proofs::Producing::item_one, crate::proofs::Producing::item_more))]
    fn items(&mut self, room: usize) -> Result<(), Stop>
        ensures ok { OnOk result (Reads items room self.old.rest.now self.new.rest.now self.old.ops.items self.new.ops.items) }
        ensures walk { OnOk result (WentItems IsItemsOver room self.old.rest.now self.new.rest.now) }
        ensures err { IfErr result (HaltsItems room self.old.rest.now) }
    {
        self.either(room)?;
        self.put(Op::Item)?;
        while let Part::Comma = self.part() {
            self.pass();
            self.either(room)?;
            self.put(Op::Item)?;
        }
        Ok(())
    }

    /// `unary = { "!" } , post`
    #[cycle(grammar)]
    #[tactic(auto, using(crate::proofs::Producing::bangs_more, crate::proofs::Producing::unary_some, crate::proofs::Producing::nots_more))]
    fn unary(&mut self, room: usize) -> Result<(), Stop>
        ensures ok { OnOk result (Reads unary room self.old.rest.now self.new.rest.now self.old.ops.items self.new.ops.items) }
        ensures walk { OnOk result (WalksOperand room self.old.rest.now self.new.rest.now) }
        ensures err { IfErr result (HaltsOperand room self.old.rest.now) }
    {
        let mut count = 0u64;
        while let Part::Bang = self.part() {
            self.pass();
            count += 1;
        }
        self.post(room)?;
        for _ in 0..count {
            self.put(Op::Not)?;
        }
        Ok(())
    }

    /// `post = atom , { "." , ( "startsWith" | "endsWith" | "contains" ) , "(" , or , ")" }`
    #[cycle(grammar)]
    #[tactic(auto, using(crate::proofs::Producing::post_one, crate::proofs::Producing::post_more))]
    fn post(&mut self, room: usize) -> Result<(), Stop>
        requires { is_bang (part_at self.old.rest.now) ≡ false }
        ensures ok { OnOk result (Reads post room self.old.rest.now self.new.rest.now self.old.ops.items self.new.ops.items) }
        ensures walk { OnOk result (WalksOperand room self.old.rest.now self.new.rest.now) }
        ensures err { IfErr result (HaltsOperand room self.old.rest.now) }
    {
        self.atom(room)?;
        while let Part::Dot = self.part() {
            self.pass();
            match self.part() {
                Part::Named { word } => match word {
                    Word::Call { call } => {
                        self.pass();
                        self.round(room)?;
                        self.put(Op::Called { call })?;
                    }
                    _ => return Err(self.refused(true)),
                },
                _ => return Err(self.refused(true)),
            }
        }
        Ok(())
    }

    // `"(" , or , ")"`
    #[cycle(grammar)]
    #[tactic(auto, using(crate::proofs::Producing::round_one))]
    fn round(&mut self, room: usize) -> Result<(), Stop>
        ensures ok { OnOk result (Reads round room self.old.rest.now self.new.rest.now self.old.ops.items self.new.ops.items) }
        ensures walk { OnOk result (WalksRound room self.old.rest.now self.new.rest.now) }
        ensures err { IfErr result (HaltsRound room self.old.rest.now) }
    {
        self.open_round(room)?;
        self.either(room - 1)?;
        self.close_round()
    }

    /// `atom = "(" , or , ")" | text | int | "true" | "false" | "null" | path | "has" , "(" , path , ")" | "int" , "(" , or , ")"`
    #[cycle(grammar)]
    #[tactic(auto, using(crate::proofs::Producing::group_one, crate::proofs::Producing::text_one, crate::proofs::Producing::whole_one))]
    fn atom(&mut self, room: usize) -> Result<(), Stop>
        requires { is_bang (part_at self.old.rest.now) ≡ false }
        ensures ok { OnOk result (Reads atom room self.old.rest.now self.new.rest.now self.old.ops.items self.new.ops.items) }
        ensures walk { OnOk result (WalksAtom room self.old.rest.now self.new.rest.now) }
        ensures err { IfErr result (HaltsOperand room self.old.rest.now) }
    {
        match self.part() {
            Part::Open => self.round(room),
            Part::Quote => {
                let text = self.text()?;
                self.put(Op::Text { text })
            }
            Part::Number { whole } => self.word(Op::Number { whole }),
            Part::Named { word } => self.named(word, room),
            _ => Err(self.refused(true)),
        }
    }

    // An atom that begins with a name.
    #[cycle(grammar)]
    #[tactic(auto, using(crate::proofs::Producing::true_one, crate::proofs::Producing::false_one, crate::proofs::Producing::null_one, crate::proofs::Producing::int_one))]
    fn named(&mut self, word: Word, room: usize) -> Result<(), Stop>
        requires { part_at self.old.rest.now ≡ parts.Named word }
        ensures ok { OnOk result (Reads atom room self.old.rest.now self.new.rest.now self.old.ops.items self.new.ops.items) }
        ensures walk { OnOk result (WalksAtom room self.old.rest.now self.new.rest.now) }
        ensures err { IfErr result (HaltsOperand room self.old.rest.now) }
    {
        match word {
            Word::Event => self.member(room),
            Word::True => self.word(Op::Flag { on: true }),
            Word::False => self.word(Op::Flag { on: false }),
            Word::Null => self.word(Op::Null),
            Word::Has => self.has(room),
            Word::Int => {
                self.pass();
                self.round(room)?;
                self.put(Op::ToInt)
            }
            Word::In => Err(self.refused(true)),
            Word::Call { call: _ } => Err(self.refused(true)),
            Word::Other => Err(self.refused(true)),
        }
    }

    // A path.
    #[tactic(auto, using(crate::proofs::Producing::member_one))]
    fn member(&mut self, room: usize) -> Result<(), Stop>
        requires { part_at self.old.rest.now ≡ parts.Named words.Event }
        ensures ok { OnOk result (Reads atom room self.old.rest.now self.new.rest.now self.old.ops.items self.new.ops.items) }
        ensures walk { OnOk result (WalksAtom room self.old.rest.now self.new.rest.now) }
        ensures err { IfErr result (HaltsOperand room self.old.rest.now) }
    {
        self.pass();
        let path = self.steps(false)?;
        self.put(Op::Member { path })
    }

    // `has`, and a path in brackets.
    #[tactic(auto, using(crate::proofs::Producing::has_one))]
    fn has(&mut self, room: usize) -> Result<(), Stop>
        requires { part_at self.old.rest.now ≡ parts.Named words.Has }
        ensures ok { OnOk result (Reads atom room self.old.rest.now self.new.rest.now self.old.ops.items self.new.ops.items) }
        ensures walk { OnOk result (WalksAtom room self.old.rest.now self.new.rest.now) }
        ensures err { IfErr result (HaltsOperand room self.old.rest.now) }
    {
        self.pass();
        self.open_round(room)?;
        self.event()?;
        let path = self.steps(true)?;
        self.close_round()?;
        self.put(Op::Has { path })
    }
}
