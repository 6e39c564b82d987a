// What is left of a rule, and the parts that are read from its left.
ghost use Rattle.std.specs.Prelude.{◌≡◌, ◌≢◌, ◌<◌, ◌≤◌, ◌++◌, ◌&&◌, not, ℕ, Bool, true, false, List, [], ◌∷◌, length, OnOk, IfOk, IfErr};
ghost use Rattle.rule_value.specs.declared.part.Part.TheVariants as parts;
ghost use Rattle.rule_value.specs.declared.part.Word.TheVariants as words;
ghost use Rattle.rule_expr.specs.declared.stop.Stop.TheVariants as stops;
ghost use Rattle.rule_expr.specs.Parts.{after_blanks, behind, part_at};
ghost use Rattle.rule_value.specs.Trees.{mark, name, quote};
ghost use Rattle.rule_expr.specs.Places.{dot_path, bracketed, why_not, is_open, is_close};
ghost use Rattle.rule_expr.specs.Reading.{Passes, ReadsStep, ReadsSteps};
ghost use Rattle.rule_expr.specs.Walking.{HaltsSteps, HaltsHome, WalksHome, WalksSteps, NoRound, NoSquare, Lacks, Breaks, is_end, is_close_round, is_event, is_call, is_called, begins_call, goes_on};

use crate::place::why_not;
use crate::quotes::{Quoted, text_in_quotes};
use crate::seen::{after_blanks, behind, name_at, part_at};
use crate::stop::Stop;
use rule_value::{Op, Part, Path, Word};
use side_base::Blob;
use std::alloc::Global;

/// What is left of a rule, and the steps that compute what was read.
#[derive(Drop)]
pub(crate) struct Parser<'t> {
    alloc: Global,
    rest: &'t [u8],
    ops: Vec<Op>,
}

impl<'t> Parser<'t> {
    /// A rule of which nothing was read yet.
    pub(crate) fn new(alloc: Global, text: &'t [u8]) -> Parser<'t>
        ensures rest { result.rest.now ≡ after_blanks text.now }
        ensures ops { result.ops.items ≡ [] }
    {
        Parser {
            alloc,
            rest: after_blanks(text),
            ops: Vec::new(alloc),
        }
    }

    /// What stands next.
    pub(crate) fn part(&self) -> Part
        ensures { result ≡ part_at self.now.rest.now }
    {
        part_at(self.rest)
    }

    /// Passes what stands next.
    pub(crate) fn pass(&mut self)
        ensures rest { self.new.rest.now ≡ behind self.old.rest.now }
        ensures ops { self.new.ops.items ≡ self.old.ops.items }
        ensures shorter { self.old.rest.now ≢ [] → length self.new.rest.now < length self.old.rest.now }
        ensures most { length self.new.rest.now ≤ length self.old.rest.now }
    {
        self.rest = behind(self.rest);
    }

    /// Why the grammar has no more of what stands next. `named` is whether a name may stand there.
    pub(crate) fn refused(&self, named: bool) -> Stop
        ensures { result ≡ why_not named (part_at self.now.rest.now) (length self.now.rest.now) }
    {
        why_not(self.rest, named)
    }

    /// The steps of a rule of which all was read.
    pub(crate) fn finish(self) -> Result<Vec<Op>, Stop>
        ensures ok { IfOk result (λ ops. (ops.items ≡ self.entry.ops.items) × (part_at self.entry.rest.now ≡ parts.End)) }
        ensures err { IfErr result (Lacks is_end false self.entry.rest.now) }
    {
        match self.part() {
            Part::End => Ok(self.ops),
            _ => Err(self.refused(false)),
        }
    }

    pub(crate) fn put(&mut self, op: Op) -> Result<(), Stop>
        ensures rest { self.new.rest.now ≡ self.old.rest.now }
        ensures ops { OnOk result (self.new.ops.items ≡ self.old.ops.items ++ op ∷ []) }
        ensures err { IfErr result (λ why. why ≡ stops.NoMemory) }
    {
        match self.ops.push(op) {
            Ok(_) => Ok(()),
            Err(_) => Err(Stop::NoMemory),
        }
    }

    /// Passes what stands next, which is computed by one step.
    pub(crate) fn word(&mut self, op: Op) -> Result<(), Stop>
        ensures rest { self.new.rest.now ≡ behind self.old.rest.now }
        ensures shorter { length self.new.rest.now ≤ length self.old.rest.now }
        ensures ops { OnOk result (self.new.ops.items ≡ self.old.ops.items ++ op ∷ []) }
        ensures err { IfErr result (λ why. why ≡ stops.NoMemory) }
    {
        self.pass();
        self.put(op)
    }

    // Passes a bracket that stands next, where one more may be open.
    fn open(&mut self, room: usize) -> Result<(), Stop>
        ensures rest { OnOk result (self.new.rest.now ≡ behind self.old.rest.now) }
        ensures ops { OnOk result (self.new.ops.items ≡ self.old.ops.items) }
        ensures room { OnOk result (1 ≤ room) }
        ensures shorter { OnOk result (length self.new.rest.now ≤ length self.old.rest.now) }
        ensures err { IfErr result (λ why. (room ≡ 0) × (why ≡ stops.Deep (length self.old.rest.now))) }
    {
        if room == 0 {
            return Err(Stop::Deep {
                left: self.rest.len(),
            });
        }
        self.pass();
        Ok(())
    }

    /// Passes `(`.
    #[tactic(auto, using(crate::proofs::Producing::passed))]
    pub(crate) fn open_round(&mut self, room: usize) -> Result<(), Stop>
        ensures ok { OnOk result (Passes (mark parts.Open ∷ []) self.old.rest.now self.new.rest.now) }
        ensures ops { OnOk result (self.new.ops.items ≡ self.old.ops.items) }
        ensures room { OnOk result (1 ≤ room) }
        ensures err { IfErr result (NoRound room self.old.rest.now) }
    {
        match self.part() {
            Part::Open => self.open(room),
            _ => Err(self.refused(false)),
        }
    }

    /// Passes `)`.
    #[tactic(auto, using(crate::proofs::Producing::passed))]
    pub(crate) fn close_round(&mut self) -> Result<(), Stop>
        ensures ok { OnOk result (Passes (mark parts.Close ∷ []) self.old.rest.now self.new.rest.now) }
        ensures ops { OnOk result (self.new.ops.items ≡ self.old.ops.items) }
        ensures err { IfErr result (Lacks is_close_round false self.old.rest.now) }
    {
        match self.part() {
            Part::Close => {
                self.pass();
                Ok(())
            }
            _ => Err(self.refused(false)),
        }
    }

    /// Passes `[` of a list.
    #[tactic(auto, using(crate::proofs::Producing::passed))]
    pub(crate) fn open_square(&mut self, room: usize) -> Result<(), Stop>
        ensures ok { OnOk result (Passes (mark parts.OpenList ∷ []) self.old.rest.now self.new.rest.now) }
        ensures ops { OnOk result (self.new.ops.items ≡ self.old.ops.items) }
        ensures room { OnOk result (1 ≤ room) }
        ensures err { IfErr result (NoSquare room self.old.rest.now) }
    {
        match self.part() {
            Part::OpenList => self.open(room),
            _ => Err(self.refused(false)),
        }
    }

    /// Passes `]`.
    #[tactic(auto, using(crate::proofs::Producing::passed))]
    pub(crate) fn close_square(&mut self) -> Result<(), Stop>
        ensures ok { OnOk result (Passes (mark parts.CloseList ∷ []) self.old.rest.now self.new.rest.now) }
        ensures ops { OnOk result (self.new.ops.items ≡ self.old.ops.items) }
        ensures err { IfErr result (Lacks is_close false self.old.rest.now) }
    {
        match self.part() {
            Part::CloseList => {
                self.pass();
                Ok(())
            }
            _ => Err(self.refused(false)),
        }
    }

    /// A text in quotes.
    #[tactic(auto, using(crate::proofs::Producing::quote_passed))]
    pub(crate) fn text(&mut self) -> Result<Blob, Stop>
        requires { part_at self.old.rest.now ≡ parts.Quote }
        ensures ok { IfOk result (λ text. Passes (quote text ∷ []) self.old.rest.now self.new.rest.now) }
        ensures ops { self.new.ops.items ≡ self.old.ops.items }
        ensures err { IfErr result (Breaks self.old.rest.now) }
    {
        match text_in_quotes(self.alloc, self.rest) {
            Ok(Quoted::Whole(text, rest)) => {
                self.rest = after_blanks(rest);
                Ok(text)
            }
            Ok(Quoted::Broken(place)) => Err(Stop::Bad { left: place.len() }),
            Err(_) => Err(Stop::NoMemory),
        }
    }

    /// Passes `event`.
    #[tactic(auto, using(crate::proofs::Producing::passed))]
    pub(crate) fn event(&mut self) -> Result<(), Stop>
        ensures ok { OnOk result (Passes (mark (parts.Named words.Event) ∷ []) self.old.rest.now self.new.rest.now) }
        ensures ops { OnOk result (self.new.ops.items ≡ self.old.ops.items) }
        ensures err { IfErr result (Lacks is_event true self.old.rest.now) }
    {
        match self.part() {
            Part::Named { word } => match word {
                Word::Event => {
                    self.pass();
                    Ok(())
                }
                _ => Err(self.refused(true)),
            },
            _ => Err(self.refused(true)),
        }
    }

    /// The steps of a path. In `has` it isn't followed by a call.
    #[tactic(auto, using(crate::proofs::Producing::no_steps, crate::proofs::Producing::more_steps))]
    pub(crate) fn steps(&mut self, in_has: bool) -> Result<Path, Stop>
        ensures ok { IfOk result (λ path. ReadsSteps self.old.rest.now self.new.rest.now path) }
        ensures ops { IfOk result (λ path. self.new.ops.items ≡ self.old.ops.items) }
        ensures walk { IfOk result (λ path. WalksSteps in_has self.old.rest.now self.new.rest.now × (goes_on in_has self.new.rest.now ≡ false)) }
        ensures err { IfErr result (HaltsSteps in_has self.old.rest.now) }
    {
        let mut path = Path::new(self.alloc);
        while goes_on(self.rest, in_has) {
            let name = self.step()?;
            add(&mut path, name)?;
        }
        Ok(path)
    }

    // The next step of a path.
    #[tactic(auto, using(crate::proofs::Producing::dotted_step, crate::proofs::Producing::quoted_step))]
    fn step(&mut self) -> Result<Blob, Stop>
        ensures ok { IfOk result (λ name. ReadsStep self.old.rest.now self.new.rest.now name) }
        ensures shorter { IfOk result (λ name. length self.new.rest.now < length self.old.rest.now) }
        ensures ops { IfOk result (λ name. self.new.ops.items ≡ self.old.ops.items) }
        ensures walk { IfOk result (λ name. (in_has : Bool) → goes_on in_has self.old.rest.now ≡ true → WalksSteps in_has self.old.rest.now self.new.rest.now) }
        ensures err { IfErr result (λ why. (in_has : Bool) → goes_on in_has self.old.rest.now ≡ true → HaltsSteps in_has self.old.rest.now why) }
    {
        match self.part() {
            Part::Dot => {
                self.pass();
                self.name()
            }
            Part::OpenList => {
                self.pass();
                self.bracketed()
            }
            _ => Err(self.refused(false)),
        }
    }

    // The name of a member.
    #[tactic(auto, using(crate::proofs::Producing::name_passed))]
    fn name(&mut self) -> Result<Blob, Stop>
        ensures ok { IfOk result (λ letters. Passes (name letters ∷ []) self.old.rest.now self.new.rest.now) }
        ensures ops { self.new.ops.items ≡ self.old.ops.items }
        ensures walk { IfOk result (λ letters. (in_has : Bool) → begins_call in_has self.old.rest.now ≡ false → WalksHome dot_path in_has self.old.rest.now self.new.rest.now) }
        ensures err { IfErr result (λ why. (in_has : Bool) → begins_call in_has self.old.rest.now ≡ false → HaltsHome dot_path in_has self.old.rest.now why) }
    {
        match self.part() {
            Part::Named { word } => {
                if is_left_out_call(word, behind(self.rest)) {
                    return Err(self.refused(true));
                }
                let name = name_at(self.rest);
                self.pass();
                match Blob::from_bytes(self.alloc, name) {
                    Ok(name) => Ok(name),
                    Err(_) => Err(Stop::NoMemory),
                }
            }
            _ => Err(self.refused(false)),
        }
    }

    // A name in quotes, and the bracket behind it.
    #[tactic(auto, using(crate::proofs::Producing::passes_on))]
    fn bracketed(&mut self) -> Result<Blob, Stop>
        ensures ok { IfOk result (λ held. Passes (quote held ∷ mark parts.CloseList ∷ []) self.old.rest.now self.new.rest.now) }
        ensures ops { IfOk result (λ held. self.new.ops.items ≡ self.old.ops.items) }
        ensures walk { IfOk result (λ held. (in_has : Bool) → WalksHome bracketed in_has self.old.rest.now self.new.rest.now) }
        ensures err { IfErr result (λ why. (in_has : Bool) → HaltsHome bracketed in_has self.old.rest.now why) }
    {
        match self.part() {
            Part::Quote => {
                let name = self.text()?;
                self.close_square()?;
                Ok(name)
            }
            _ => Err(self.refused(false)),
        }
    }
}

fn is_call(word: Word) -> bool
    ensures { result ≡ is_call word }
{
    match word {
        Word::Call { call: _ } => true,
        Word::Event => false,
        Word::True => false,
        Word::False => false,
        Word::Null => false,
        Word::Has => false,
        Word::Int => false,
        Word::In => false,
        Word::Other => false,
    }
}

fn is_open(part: Part) -> bool
    ensures { result ≡ is_open part }
{
    match part {
        Part::Open => true,
        _ => false,
    }
}

// Whether a call stands here, behind a dot.
fn is_called(text: &[u8]) -> bool
    ensures { result ≡ is_called text.now }
{
    match part_at(text) {
        Part::Named { word } => is_call(word) && is_open(part_at(behind(text))),
        _ => false,
    }
}

// Whether a path goes on here: by a bracket, or by a dot behind which no call stands. In `has` there are no calls.
fn goes_on(text: &[u8], in_has: bool) -> bool
    ensures { result ≡ goes_on in_has text.now }
{
    match part_at(text) {
        Part::Dot => in_has || !is_called(behind(text)),
        Part::OpenList => true,
        _ => false,
    }
}

// Whether a name, behind which this stands, is that of a call that there isn't.
fn is_left_out_call(word: Word, rest: &[u8]) -> bool
    ensures { result ≡ not (is_call word) && is_open (part_at rest.now) }
{
    !is_call(word) && is_open(part_at(rest))
}

fn add(path: &mut Path, name: Blob) -> Result<(), Stop>
    ensures err { IfErr result (λ why. why ≡ stops.NoMemory) }
    ensures ok { OnOk result (path.new ≡ path.old ++ name ∷ []) }
{
    match path.push(name) {
        Ok(()) => Ok(()),
        Err(_) => Err(Stop::NoMemory),
    }
}
