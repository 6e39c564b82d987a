/// A sequential object: a state that changes by one command at a time.
///
/// A history is a list of entries, the oldest first, from a first object. The members of a trait's contract say what a step is,
/// and which object stands for which history; the cell gives all threads one history of such steps.
pub trait Object: Drop {
    ghost use Rattle.std.specs.Prelude.{◌≡◌, ℕ, ◌+◌, ◌^◌, ◌<◌, List, [], length};
    ghost use Rattle.turn_cell.specs.declared.entry.Entry.{Entry};
    ghost use Rattle.turn_cell.specs.Stepping.{MakesStep};

    /// What a caller asks.
    type Cmd;

    /// What it is told.
    type Reply;

    // Of the first object and a command: the command may be given. It speaks of nothing else.
    ghost takes: { Self → Self.Cmd → Type 0 };

    // Of the first object, the entries so far and one more: it is a step after them. That marks never fall belongs here.
    ghost steps: { Self → List (Entry Self.Cmd Self.Reply) → Entry Self.Cmd Self.Reply → Type 0 };

    // Of the first object, a history and an object: the object is one that the history leads to.
    ghost stands: { Self → List (Entry Self.Cmd Self.Reply) → Self → Type 0 };

    // How many steps the object has made.
    ghost used: { Self → ℕ };

    // What an entry keeps beside its command and reply, as a count of faults; 0 where there is none.
    ghost mark: { Self → ℕ };

    /// Makes one step, for every history that the object stands for. The object has made fewer than 2^62.
    ///
    /// Each call is an entry of the history and one of the 2^62, whatever the reply is: also one that found no memory.
    fn apply(&mut self, cmd: &Self::Cmd) -> Self::Reply
        requires room { used self.old < 2 ^ 62 }
        requires ready { (first : Self) × (history : List (Entry Self.Cmd Self.Reply)) × stands first history self.old × takes first cmd.now }
        ensures step { MakesStep takes steps stands self.old self.new cmd.now result (mark self.new) }
        ensures used { used self.new ≡ used self.old + 1 };

    /// How many steps the object has made.
    fn used(&self) -> u64
        ensures { result ≡ used self.now };

    // An object that has made no step stands for the empty history from itself.
    ghost opens: { (first : Self) → used first ≡ 0 → stands first [] first };

    // An object has made as many steps as the history that it stands for has entries.
    ghost counts: { (first : Self) (history : List (Entry Self.Cmd Self.Reply)) (object : Self) → stands first history object → used object ≡ length history };
}
