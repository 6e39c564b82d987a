// What is said of a case.
ghost use Rattle.std.specs.Prelude.{◌≡◌};
ghost use Rattle.case_text.specs.Lines.{shown};

use itoa::Buffer;
use side_base::{NoMemory, Text};
use std::alloc::Global;
use std::fmt;

/// A text that grows, and whether memory lacked for a part of it, which is then left out.
#[derive(Drop)]
pub struct Lines {
    text: Text,
    lacks: bool,
}

// Bytes that are a text, or that they are none.
#[tactic(auto, using(crate::proofs::Shown::a_text, crate::proofs::Shown::no_text))]
fn shown(bytes: &[u8]) -> &str
    ensures { result.now ≡ shown bytes.now }
{
    match str::from_utf8(bytes) {
        Ok(text) => text,
        Err(_) => "no text",
    }
}

impl Lines {
    ghost use Rattle.std.specs.Prelude.{◌≡◌, ◌⊎◌, ◌++◌, ◌∷◌, ◌↔◌, ℕ, List, true, false, [], IsTrue, IfOk, IfErr, IfSome, decimal};
    ghost use Rattle.case_text.specs.Lines.{Added, line, shown, differs};

    /// No line yet.
    pub fn new(alloc: Global) -> Lines
        ensures text { result.text ≡ [] }
        ensures whole { result.lacks ≡ false }
    {
        Lines {
            text: Text::new(alloc),
            lacks: false,
        }
    }

    /// Adds words, unless memory lacks for them, which is remembered.
    pub fn add(&mut self, words: &str)
        ensures { Added words.now self.old self.new }
    {
        if self.text.push(words).is_err() {
            self.lacks = true;
        }
    }

    /// Remembers that memory lacked, for what is no part of the text.
    pub fn lack(&mut self)
        ensures text { self.new.text ≡ self.old.text }
        ensures lacks { self.new.lacks ≡ true }
    {
        self.lacks = true;
    }

    /// Adds words and a number behind them.
    pub fn add_number(&mut self, words: &str, number: u64)
        ensures { Added (words.now ++ decimal number) self.old self.new }
    {
        let mut buffer = Buffer::new();
        self.add(words);
        self.add(buffer.format(number));
    }

    /// Adds a line of these words and what stands behind them.
    pub fn add_line(&mut self, words: &str, behind: &str)
        ensures { Added (line words.now behind.now) self.old self.new }
    {
        self.add(words);
        self.add(behind);
        self.add("\n");
    }

    /// Adds a line of these words and a number behind them.
    pub fn add_number_line(&mut self, words: &str, number: u64)
        ensures { Added (line words.now (decimal number)) self.old self.new }
    {
        self.add_number(words, number);
        self.add("\n");
    }

    /// Adds words and behind them what is said of bytes: they themselves, if they are a text.
    pub fn add_shown(&mut self, words: &str, bytes: &[u8])
        ensures { Added (words.now ++ shown bytes.now) self.old self.new }
    {
        self.add(words);
        self.add(shown(bytes));
    }

    /// Adds a line of these words and what is said of bytes.
    pub fn add_bytes(&mut self, words: &str, bytes: &[u8])
        ensures { Added (line words.now (shown bytes.now)) self.old self.new }
    {
        self.add_line(words, shown(bytes));
    }

    /// Adds what a value says of itself, as errors do: just the bytes that its type states of it, and where its type states none, some.
    pub fn add_told<E: fmt::Display>(&mut self, alloc: Global, told: &E)
        ensures stated { IfSome (E.output told.now) (λ words. Added words self.old self.new) }
        ensures any { (words : List ℕ) × Added words self.old self.new }
    {
        match format!(in alloc; "{told}") {
            Ok(words) => self.add(words.as_str()),
            Err(_) => self.lack(),
        }
    }

    /// Adds what was wanted and what came, where these differ.
    pub fn compare(&mut self, word: &str, wanted: &[u8], got: &[u8])
        ensures same { wanted.now ≡ got.now → self.new ≡ self.old }
        ensures differs { (wanted.now ≡ got.now) ⊎ Added (differs word.now wanted.now got.now) self.old self.new }
    {
        if wanted != got {
            self.add_line("-- ", word);
            self.add_bytes("wanted:\n", wanted);
            self.add_bytes("got:\n", got);
        }
    }

    /// Whether nothing was added.
    pub fn is_empty(&self) -> bool
        ensures { IsTrue result ↔ (self.now.text ≡ []) }
    {
        self.text.is_empty()
    }

    /// The text so far.
    pub fn as_str(&self) -> &str
        ensures { result.now ≡ self.now.text }
    {
        self.text.as_str()
    }

    /// The text, unless memory lacked for a part of it.
    pub fn done(self) -> Result<Text, NoMemory>
        ensures whole { IfOk result (λ text. (self.lacks ≡ false) × (text ≡ self.text)) }
        ensures lacks { IfErr result (λ _. self.lacks ≡ true) }
    {
        if self.lacks {
            Err(NoMemory)
        } else {
            Ok(self.text)
        }
    }

    /// The text, with the parts for which memory was there.
    pub fn into_text(self) -> Text
        ensures { result ≡ self.text }
    {
        self.text
    }
}
