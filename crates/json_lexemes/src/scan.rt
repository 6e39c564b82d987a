// Passing over one word: a number, a string or a literal.
ghost use Rattle.std.specs.Prelude.{◌≡◌, ◌≤◌, ◌&&◌, ◌==◌, ◌<◌, ℕ, List, length, slice_index, true, false, Some, None, IfOk, IfErr, IfSome, IfNone};
ghost use Rattle.byte_lanes.specs.Bytes.{is_special};
ghost use Rattle.byte_lanes.specs.Places.{NonePasses};
ghost use Rattle.json_lexemes.specs.Lexeme.{ends};
ghost use Rattle.json_lexemes.specs.Surrogates.{is_lone_in};
ghost use Rattle.json_lexemes.specs.Scan.{Passes, EndsAt, BreaksAt, IsTextUpTo};

use crate::kind::Kind;
use crate::lexeme::{Lexeme, meaning, next_word};
use crate::surrogates::is_lone_at;
use byte_lanes::{FIRST_ABOVE_ASCII, first_special};

/// The least byte that begins a character of several bytes.
const FIRST_LEAD: u8 = 0xc0;

/// A word that has ended: the place after it, and what it means.
#[derive(Clone, Copy)]
pub struct Scanned {
    pub end: usize,
    pub kind: Kind,
}

// How far a word has come.
#[derive(Clone, Copy)]
struct Run {
    at: usize,
    word: Lexeme,
}

/// Passes over the word that has come to `first` at place `from`. The bytes before place `text` are UTF-8. An error is the place where
/// the word breaks off.
#[inline]
pub fn scan(bytes: &[u8], from: usize, first: Lexeme, text: usize) -> Result<Scanned, usize>
    requires inside { from ≤ length bytes.now }
    requires known { IsTextUpTo bytes.now text }
    ensures ended { IfOk result (λ word. EndsAt bytes.now from first word.end word.kind) }
    ensures broken { IfErr result (λ at. BreaksAt bytes.now from first at) }
{
    let mut word = first;
    let mut at = from;
    loop {
        let run = match run_plain(bytes, at, word, text) {
            Ok(run) => run,
            Err(place) => return Err(place),
        };
        if run.at == bytes.len() {
            return finish(run);
        }
        match next_word(run.word, bytes[run.at]) {
            Some(after) => {
                word = after;
                at = run.at + 1;
            }
            None => return finish(run),
        }
    }
}

fn finish(run: Run) -> Result<Scanned, usize>
    ensures ended { IfOk result (λ word. (ends run.word ≡ Some word.kind) × (word.end ≡ run.at)) }
    ensures broken { IfErr result (λ at. (ends run.word ≡ None) × (at ≡ run.at)) }
{
    match meaning(run.word) {
        Some(kind) => Ok(Scanned { end: run.at, kind }),
        None => Err(run.at),
    }
}

// Within a string, passes over the bytes that stand for themselves. An error is the place of a lone surrogate's escape.
#[inline]
fn run_plain(bytes: &[u8], at: usize, word: Lexeme, text: usize) -> Result<Run, usize>
    requires inside { at ≤ length bytes.now }
    requires known { IsTextUpTo bytes.now text }
    ensures low { IfOk result (λ run. at ≤ run.at) }
    ensures high { IfOk result (λ run. run.at ≤ length bytes.now) }
    ensures passed { IfOk result (λ run. Passes bytes.now at word run.at run.word) }
    ensures paired { IfOk result (λ run. is_lone_in run.word bytes.now run.at ≡ false) }
    ensures lone { IfErr result (λ place. BreaksAt bytes.now at word place) }
{
    match plain_high(word) {
        Some(high) => {
            let end = run_end(bytes, at, text, high);
            let high = is_still_high(high, at, end);
            if is_lone_at(bytes, end, high) {
                return Err(end);
            }
            Ok(Run {
                at: end,
                word: Lexeme::Plain { high },
            })
        }
        None => Ok(Run { at, word }),
    }
}

// Between two characters of a string, whether the one before is the escape of a high surrogate.
#[inline]
fn plain_high(word: Lexeme) -> Option<bool>
    ensures between { IfSome result (λ high. word ≡ Lexeme.Plain high) }
    ensures within { IfNone result ((bytes : List ℕ) → (at : ℕ) → is_lone_in word bytes at ≡ false) }
{
    match word {
        Lexeme::Plain { high } => Some(high),
        _ => None,
    }
}

// The escape of a high surrogate stands right before place `end` if it did before `at` and nothing has come since.
#[inline]
fn is_still_high(high: bool, at: usize, end: usize) -> bool
    ensures { result ≡ (high && end == at) }
{
    high && end == at
}

// The end of the bytes from place `at` on that stand for themselves; behind the escape of a high surrogate there are none, and a byte
// that is no UTF-8, or stands within a character, ends them.
#[inline]
fn run_end(bytes: &[u8], at: usize, text: usize, high: bool) -> usize
    requires inside { at ≤ length bytes.now }
    requires known { IsTextUpTo bytes.now text }
    ensures low { at ≤ result }
    ensures high { result ≤ length bytes.now }
    ensures passes { Passes bytes.now at (Lexeme.Plain high) result (Lexeme.Plain (high && result == at)) }
{
    if high || at >= text || !may_begin(bytes[at]) {
        return at;
    }
    special_at(bytes, at).min(text)
}

// Whether a character may begin with this byte.
#[inline]
fn may_begin(byte: u8) -> bool
    ensures { result ≡ true → 128 ≤ byte → 192 ≤ byte }
{
    byte < FIRST_ABOVE_ASCII || byte >= FIRST_LEAD
}

// The first place from `at` on of a byte that can't stand for itself, or the end.
fn special_at(bytes: &[u8], at: usize) -> usize
    requires { at ≤ length bytes.now }
    ensures low { at ≤ result }
    ensures high { result ≤ length bytes.now }
    ensures usual { NonePasses is_special bytes.now at result }
    ensures there { result < length bytes.now → is_special (slice_index bytes.now result) ≡ true }
{
    match first_special(bytes, at) {
        Some(place) => place,
        None => bytes.len(),
    }
}
