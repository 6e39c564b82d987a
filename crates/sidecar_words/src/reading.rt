ghost use Rattle.std.specs.Prelude.{◌≡◌, ◌≢◌, ◌↔◌, List, All, IfOk, IsErrOf, IsTrue, true, map};
ghost use Rattle.sidecar_words.specs.Spelling.{options, flags, is_plain, Spells, IsOnce, Pair};
ghost use Rattle.sidecar_words.specs.Meaning.{Means};
ghost use Rattle.sidecar_words.specs.Found.{HoldsOf, IsFound};
ghost use Rattle.clap.specs.Words.{found_of, kind_of};
ghost use Rattle.sidecar_words.specs.declared.given.Words.{Words};

use crate::checking::{Values, words_of};
use crate::command::command;
use crate::{Words, WordsErr};
use clap::error::ErrorKind;
use clap::{ArgMatches, Error};
use side_base::{NoMemory, Text};
use std::alloc::Global;

const DASH: u8 = b'-';

/// What the words of the command line mean. They don't include the program's name.
///
/// Words that mean something are read, and others are `Usage`; want of memory may stand in place of either.
pub fn read_words(alloc: Global, words: &[Text]) -> Result<Words, WordsErr>
    ensures ok { IfOk result (Means words.now) }
    ensures only { (given : Words) → Means words.now given → IfOk result (λ words. words ≡ given) }
    ensures usage { IsErrOf result WordsErr.Usage → (given : Words) → ¬ Means words.now given }
{
    if !are_plain(words) {
        return Err(WordsErr::Usage);
    }
    let texts = texts_of(alloc, words)?;
    let values = values_of(alloc, texts.as_slice())?;
    words_of(alloc, &values)
}

fn are_plain(words: &[Text]) -> bool
    ensures { IsTrue result ↔ All (λ word. is_plain word ≡ true) words.now }
{
    words.iter().all(|word| is_plain(word.bytes()))
}

/// Whether a word is neither `-` nor `--`, and does not begin with one dash and no second.
fn is_plain(word: &[u8]) -> bool
    ensures { result ≡ is_plain word.now }
{
    match word {
        [DASH, DASH, _, ..] => true,
        [DASH, ..] => false,
        _ => true,
    }
}

fn texts_of<'a>(alloc: Global, words: &'a [Text]) -> Result<Vec<&'a str>, NoMemory>
    ensures { IfOk result (λ texts. map (λ text. text.now) texts.items ≡ words.now) }
{
    let mut texts = Vec::new(alloc);
    for word in words {
        texts.push(word.as_str())?;
    }
    Ok(texts)
}

/// The values that plain words spell.
fn values_of<'a>(alloc: Global, texts: &'a [&'a str]) -> Result<Values<'a>, WordsErr>
    requires { All (λ word. is_plain word ≡ true) (map (λ text. text.now) texts.now) }
    ensures ok { IfOk result (λ values. (pairs : List Pair) × Spells options flags (map (λ text. text.now) texts.now) pairs × IsOnce pairs × HoldsOf pairs values) }
    ensures usage { IsErrOf result WordsErr.Usage → (pairs : List Pair) → Spells options flags (map (λ text. text.now) texts.now) pairs → ¬ IsOnce pairs }
{
    match command(alloc)?.try_get_matches_from(texts) {
        Ok(matches) => Ok(found(&matches)),
        Err(error) => Err(refusal(&error)),
    }
}

fn found<'a>(matches: &ArgMatches<'a>) -> Values<'a>
    ensures { IsFound (found_of matches.now) result }
{
    Values {
        app: matches.get_str("app-id"),
        resources: matches.get_str("resources-path"),
        port: matches.get_str("dapr-http-port"),
        app_port: matches.get_str("app-port"),
        workers: matches.get_str("workers"),
        peers: matches.get_str("peers"),
        drill: matches.get_str("drill"),
        stdio: matches.get_flag("stdio"),
        check: matches.get_flag("check"),
    }
}

fn refusal(error: &Error) -> WordsErr
    ensures usage { kind_of error.now ≢ ErrorKind.OutOfMemory → result ≡ WordsErr.Usage }
    ensures memory { kind_of error.now ≡ ErrorKind.OutOfMemory → result ≡ WordsErr.NoMemory }
{
    match error.kind() {
        ErrorKind::OutOfMemory => WordsErr::NoMemory,
        _ => WordsErr::Usage,
    }
}
