// Playing the cases of files.
use crate::CASE;
use crate::escape::unescaped;
use crate::lines::Lines;
use crate::piece::{Piece, pieces};
use crate::section::{Section, add_broken, sections};
use crate::tally::Tally;
use side_base::{NoMemory, Text};
use std::alloc::Global;
use std::rt::{Env, Files};
use std::{env, fs, io};

/// The first line of a case that is played again only where memory lacked.
const ONCE: &[u8] = b"-- once\n";

/// What stands between what is given on a line and what is wanted.
const ARROW: &str = " => ";

/// What plays cases that are whole.
pub trait Player {
    /// Adds what is wrong of a case; nothing where it is right.
    fn play(&self, alloc: Global, case: &Piece<'_>, lines: &mut Lines);
}

/// What answers cases of which each is a line: what is given, an arrow, and what must come of it.
pub trait Answerer {
    /// Whether the lines of sections of this word are cases.
    fn asks(&self, _word: &str) -> bool {
        true
    }

    /// What comes of what is given on a line of a section, which stands among these.
    fn answer(
        &self,
        alloc: Global,
        sections: &[Section<'_>],
        section: &Section<'_>,
        given: &[u8],
    ) -> Result<Text, NoMemory>;
}

// What is wrong of a case; nothing where it is right. A broken escape is, whatever comes of the case.
fn wrong<P: Player>(player: &P, alloc: Global, case: &Piece<'_>) -> Result<Text, NoMemory> {
    let mut lines = Lines::new(alloc);
    add_broken(alloc, sections(alloc, case)?.as_slice(), &mut lines);
    player.play(alloc, case, &mut lines);
    lines.done()
}

// The same, with want of memory as a difference.
fn wrong_at_last<P: Player>(player: &P, alloc: Global, case: &Piece<'_>) -> Text {
    match wrong(player, alloc, case) {
        Ok(wrong) => wrong,
        Err(_) => Text::from_static(alloc, "no memory\n"),
    }
}

// What is wrong of a case, and whether it was played again: one that differs is, since memory may have lacked.
fn played<P: Player>(player: &P, alloc: Global, case: &Piece<'_>) -> (Text, bool) {
    match wrong(player, alloc, case) {
        Ok(wrong) if wrong.is_empty() || case.text.starts_with(ONCE) => (wrong, false),
        _ => (wrong_at_last(player, alloc, case), true),
    }
}

// Plays a case and counts it.
fn play_one<P: Player>(player: &P, alloc: Global, case: &Piece<'_>, tally: &mut Tally) {
    let (wrong, again) = played(player, alloc, case);
    tally.count(case.head, &wrong, again);
}

// A line, cut at its arrow. One without an arrow wants what nothing answers.
fn cut(line: &str) -> (&str, &str) {
    match line.split_once(ARROW) {
        Some((given, wanted)) => (given, wanted),
        None => (line, "no arrow"),
    }
}

/// Plays a line of a section.
#[derive(Drop)]
struct Line<'a, A> {
    answerer: &'a A,
    sections: &'a [Section<'a>],
    section: Section<'a>,
}

impl<A: Answerer> Line<'_, A> {
    // What comes of a line for which this is given, and of which this is wanted, where it is something else.
    fn other(&self, alloc: Global, given: &[u8], wanted: &[u8]) -> Result<Option<Text>, NoMemory> {
        let got = self
            .answerer
            .answer(alloc, self.sections, &self.section, given)?;
        if got.bytes() == wanted {
            Ok(None)
        } else {
            Ok(Some(got))
        }
    }

    // The same of a line, its escapes undone; or that one of them is broken.
    fn came(&self, alloc: Global, line: &str) -> Result<Option<Text>, NoMemory> {
        let (given, wanted) = cut(line);
        let given = unescaped(alloc, given.as_bytes())?;
        let wanted = unescaped(alloc, wanted.as_bytes())?;
        match (given, wanted) {
            (Some(given), Some(wanted)) => self.other(alloc, given.bytes(), wanted.bytes()),
            _ => Ok(Some(Text::from_static(alloc, "a broken escape"))),
        }
    }

    // Adds what is wrong of a line.
    fn judge(&self, alloc: Global, line: &str, lines: &mut Lines) -> Result<(), NoMemory> {
        if let Some(got) = self.came(alloc, line)? {
            lines.add_line("-- ", self.section.word);
            lines.add_line("", line);
            lines.add_line("got: ", got.as_str());
        }
        Ok(())
    }
}

impl<A: Answerer> Player for Line<'_, A> {
    fn play(&self, alloc: Global, case: &Piece<'_>, lines: &mut Lines) {
        let line = str::from_utf8(case.text).unwrap_or("no text");
        if self.judge(alloc, line, lines).is_err() {
            lines.lack();
        }
    }
}

/// How the cases of a text are found and played.
trait Texts {
    fn play_text(&self, alloc: Global, text: &[u8], tally: &mut Tally) -> Result<(), NoMemory>;
}

/// Each as it stands there.
#[derive(Drop)]
struct Whole<'a, P> {
    player: &'a P,
}

impl<P: Player> Texts for Whole<'_, P> {
    fn play_text(&self, alloc: Global, text: &[u8], tally: &mut Tally) -> Result<(), NoMemory> {
        for case in pieces(alloc, text, CASE)? {
            play_one(self.player, alloc, &case, tally);
        }
        Ok(())
    }
}

/// Each line of its sections.
#[derive(Drop)]
struct Lined<'a, A> {
    answerer: &'a A,
}

impl<A: Answerer> Lined<'_, A> {
    // Plays the lines of a section that are not empty.
    fn play_section(
        &self,
        alloc: Global,
        head: &[u8],
        sections: &[Section<'_>],
        section: Section<'_>,
        tally: &mut Tally,
    ) {
        let player = Line {
            answerer: self.answerer,
            sections,
            section,
        };
        for text in section.text.split(|byte| *byte == b'\n') {
            if !text.is_empty() {
                play_one(&player, alloc, &Piece { head, text }, tally);
            }
        }
    }
}

impl<A: Answerer> Texts for Lined<'_, A> {
    fn play_text(&self, alloc: Global, text: &[u8], tally: &mut Tally) -> Result<(), NoMemory> {
        for case in pieces(alloc, text, CASE)? {
            let sections = sections(alloc, &case)?;
            for section in &sections {
                if self.answerer.asks(section.word) {
                    self.play_section(alloc, case.head, &sections, *section, tally);
                }
            }
        }
        Ok(())
    }
}

fn play_texts<R: AllocGlobal + Env + Files + Print, T: Texts>(rt: &R, texts: &T) -> io::Result<()> {
    let mut tally = Tally::new(rt.alloc());
    for name in env::args(rt)?.skip(1) {
        let text = fs::read(rt, name.as_str())?;
        texts.play_text(rt.alloc(), text.as_slice(), &mut tally)?;
    }
    tally.print(rt)
}

/// Plays the cases of the files that the words of the program name. Prints each that differs, and at the end how many there were.
///
/// A case that differs is played again, since memory may have lacked, and what is wrong then counts; but not one that begins with a section
/// `once`, unless memory lacked. It prints too how many were right only then, if any were: there memory lacked, or what comes
/// changes from run to run.
pub fn play_cases<R: AllocGlobal + Env + Files + Print, P: Player>(
    rt: &R,
    player: &P,
) -> io::Result<()> {
    play_texts(rt, &Whole { player })
}

/// The same, where each line of a case's sections is a case.
pub fn play_lines<R: AllocGlobal + Env + Files + Print, A: Answerer>(
    rt: &R,
    answerer: &A,
) -> io::Result<()> {
    play_texts(rt, &Lined { answerer })
}
