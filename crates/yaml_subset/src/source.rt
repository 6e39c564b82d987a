// The lines of a file that have content, one after the other.
ghost use Rattle.std.specs.Prelude.{◌≡◌, ◌∷◌, ◌+◌, ◌<◌, [], true, false, length, MatchOption, IfOk, OnOk, OnSome};
ghost use Rattle.std.specs.Str.Lines.{lines as lines_of_text};
ghost use Rattle.yaml_lines.specs.Blank.{is_mark, is_passed_over};
ghost use Rattle.yaml_lines.specs.LineShown.{line_shown};
ghost use Rattle.yaml_lines.specs.Texts.{texts};
ghost use Rattle.yaml_subset.specs.Contents.{contents};
ghost use Rattle.yaml_subset.specs.Left.{contents_left, line_here};

use crate::left::Source;
use std::alloc::{AllocError, Global};
use yaml_lines::{
    Below, Line, column_of_holder, count_below, cut_of_line, has_no_content, is_mark_line,
    line_from,
};

/// All lines.
pub(crate) fn source_of<'a>(lines: &'a [&'a [u8]]) -> Source<'a>
    ensures { contents_left result ≡ contents 1 true 0 0 (texts lines.now) }
{
    Source {
        lines,
        at: 0,
        starts: true,
        least: 0,
    }
}

impl<'a> Source<'a> {
    // A mark is the next line.
    fn pass_mark(&mut self)
        requires inside { self.old.at < length self.old.lines.now }
        requires mark { is_mark (line_here self.old) ≡ true }
        ensures same { self.new.lines ≡ self.old.lines }
        ensures at { self.new.at ≡ self.old.at + 1 }
        ensures left { contents_left self.new ≡ contents_left self.old }
    {
        self.at += 1;
        self.starts = true;
        self.least = 0;
    }

    // A line without content is the next one.
    fn pass_over(&mut self)
        requires inside { self.old.at < length self.old.lines.now }
        requires no_mark { is_mark (line_here self.old) ≡ false }
        requires passed { is_passed_over (line_here self.old) ≡ true }
        ensures same { self.new.lines ≡ self.old.lines }
        ensures at { self.new.at ≡ self.old.at + 1 }
        ensures left { contents_left self.new ≡ contents_left self.old }
    {
        self.at += 1;
    }

    // A line with content is the next one.
    fn take(&mut self, alloc: Global) -> Result<Line, AllocError>
        requires inside { self.old.at < length self.old.lines.now }
        requires no_mark { is_mark (line_here self.old) ≡ false }
        requires content { is_passed_over (line_here self.old) ≡ false }
        ensures same { self.new.lines ≡ self.old.lines }
        ensures moved { OnOk result (self.old.at < self.new.at) }
        ensures left { IfOk result (λ line. contents_left self.old ≡ line_shown line ∷ contents_left self.new) }
    {
        let raw = self.lines[self.at];
        let others = &self.lines[self.at + 1..];
        let below = Below {
            least: self.least,
            lines: others,
        };
        let cut = cut_of_line(alloc, raw, below)?;
        let least = column_of_holder(self.least, &cut.parts);
        let count = count_below(others, cut.block);
        let line = line_from(self.at + 1, self.starts, raw, cut);
        self.at = self.at + 1 + count;
        self.starts = false;
        self.least = least;
        Ok(line)
    }

    /// The next line that has content, if there is one.
    pub(crate) fn next(&mut self, alloc: Global) -> Result<Option<Line>, AllocError>
        ensures same { self.new.lines ≡ self.old.lines }
        ensures moved { IfOk result (λ line. OnSome line (self.old.at < self.new.at)) }
        ensures left { IfOk result (λ line. MatchOption line (contents_left self.old ≡ []) (λ l. contents_left self.old ≡ line_shown l ∷ contents_left self.new)) }
    {
        while self.at < self.lines.len() {
            let raw = self.lines[self.at];
            if is_mark_line(raw) {
                self.pass_mark();
            } else if has_no_content(raw) {
                self.pass_over();
            } else {
                return Ok(Some(self.take(alloc)?));
            }
        }
        Ok(None)
    }
}

/// The lines of a text, which end with LF or CR LF.
pub(crate) fn lines_in<'a>(alloc: Global, text: &'a str) -> Result<Vec<&'a [u8]>, AllocError>
    ensures { IfOk result (λ v. texts v.items ≡ lines_of_text text.now) }
{
    let mut lines = Vec::new(alloc);
    for line in text.lines() {
        lines.push(line.as_bytes())?;
    }
    Ok(lines)
}
