//! The parser: a whole text into a program, or the first fault of the text.
ghost use Rattle.std.specs.Prelude.{◌≡◌, ◌+◌, ◌<◌, ◌≤◌, ◌↔◌, length, OnOk, IfOk, IfErr};
ghost use Rattle.ide_text.specs.Flaw.{IfFaulty};
ghost use Rattle.ide_text.specs.Grammar.{Spells};
ghost use Rattle.ide_text.specs.Lines.{IsWithinLimits};
ghost use Rattle.ide_text.specs.Parsed.{IsParsed, IsRefusalOf};
ghost use Rattle.ide_text.specs.Draft as drafts;
ghost use Rattle.ide_text.specs.Program.{lines_of};
ghost use Rattle.ide_text.specs.Reader.{IsCounted, RefusesLine, TakesLine, taken_lines};
ghost use Rattle.ide_text.specs.Refusal.{IsFirstFault, IsTextRefusal};

use crate::checker::check;
use crate::cut::cut;
use crate::flaw::Flaw;
use crate::line::Line;
use crate::program::{Draft, Program};
use crate::reader::Reader;
use crate::token::Token;
use ide_wire::{Fault, Refused};
use std::alloc::Global;

/// The most bytes of a text.
pub const MAX_TEXT: usize = 1_048_576;

/// The program that a text spells.
///
/// Lines count from 1. A text that is too long has its fault on line 0. Refused is otherwise the
/// first of the faults F2 to F4 on the least line that has one; in a text with none of these the
/// first of F5 to F10 on the least line that has one. [`Refused::NoMemory`] may be answered for any
/// text that is not too long. The time grows with the length of the text.
pub fn parse(alloc: Global, text: &[u8]) -> Result<Program, Refused>
    ensures too_long { (result ≡ Err (Refused.Text 0 Fault.TextTooLong)) ↔ (1048576 < length text.now) }
    ensures refusals { IfErr result (IsTextRefusal 0 (length text.now + 1)) }
    ensures lines { IfOk result (λ program. lines_of program ≤ length text.now) }
    ensures parsed { IfOk result (IsParsed text.now) }
    ensures fault { IfErr result (IsRefusalOf text.now) }
{
    if text.len() > MAX_TEXT {
        return Err(Refused::Text {
            line: 0,
            fault: Fault::TextTooLong,
        });
    }
    let draft = read(alloc, text)?;
    check(alloc, &draft)?;
    Ok(Program::of(draft))
}

/// The draft of a text, whose names are still to be checked.
fn read(alloc: Global, text: &[u8]) -> Result<Draft, Refused>
    requires { length text.now ≤ 1048576 }
    ensures refusals { IfErr result (IsTextRefusal 1 (length text.now + 1)) }
    ensures lines { IfOk result (λ draft. drafts.draft_line_count draft ≤ length text.now) }
    ensures spelled { IfOk result (Spells text.now) }
    ensures limits { IfOk result IsWithinLimits }
    ensures faults { IfErr result (IsFirstFault text.now) }
{
    let mut reader = Reader::new(alloc);
    let mut tokens = Vec::new(alloc);
    let mut line: u32 = 1;
    let mut rest = text;
    while let Some((next, after)) = cut(rest, b'\n') {
        if let Err(flaw) = read_line(alloc, &mut tokens, &mut reader, next) {
            return Err(flaw.on_line(line));
        }
        line += 1;
        rest = after;
    }
    if !rest.is_empty() {
        return Err(Flaw::Faulty(Fault::NoSuchLine).on_line(line));
    }
    match reader.finish() {
        Ok(draft) => Ok(draft),
        Err(fault) => Err(Flaw::Faulty(fault).on_line(line)),
    }
}

/// Takes the line that these bytes, without the LF, spell. The list is for its tokens, and what
/// stood in it is gone.
fn read_line(
    alloc: Global,
    tokens: &mut Vec<Token>,
    reader: &mut Reader,
    text: &[u8],
) -> Result<(), Flaw>
    requires { IsCounted reader.old }
    ensures taken { OnOk result (TakesLine (taken_lines reader.old) (taken_lines reader.new) text.now) }
    ensures counted { OnOk result (IsCounted reader.new) }
    ensures fault { IfErr result (λ flaw. IfFaulty flaw (RefusesLine (taken_lines reader.old) text.now)) }
{
    let line = Line::read(alloc, tokens, text)?;
    reader.take(line)
}
