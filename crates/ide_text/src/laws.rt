//! Laws of texts and their faults. The functions do nothing: their clauses are the laws.
ghost use Rattle.ide_text.specs.Laws.{EqualHaveOneText, HaveOneFault, HaveOneFirstFault, ParsedArePrintedAgain, ParsedHaveNoFault, PrintedAreParsedAgain, SpellOneProgram, SpelledHaveNoFault};

/// A text has at most one first fault of F2 to F4, on one line.
pub fn one_first_fault()
    ensures { HaveOneFirstFault }
{}

/// A text that spells a program within the limits has no fault of F2 to F4.
pub fn spelled_have_no_fault()
    ensures { SpelledHaveNoFault }
{}

/// A text spells at most one program, up to the room that its vectors have.
pub fn spell_one_program()
    ensures { SpellOneProgram }
{}

/// A text has at most one fault of F1 to F10, on one line.
pub fn one_fault()
    ensures { HaveOneFault }
{}

/// A text that [`parse`](crate::parse) gives a program for has no fault.
pub fn parsed_have_no_fault()
    ensures { ParsedHaveNoFault }
{}

/// [`parse`](crate::parse) and [`print`](crate::print()) undo each other, up to the room that
/// vectors have: of programs, of their copies, and of texts.
pub fn parsing_and_printing_undo_each_other()
    ensures printed { PrintedAreParsedAgain }
    ensures parsed { ParsedArePrintedAgain }
    ensures copied { EqualHaveOneText }
{}
