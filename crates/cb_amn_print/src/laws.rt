//! What is printed is read again. Each function does nothing: its contract is the law.

ghost use Rattle.cb_grammar.specs.declared.parts.Part.TheVariants as part;
ghost use Rattle.cb_amn_parse.specs.Formulas.{formula_out, term_out};
ghost use Rattle.cb_amn_print.specs.Formulas.{formula_text, term_text};
ghost use Rattle.cb_amn_print.specs.Printed.{IsPrintedBack, IsReadAgain};
ghost use Rattle.cb_amn_print.specs.Unplaced.{unplaced_formula, unplaced_machine, unplaced_term};
ghost use Rattle.std.specs.Prelude.{false};
ghost use Rattle.cb_grammar.specs.Written.{LinesArePlain, FormulaIsWritten, PartIsWritten, TermIsWritten, SumIsWritten, ProductIsWritten, SubstitutionIsWritten};
ghost use Rattle.cb_written.specs.Substitutions.{SimpleIsWritten, DomainIsWritten, BoundIsWritten};
ghost use Rattle.cb_amn_parse.specs.Machines.{machine_out};
ghost use Rattle.cb_amn_print.specs.Machines.{machine_text};
ghost use Rattle.cb_written.specs.Units.{UnitIsWritten};

use cb_grammar::laws as grammar;
use cb_lex::laws as lexer;
use cb_shapes::laws as shapes;
use cb_written::laws as written;

fn lines_of_formulas()
    ensures plain { LinesArePlain }
    ensures formula { FormulaIsWritten }
    ensures part { PartIsWritten }
    ensures unit { UnitIsWritten }
{
    grammar::lines_are_plain();
    grammar::formula_is_written();
    grammar::part_is_written();
    written::unit_is_written();
}

fn lines_of_terms()
    ensures term { TermIsWritten }
    ensures sum { SumIsWritten }
    ensures product { ProductIsWritten }
{
    grammar::term_is_written();
    grammar::sum_is_written();
    grammar::product_is_written();
}

fn lines_of_substitutions()
    ensures substitution { SubstitutionIsWritten }
    ensures simple { SimpleIsWritten }
    ensures domain { DomainIsWritten }
    ensures bound { BoundIsWritten }
{
    grammar::substitution_is_written();
    written::simple_is_written();
    written::domain_is_written();
    written::bound_is_written();
}

/// What is printed of a formula that some text spells, spells this formula again, places aside.
pub fn formula_is_printed_back()
    ensures { IsPrintedBack (formula_text false) formula_out part.Formula }
{
    lines_of_formulas();
    lines_of_terms();
}

/// What is printed of a term that some text spells, spells this term again, places aside.
pub fn term_is_printed_back()
    ensures { IsPrintedBack (term_text false) term_out part.Term }
{
    lines_of_formulas();
    lines_of_terms();
}

/// What is printed of a machine that some text spells, spells this machine again, places aside.
pub fn machine_is_printed_back()
    ensures { IsPrintedBack machine_text machine_out part.Machine }
{
    lines_of_formulas();
    lines_of_terms();
    lines_of_substitutions();
    written::operation_is_written();
    shapes::machine_is_full();
}

/// What is printed of a formula that some text spells, is read again as this formula, places aside.
pub fn formula_is_read_again()
    ensures { IsReadAgain (formula_text false) formula_out unplaced_formula part.Formula }
{
    formula_is_printed_back();
    lexer::lexes_once();
}

/// What is printed of a term that some text spells, is read again as this term, places aside.
pub fn term_is_read_again()
    ensures { IsReadAgain (term_text false) term_out unplaced_term part.Term }
{
    term_is_printed_back();
    lexer::lexes_once();
}

/// What is printed of a machine that some text spells, is read again as this machine, places aside.
pub fn machine_is_read_again()
    ensures { IsReadAgain machine_text machine_out unplaced_machine part.Machine }
{
    machine_is_printed_back();
    lexer::lexes_once();
}
