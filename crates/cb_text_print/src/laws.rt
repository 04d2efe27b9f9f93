//! What is printed is read again. Each function does nothing: its contract is a law.

ghost use Rattle.cb_grammar.specs.Written.{LinesArePlain, FormulaIsWritten, PartIsWritten, TermIsWritten, SumIsWritten, ProductIsWritten, SubstitutionIsWritten, ProcessIsWritten};
ghost use Rattle.cb_written.specs.Controllers.{SystemIsWritten, ChannelsAreWritten, ChannelIsWritten, ControllerIsWritten, DefinitionIsWritten, ParametersAreWritten, ParameterIsWritten};
ghost use Rattle.cb_written.specs.Processes.{StepIsWritten};
ghost use Rattle.cb_written.specs.Substitutions.{SimpleIsWritten, DomainIsWritten, BoundIsWritten};
ghost use Rattle.cb_written.specs.Texts.{OperationIsWritten, TextIsWritten};
ghost use Rattle.cb_written.specs.Units.{UnitIsWritten};
ghost use Rattle.cb_text_print.specs.Printed.{TextIsPrintedBack, TextIsReadAgain};

use cb_grammar::laws as grammar;
use cb_lex::laws as lexer;
use cb_text_shapes::laws as shapes;
use cb_written::laws as written;

fn lines_of_formulas()
    ensures plain { LinesArePlain }
    ensures formula { FormulaIsWritten }
    ensures part { PartIsWritten }
    ensures unit { UnitIsWritten }
{
    grammar::lines_are_plain();
    grammar::formula_is_written();
    grammar::part_is_written();
    written::unit_is_written();
}

fn lines_of_terms()
    ensures term { TermIsWritten }
    ensures sum { SumIsWritten }
    ensures product { ProductIsWritten }
{
    grammar::term_is_written();
    grammar::sum_is_written();
    grammar::product_is_written();
}

fn lines_of_machines()
    ensures substitution { SubstitutionIsWritten }
    ensures simple { SimpleIsWritten }
    ensures domain { DomainIsWritten }
    ensures bound { BoundIsWritten }
    ensures operation { OperationIsWritten }
{
    grammar::substitution_is_written();
    written::simple_is_written();
    written::domain_is_written();
    written::bound_is_written();
    written::operation_is_written();
}

fn lines_of_controllers()
    ensures process { ProcessIsWritten }
    ensures step { StepIsWritten }
    ensures parameters { ParametersAreWritten }
    ensures parameter { ParameterIsWritten }
    ensures definition { DefinitionIsWritten }
    ensures controller { ControllerIsWritten }
{
    grammar::process_is_written();
    written::step_is_written();
    written::parameters_are_written();
    written::parameter_is_written();
    written::definition_is_written();
    written::controller_is_written();
}

fn lines_of_texts()
    ensures channels { ChannelsAreWritten }
    ensures channel { ChannelIsWritten }
    ensures system { SystemIsWritten }
    ensures text { TextIsWritten }
{
    written::channels_are_written();
    written::channel_is_written();
    written::system_is_written();
    written::text_is_written();
}

/// What is printed of a text that the tokens of some text spell, spells this text again, places aside.
pub fn text_is_printed_back()
    ensures { TextIsPrintedBack }
{
    lines_of_formulas();
    lines_of_terms();
    lines_of_machines();
    lines_of_controllers();
    lines_of_texts();
    written::before_proofs_is_written();
    shapes::text_is_whole();
}

/// What is printed of a text that the tokens of some text spell, is read again as this text, places aside.
pub fn text_is_read_again()
    ensures { TextIsReadAgain }
{
    text_is_printed_back();
    lexer::lexes_once();
}
