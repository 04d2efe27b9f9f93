//! What is printed is read again. The functions do nothing: their contracts are the laws.

ghost use Rattle.cb_cert_print.specs.Printed.{ArePrintedBack, AreReadAgain};

use cb_cert_shapes::laws as shapes;
use cb_grammar::laws as grammar;
use cb_lex::laws as lexer;
use cb_written::laws as written;

/// What is printed of proofs that some text spells, one behind another, spells these proofs again, places aside.
pub fn proofs_are_printed_back()
    ensures { ArePrintedBack }
{
    grammar::lines_are_plain();
    grammar::formula_is_written();
    grammar::part_is_written();
    grammar::term_is_written();
    grammar::sum_is_written();
    grammar::product_is_written();
    written::unit_is_written();
    shapes::proofs_are_full();
}

/// What is printed of proofs that some text spells, one behind another, is read again as these proofs, places aside.
pub fn proofs_are_read_again()
    ensures { AreReadAgain }
{
    proofs_are_printed_back();
    lexer::lexes_once();
}
