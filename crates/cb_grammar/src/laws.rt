//! Lines of the grammar as one usually writes them. Each function does nothing: its contract is a law of the table,
//! that the table's pieces spell what the line spells, and write the same for it.

ghost use Rattle.cb_grammar.specs.Written.{LinesArePlain, SubstitutionIsWritten, PartIsWritten, UnitLines, FormulaIsWritten, ProductIsWritten, SumIsWritten, TermIsWritten, ProcessIsWritten};

/// A part spells what one of its lines in the table spells, whatever stands behind it.
pub fn lines_are_plain()
    ensures { LinesArePlain }
{}

/// A substitution is one or more simple ones with `||` between them.
pub fn substitution_is_written()
    ensures { SubstitutionIsWritten }
{}

/// A part of a formula is a unit, or units with `&` between them, or units with `or` between them.
pub fn part_is_written()
    ensures { PartIsWritten }
{}

/// The lines of units in the table are these.
pub fn unit_lines_stand()
    ensures { UnitLines }
{}

/// A formula is a part, or two parts with `=>` between them, or two units with `<=>` between them.
pub fn formula_is_written()
    ensures { FormulaIsWritten }
{}

/// A product is factors with `*`, `/` or `mod` between them.
pub fn product_is_written()
    ensures { ProductIsWritten }
{}

/// A sum is products with `+` or `-` between them.
pub fn sum_is_written()
    ensures { SumIsWritten }
{}

/// A term is a sum, or two sums with `..` between them, or factors with `\/` between them, or factors with `/\` between
/// them.
pub fn term_is_written()
    ensures { TermIsWritten }
{}

/// A process is a step, or steps with `[]` between them, or steps with `|~|` between them; a chain is one list.
pub fn process_is_written()
    ensures { ProcessIsWritten }
{}
