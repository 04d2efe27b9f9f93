//! What holds of all that is spelled. The functions do nothing: their contracts are the laws.

ghost use Rattle.cb_amn_parse.specs.Formulas.{formula_out, term_out};
ghost use Rattle.cb_amn_parse.specs.Machines.{domain_out, machine_out};
ghost use Rattle.cb_amn_parse.specs.Proofs.{proofs_out};
ghost use Rattle.cb_grammar.specs.declared.parts.Part.TheVariants as part;
ghost use Rattle.cb_amn_parse.specs.Laws.{IsOne};

/// Tokens spell one formula at most.
pub fn formula_is_one()
    ensures { IsOne formula_out part.Formula }
{}

/// Tokens spell one term at most.
pub fn term_is_one()
    ensures { IsOne term_out part.Term }
{}

/// Tokens spell one domain at most.
pub fn domain_is_one()
    ensures { IsOne domain_out part.Domain }
{}

/// Tokens spell one machine at most.
pub fn machine_is_one()
    ensures { IsOne machine_out part.Machine }
{}

/// Tokens spell one list of proofs at most.
pub fn proofs_are_one()
    ensures { IsOne proofs_out part.Proofs }
{}
