//! Each function does nothing: its contract is a law of the grammar's table, that the table's pieces spell what the line
//! as written spells, and write the same for it.
//!
//! `cb_grammar::laws` has the lines of substitutions, processes, formulas, parts, terms, sums and products.

ghost use Rattle.cb_written.specs.Substitutions.{SimpleIsWritten, DomainIsWritten, BoundIsWritten};
ghost use Rattle.cb_written.specs.Texts.{OperationIsWritten, TextIsWritten, WholeIsWritten};
ghost use Rattle.cb_written.specs.Processes.{StepIsWritten};
ghost use Rattle.cb_written.specs.Units.{UnitIsWritten};
ghost use Rattle.cb_written.specs.Proofs.{BeforeProofsIsWritten, OnlyProofsAreWritten, ProofsAreWritten, ObligationIsWritten, NodeIsWritten, RowIsWritten};
ghost use Rattle.cb_written.specs.Controllers.{SystemIsWritten, ChannelsAreWritten, ChannelIsWritten, ControllerIsWritten, DefinitionIsWritten, ParametersAreWritten, ParameterIsWritten};
ghost use Rattle.cb_written.specs.Machines.{MachineIsWritten, NamesIsWritten, SetIsWritten, ConstantsAreWritten, PropertyIsWritten, LiteralIsWritten, StateIsWritten};
ghost use Rattle.cb_written.specs.Terms.{FactorIsWritten, TermsAreWritten};

/// A simple substitution is one of seven, and an IF has its ELSIFs in a row.
pub fn simple_is_written()
    ensures { SimpleIsWritten }
{}

/// A domain is two bounds with `..` between them, or a set's word or name.
pub fn domain_is_written()
    ensures { DomainIsWritten }
{}

/// A bound is a number, a limit or a name, with `-` before it or not.
pub fn bound_is_written()
    ensures { BoundIsWritten }
{}

/// An operation has results, parameters and a precondition, each or not.
pub fn operation_is_written()
    ensures { OperationIsWritten }
{}

/// A text is machines, or machines, channels and controllers with a SYSTEM.
pub fn text_is_written()
    ensures { TextIsWritten }
{}

/// A whole text is a text with its proofs behind it.
pub fn whole_is_written()
    ensures { WholeIsWritten }
{}

/// A step is an event and a step behind `->`, or an item.
pub fn step_is_written()
    ensures { StepIsWritten }
{}

/// A unit is a constant, a negation, a quantified formula, a formula in parentheses, or two terms with a relation's sign
/// between them.
pub fn unit_is_written()
    ensures { UnitIsWritten }
{}

/// What stands before the proofs is a text, together with the first PROOF or the end.
pub fn before_proofs_is_written()
    ensures { BeforeProofsIsWritten }
{}

/// Proofs alone go up to the end of the text.
pub fn only_proofs_are_written()
    ensures { OnlyProofsAreWritten }
{}

/// A SYSTEM names its controllers in their order.
pub fn system_is_written()
    ensures { SystemIsWritten }
{}

/// A machine has what it sees, sets, constants, a state and operations, each or not.
pub fn machine_is_written()
    ensures { MachineIsWritten }
{}

/// Names have commas between them.
pub fn names_are_written()
    ensures { NamesIsWritten }
{}

/// A set is a name with the names of its elements.
pub fn enumerated_set_is_written()
    ensures { SetIsWritten }
{}

/// Constants are names with a property or more, or there are none.
pub fn constants_are_written()
    ensures { ConstantsAreWritten }
{}

/// A property gives a name the value of a literal.
pub fn property_is_written()
    ensures { PropertyIsWritten }
{}

/// A literal is a number with `-` before it or not, or a limit.
pub fn literal_is_written()
    ensures { LiteralIsWritten }
{}

/// A state is variables with an invariant and an initialisation, or there is none.
pub fn state_is_written()
    ensures { StateIsWritten }
{}

/// Channels have semicolons between them.
pub fn channels_are_written()
    ensures { ChannelsAreWritten }
{}

/// A channel has names for its values and a condition, each or not.
pub fn channel_is_written()
    ensures { ChannelIsWritten }
{}

/// A controller has machines, a start and one definition or more.
pub fn controller_is_written()
    ensures { ControllerIsWritten }
{}

/// A definition has parameters and an invariant, each or not.
pub fn definition_is_written()
    ensures { DefinitionIsWritten }
{}

/// Parameters have commas between them.
pub fn parameters_are_written()
    ensures { ParametersAreWritten }
{}

/// A parameter is a name with `:` or `<:` before its domain.
pub fn parameter_is_written()
    ensures { ParameterIsWritten }
{}

/// A factor is a term in parentheses, a word, a negated factor, a counted set, a formula's truth, or a set by its elements.
pub fn factor_is_written()
    ensures { FactorIsWritten }
{}

/// Terms have commas between them.
pub fn terms_are_written()
    ensures { TermsAreWritten }
{}

/// Proofs are any number of them, each with the name of its obligation and a node.
pub fn proofs_are_written()
    ensures { ProofsAreWritten }
{}

/// The name of an obligation is one of seven.
pub fn obligation_is_written()
    ensures { ObligationIsWritten }
{}

/// A node is a rule's word with its arguments and the nodes of its premises.
pub fn node_is_written()
    ensures { NodeIsWritten }
{}

/// A row is a hypothesis with its multiplier, which has `-` before it or not.
pub fn row_is_written()
    ensures { RowIsWritten }
{}
