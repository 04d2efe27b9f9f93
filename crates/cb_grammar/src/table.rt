//! The grammar as data. Written by tools/table.py from tools/cspb.grammar.

use cb_engine::Symbol;

/// The alternatives of the grammar, part by part.
pub static GRAMMAR: [Symbol; 1108] = [
    Symbol::Line(1, 0, false), // whole
    Symbol::Part(4), // whole: text
    Symbol::Part(75), // whole: proofs
    Symbol::Take(3), // whole: finish
    Symbol::Line(2, 0, false), // before_proofs
    Symbol::Part(4), // before_proofs: text
    Symbol::Part(91), // before_proofs: before_proofs_1
    Symbol::Line(3, 0, false), // only_proofs
    Symbol::Part(75), // only_proofs: proofs
    Symbol::Take(3), // only_proofs: finish
    Symbol::Line(4, 0, false), // text
    Symbol::Act(0), // text: @no_machines
    Symbol::Part(92), // text: text_1
    Symbol::Line(5, 4, false), // more_text at MACHINE
    Symbol::Keep(1), // more_text at MACHINE: ^name
    Symbol::Part(93), // more_text at MACHINE: machine_1
    Symbol::Act(9), // more_text at MACHINE: @no_sets
    Symbol::Part(95), // more_text at MACHINE: machine_3
    Symbol::Part(12), // more_text at MACHINE: constants
    Symbol::Part(15), // more_text at MACHINE: state
    Symbol::Act(18), // more_text at MACHINE: @no_operations
    Symbol::Part(97), // more_text at MACHINE: machine_5
    Symbol::Take(13), // more_text at MACHINE: END
    Symbol::Act(6), // more_text at MACHINE: @machine
    Symbol::Act(1), // more_text at MACHINE: @append_machine
    Symbol::Part(5), // more_text at MACHINE: more_text
    Symbol::Line(5, 24, false), // more_text at CHANNELS
    Symbol::Act(40), // more_text at CHANNELS: @no_channels
    Symbol::Part(32), // more_text at CHANNELS: channel
    Symbol::Part(102), // more_text at CHANNELS: channels_1
    Symbol::Take(13), // more_text at CHANNELS: END
    Symbol::Act(3), // more_text at CHANNELS: @no_controllers
    Symbol::Part(34), // more_text at CHANNELS: controller
    Symbol::Act(4), // more_text at CHANNELS: @append_controller
    Symbol::Part(7), // more_text at CHANNELS: more_controllers
    Symbol::Line(5, 25, false), // more_text at CONTROLLER
    Symbol::Act(40), // more_text at CONTROLLER: @no_channels
    Symbol::Act(3), // more_text at CONTROLLER: @no_controllers
    Symbol::Part(35), // more_text at CONTROLLER: controller_rest
    Symbol::Act(4), // more_text at CONTROLLER: @append_controller
    Symbol::Part(7), // more_text at CONTROLLER: more_controllers
    Symbol::Line(5, 0, false), // more_text
    Symbol::Act(2), // more_text: @machines_alone
    Symbol::Line(6, 0, false), // system_text
    Symbol::Part(31), // system_text: channels
    Symbol::Act(3), // system_text: @no_controllers
    Symbol::Part(34), // system_text: controller
    Symbol::Act(4), // system_text: @append_controller
    Symbol::Part(7), // system_text: more_controllers
    Symbol::Line(6, 25, false), // system_text at CONTROLLER
    Symbol::Act(40), // system_text at CONTROLLER: @no_channels
    Symbol::Act(3), // system_text at CONTROLLER: @no_controllers
    Symbol::Part(35), // system_text at CONTROLLER: controller_rest
    Symbol::Act(4), // system_text at CONTROLLER: @append_controller
    Symbol::Part(7), // system_text at CONTROLLER: more_controllers
    Symbol::Line(7, 25, false), // more_controllers at CONTROLLER
    Symbol::Part(35), // more_controllers at CONTROLLER: controller_rest
    Symbol::Act(4), // more_controllers at CONTROLLER: @append_controller
    Symbol::Part(7), // more_controllers at CONTROLLER: more_controllers
    Symbol::Line(7, 0, false), // more_controllers
    Symbol::Part(8), // more_controllers: system
    Symbol::Line(8, 30, false), // system at SYSTEM
    Symbol::Part(10), // system at SYSTEM: names
    Symbol::Take(13), // system at SYSTEM: END
    Symbol::Act(5), // system at SYSTEM: @system
    Symbol::Line(9, 4, false), // machine at MACHINE
    Symbol::Keep(1), // machine at MACHINE: ^name
    Symbol::Part(93), // machine at MACHINE: machine_1
    Symbol::Act(9), // machine at MACHINE: @no_sets
    Symbol::Part(95), // machine at MACHINE: machine_3
    Symbol::Part(12), // machine at MACHINE: constants
    Symbol::Part(15), // machine at MACHINE: state
    Symbol::Act(18), // machine at MACHINE: @no_operations
    Symbol::Part(97), // machine at MACHINE: machine_5
    Symbol::Take(13), // machine at MACHINE: END
    Symbol::Act(6), // machine at MACHINE: @machine
    Symbol::Line(10, 0, false), // names
    Symbol::Act(7), // names: @no_names
    Symbol::Keep(1), // names: ^name
    Symbol::Act(8), // names: @append_name
    Symbol::Part(98), // names: names_1
    Symbol::Line(11, 1, true), // enumerated_set at name
    Symbol::Take(67), // enumerated_set at name: =
    Symbol::Take(78), // enumerated_set at name: {
    Symbol::Part(10), // enumerated_set at name: names
    Symbol::Take(79), // enumerated_set at name: }
    Symbol::Act(10), // enumerated_set at name: @append_set
    Symbol::Line(12, 7, false), // constants at CONSTANTS
    Symbol::Part(10), // constants at CONSTANTS: names
    Symbol::Take(8), // constants at CONSTANTS: PROPERTIES
    Symbol::Act(11), // constants at CONSTANTS: @no_properties
    Symbol::Part(13), // constants at CONSTANTS: property
    Symbol::Part(99), // constants at CONSTANTS: constants_1
    Symbol::Line(12, 0, false), // constants
    Symbol::Act(7), // constants: @no_names
    Symbol::Act(11), // constants: @no_properties
    Symbol::Line(13, 1, true), // property at name
    Symbol::Take(67), // property at name: =
    Symbol::Part(14), // property at name: literal
    Symbol::Act(12), // property at name: @append_property
    Symbol::Line(14, 86, false), // literal at -
    Symbol::Keep(2), // literal at -: ^number
    Symbol::Act(14), // literal at -: @minus_literal
    Symbol::Line(14, 2, true), // literal at number
    Symbol::Act(13), // literal at number: @literal
    Symbol::Line(14, 40, true), // literal at MAXINT
    Symbol::Act(15), // literal at MAXINT: @limit_literal
    Symbol::Line(14, 41, true), // literal at MININT
    Symbol::Act(15), // literal at MININT: @limit_literal
    Symbol::Line(15, 9, false), // state at VARIABLES
    Symbol::Part(10), // state at VARIABLES: names
    Symbol::Take(10), // state at VARIABLES: INVARIANT
    Symbol::Part(47), // state at VARIABLES: formula
    Symbol::Take(11), // state at VARIABLES: INITIALISATION
    Symbol::Part(21), // state at VARIABLES: substitution
    Symbol::Act(17), // state at VARIABLES: @some_state
    Symbol::Line(15, 0, false), // state
    Symbol::Act(16), // state: @no_state
    Symbol::Line(16, 0, false), // operation
    Symbol::Act(7), // operation: @no_names
    Symbol::Keep(1), // operation: ^name
    Symbol::Part(17), // operation: operation_rest
    Symbol::Take(67), // operation: =
    Symbol::Part(20), // operation: body
    Symbol::Act(19), // operation: @append_operation
    Symbol::Line(17, 62, false), // operation_rest at ,
    Symbol::Act(8), // operation_rest at ,: @append_name
    Symbol::Keep(1), // operation_rest at ,: ^name
    Symbol::Act(8), // operation_rest at ,: @append_name
    Symbol::Part(18), // operation_rest at ,: more_results
    Symbol::Take(54), // operation_rest at ,: <--
    Symbol::Keep(1), // operation_rest at ,: ^name
    Symbol::Part(19), // operation_rest at ,: signature
    Symbol::Line(17, 54, false), // operation_rest at <--
    Symbol::Act(8), // operation_rest at <--: @append_name
    Symbol::Keep(1), // operation_rest at <--: ^name
    Symbol::Part(19), // operation_rest at <--: signature
    Symbol::Line(17, 0, false), // operation_rest
    Symbol::Part(19), // operation_rest: signature
    Symbol::Line(18, 62, false), // more_results at ,
    Symbol::Keep(1), // more_results at ,: ^name
    Symbol::Act(8), // more_results at ,: @append_name
    Symbol::Part(18), // more_results at ,: more_results
    Symbol::Line(18, 0, false), // more_results
    Symbol::Line(19, 76, false), // signature at (
    Symbol::Part(10), // signature at (: names
    Symbol::Take(77), // signature at (: )
    Symbol::Line(19, 0, false), // signature
    Symbol::Act(7), // signature: @no_names
    Symbol::Line(20, 14, false), // body at PRE
    Symbol::Part(47), // body at PRE: formula
    Symbol::Act(20), // body at PRE: @some_condition
    Symbol::Take(15), // body at PRE: THEN
    Symbol::Part(21), // body at PRE: substitution
    Symbol::Take(13), // body at PRE: END
    Symbol::Line(20, 0, false), // body
    Symbol::Act(21), // body: @no_condition
    Symbol::Part(21), // body: substitution
    Symbol::Line(21, 0, false), // substitution
    Symbol::Part(22), // substitution: simple
    Symbol::Part(100), // substitution: substitution_1
    Symbol::Line(22, 42, false), // simple at skip
    Symbol::Act(23), // simple at skip: @skip
    Symbol::Line(22, 1, true), // simple at name
    Symbol::Part(23), // simple at name: simple_rest
    Symbol::Line(22, 23, false), // simple at BEGIN
    Symbol::Part(21), // simple at BEGIN: substitution
    Symbol::Take(13), // simple at BEGIN: END
    Symbol::Line(22, 16, false), // simple at IF
    Symbol::Part(47), // simple at IF: formula
    Symbol::Take(15), // simple at IF: THEN
    Symbol::Part(21), // simple at IF: substitution
    Symbol::Part(24), // simple at IF: if_rest
    Symbol::Line(22, 19, false), // simple at CHOICE
    Symbol::Act(28), // simple at CHOICE: @no_sides
    Symbol::Part(21), // simple at CHOICE: substitution
    Symbol::Act(29), // simple at CHOICE: @append_side
    Symbol::Take(20), // simple at CHOICE: OR
    Symbol::Part(21), // simple at CHOICE: substitution
    Symbol::Act(29), // simple at CHOICE: @append_side
    Symbol::Part(101), // simple at CHOICE: simple_1
    Symbol::Take(13), // simple at CHOICE: END
    Symbol::Act(30), // simple at CHOICE: @choice
    Symbol::Line(22, 21, false), // simple at ANY
    Symbol::Keep(1), // simple at ANY: ^name
    Symbol::Take(22), // simple at ANY: WHERE
    Symbol::Part(47), // simple at ANY: formula
    Symbol::Take(15), // simple at ANY: THEN
    Symbol::Part(21), // simple at ANY: substitution
    Symbol::Take(13), // simple at ANY: END
    Symbol::Act(31), // simple at ANY: @any
    Symbol::Line(23, 51, false), // simple_rest at :=
    Symbol::Part(62), // simple_rest at :=: term
    Symbol::Act(24), // simple_rest at :=: @assign
    Symbol::Line(23, 52, false), // simple_rest at ::
    Symbol::Part(25), // simple_rest at ::: domain
    Symbol::Act(25), // simple_rest at ::: @among
    Symbol::Line(24, 17, false), // if_rest at ELSIF
    Symbol::Part(47), // if_rest at ELSIF: formula
    Symbol::Take(15), // if_rest at ELSIF: THEN
    Symbol::Part(21), // if_rest at ELSIF: substitution
    Symbol::Part(24), // if_rest at ELSIF: if_rest
    Symbol::Act(26), // if_rest at ELSIF: @if
    Symbol::Line(24, 18, false), // if_rest at ELSE
    Symbol::Part(21), // if_rest at ELSE: substitution
    Symbol::Take(13), // if_rest at ELSE: END
    Symbol::Act(26), // if_rest at ELSE: @if
    Symbol::Line(24, 13, false), // if_rest at END
    Symbol::Act(27), // if_rest at END: @if_without_else
    Symbol::Line(25, 37, true), // domain at NAT
    Symbol::Act(33), // domain at NAT: @set_domain
    Symbol::Line(25, 38, true), // domain at NAT1
    Symbol::Act(33), // domain at NAT1: @set_domain
    Symbol::Line(25, 39, true), // domain at INT
    Symbol::Act(33), // domain at INT: @set_domain
    Symbol::Line(25, 36, true), // domain at BOOL
    Symbol::Act(33), // domain at BOOL: @set_domain
    Symbol::Line(25, 1, true), // domain at name
    Symbol::Part(26), // domain at name: domain_rest
    Symbol::Line(25, 0, false), // domain
    Symbol::Part(27), // domain: other_bound
    Symbol::Take(60), // domain: ..
    Symbol::Part(28), // domain: bound
    Symbol::Act(34), // domain: @range
    Symbol::Line(26, 60, false), // domain_rest at ..
    Symbol::Act(39), // domain_rest at ..: @name_end
    Symbol::Act(35), // domain_rest at ..: @bound
    Symbol::Part(28), // domain_rest at ..: bound
    Symbol::Act(34), // domain_rest at ..: @range
    Symbol::Line(26, 0, false), // domain_rest
    Symbol::Act(32), // domain_rest: @named_domain
    Symbol::Line(27, 86, false), // other_bound at -
    Symbol::Part(29), // other_bound at -: end
    Symbol::Act(36), // other_bound at -: @minus_bound
    Symbol::Line(27, 0, false), // other_bound
    Symbol::Part(30), // other_bound: other_end
    Symbol::Act(35), // other_bound: @bound
    Symbol::Line(28, 86, false), // bound at -
    Symbol::Part(29), // bound at -: end
    Symbol::Act(36), // bound at -: @minus_bound
    Symbol::Line(28, 0, false), // bound
    Symbol::Part(29), // bound: end
    Symbol::Act(35), // bound: @bound
    Symbol::Line(29, 0, false), // end
    Symbol::Part(30), // end: other_end
    Symbol::Line(29, 1, true), // end at name
    Symbol::Act(39), // end at name: @name_end
    Symbol::Line(30, 2, true), // other_end at number
    Symbol::Act(37), // other_end at number: @number_end
    Symbol::Line(30, 40, true), // other_end at MAXINT
    Symbol::Act(38), // other_end at MAXINT: @limit_end
    Symbol::Line(30, 41, true), // other_end at MININT
    Symbol::Act(38), // other_end at MININT: @limit_end
    Symbol::Line(31, 24, false), // channels at CHANNELS
    Symbol::Act(40), // channels at CHANNELS: @no_channels
    Symbol::Part(32), // channels at CHANNELS: channel
    Symbol::Part(102), // channels at CHANNELS: channels_1
    Symbol::Take(13), // channels at CHANNELS: END
    Symbol::Line(32, 1, true), // channel at name
    Symbol::Take(76), // channel at name: (
    Symbol::Part(33), // channel at name: names_end
    Symbol::Part(103), // channel at name: channel_1
    Symbol::Act(41), // channel at name: @append_channel
    Symbol::Line(33, 77, false), // names_end at )
    Symbol::Act(7), // names_end at ): @no_names
    Symbol::Line(33, 0, false), // names_end
    Symbol::Part(10), // names_end: names
    Symbol::Take(77), // names_end: )
    Symbol::Line(34, 25, false), // controller at CONTROLLER
    Symbol::Part(35), // controller at CONTROLLER: controller_rest
    Symbol::Line(35, 1, true), // controller_rest at name
    Symbol::Part(104), // controller_rest at name: controller_rest_1
    Symbol::Take(27), // controller_rest at name: START
    Symbol::Keep(1), // controller_rest at name: ^name
    Symbol::Act(71), // controller_rest at name: @no_terms
    Symbol::Part(105), // controller_rest at name: controller_rest_2
    Symbol::Take(28), // controller_rest at name: PROCESSES
    Symbol::Act(47), // controller_rest at name: @no_definitions
    Symbol::Part(36), // controller_rest at name: definition
    Symbol::Part(106), // controller_rest at name: controller_rest_3
    Symbol::Take(13), // controller_rest at name: END
    Symbol::Act(42), // controller_rest at name: @controller
    Symbol::Line(36, 1, true), // definition at name
    Symbol::Act(43), // definition at name: @no_parameters
    Symbol::Part(107), // definition at name: definition_1
    Symbol::Part(108), // definition at name: definition_2
    Symbol::Take(67), // definition at name: =
    Symbol::Part(39), // definition at name: process
    Symbol::Act(48), // definition at name: @append_definition
    Symbol::Line(37, 0, false), // parameters
    Symbol::Part(38), // parameters: parameter
    Symbol::Act(44), // parameters: @append_parameter
    Symbol::Part(109), // parameters: parameters_1
    Symbol::Line(38, 1, true), // parameter at name
    Symbol::Part(110), // parameter at name: parameter_1
    Symbol::Line(39, 0, false), // process
    Symbol::Part(43), // process: step
    Symbol::Part(40), // process: process_tail
    Symbol::Line(40, 82, false), // process_tail at []
    Symbol::Part(43), // process_tail at []: step
    Symbol::Act(49), // process_tail at []: @first_two
    Symbol::Part(41), // process_tail at []: more_external
    Symbol::Act(51), // process_tail at []: @external
    Symbol::Line(40, 83, false), // process_tail at |~|
    Symbol::Part(43), // process_tail at |~|: step
    Symbol::Act(49), // process_tail at |~|: @first_two
    Symbol::Part(42), // process_tail at |~|: more_internal
    Symbol::Act(52), // process_tail at |~|: @internal
    Symbol::Line(40, 0, false), // process_tail
    Symbol::Line(41, 82, false), // more_external at []
    Symbol::Part(43), // more_external at []: step
    Symbol::Act(50), // more_external at []: @append_process
    Symbol::Part(41), // more_external at []: more_external
    Symbol::Line(41, 0, false), // more_external
    Symbol::Line(42, 83, false), // more_internal at |~|
    Symbol::Part(43), // more_internal at |~|: step
    Symbol::Act(50), // more_internal at |~|: @append_process
    Symbol::Part(42), // more_internal at |~|: more_internal
    Symbol::Line(42, 0, false), // more_internal
    Symbol::Line(43, 32, true), // step at STOP
    Symbol::Act(53), // step at STOP: @stop
    Symbol::Line(43, 33, true), // step at SKIP
    Symbol::Act(54), // step at SKIP: @skip_process
    Symbol::Line(43, 76, false), // step at (
    Symbol::Part(39), // step at (: process
    Symbol::Take(77), // step at (: )
    Symbol::Line(43, 16, true), // step at IF
    Symbol::Part(47), // step at IF: formula
    Symbol::Take(15), // step at IF: THEN
    Symbol::Part(39), // step at IF: process
    Symbol::Take(18), // step at IF: ELSE
    Symbol::Part(39), // step at IF: process
    Symbol::Take(13), // step at IF: END
    Symbol::Act(55), // step at IF: @process_if
    Symbol::Line(43, 1, true), // step at name
    Symbol::Part(44), // step at name: step_rest
    Symbol::Line(44, 73, false), // step_rest at !
    Symbol::Take(76), // step_rest at !: (
    Symbol::Act(71), // step_rest at !: @no_terms
    Symbol::Part(45), // step_rest at !: terms_end
    Symbol::Part(46), // step_rest at !: guard
    Symbol::Act(58), // step_rest at !: @output
    Symbol::Take(84), // step_rest at !: ->
    Symbol::Part(43), // step_rest at !: step
    Symbol::Act(57), // step_rest at !: @prefix
    Symbol::Line(44, 74, false), // step_rest at ?
    Symbol::Take(76), // step_rest at ?: (
    Symbol::Part(33), // step_rest at ?: names_end
    Symbol::Part(46), // step_rest at ?: guard
    Symbol::Act(59), // step_rest at ?: @input
    Symbol::Take(84), // step_rest at ?: ->
    Symbol::Part(43), // step_rest at ?: step
    Symbol::Act(57), // step_rest at ?: @prefix
    Symbol::Line(44, 61, false), // step_rest at .
    Symbol::Keep(1), // step_rest at .: ^name
    Symbol::Act(71), // step_rest at .: @no_terms
    Symbol::Part(111), // step_rest at .: step_rest_1
    Symbol::Part(112), // step_rest at .: step_rest_2
    Symbol::Act(60), // step_rest at .: @operation_call
    Symbol::Take(84), // step_rest at .: ->
    Symbol::Part(43), // step_rest at .: step
    Symbol::Act(57), // step_rest at .: @prefix
    Symbol::Line(44, 76, false), // step_rest at (
    Symbol::Act(71), // step_rest at (: @no_terms
    Symbol::Part(74), // step_rest at (: terms
    Symbol::Take(77), // step_rest at (: )
    Symbol::Act(56), // step_rest at (: @call
    Symbol::Line(44, 0, false), // step_rest
    Symbol::Act(71), // step_rest: @no_terms
    Symbol::Act(56), // step_rest: @call
    Symbol::Line(45, 77, false), // terms_end at )
    Symbol::Line(45, 0, false), // terms_end
    Symbol::Part(74), // terms_end: terms
    Symbol::Take(77), // terms_end: )
    Symbol::Line(46, 78, false), // guard at {
    Symbol::Part(47), // guard at {: formula
    Symbol::Take(79), // guard at {: }
    Symbol::Act(20), // guard at {: @some_condition
    Symbol::Line(46, 0, false), // guard
    Symbol::Act(21), // guard: @no_condition
    Symbol::Line(47, 0, false), // formula
    Symbol::Part(54), // formula: unit
    Symbol::Part(48), // formula: formula_tail
    Symbol::Line(48, 64, false), // formula_tail at &
    Symbol::Part(54), // formula_tail at &: unit
    Symbol::Act(64), // formula_tail at &: @and
    Symbol::Part(49), // formula_tail at &: and_tail
    Symbol::Part(51), // formula_tail at &: implies_tail
    Symbol::Line(48, 44, false), // formula_tail at or
    Symbol::Part(54), // formula_tail at or: unit
    Symbol::Act(65), // formula_tail at or: @or
    Symbol::Part(50), // formula_tail at or: or_tail
    Symbol::Part(51), // formula_tail at or: implies_tail
    Symbol::Line(48, 65, false), // formula_tail at =>
    Symbol::Part(52), // formula_tail at =>: part
    Symbol::Act(66), // formula_tail at =>: @implies
    Symbol::Line(48, 66, false), // formula_tail at <=>
    Symbol::Part(54), // formula_tail at <=>: unit
    Symbol::Act(67), // formula_tail at <=>: @equivalent
    Symbol::Line(48, 0, false), // formula_tail
    Symbol::Line(49, 64, false), // and_tail at &
    Symbol::Part(54), // and_tail at &: unit
    Symbol::Act(64), // and_tail at &: @and
    Symbol::Part(49), // and_tail at &: and_tail
    Symbol::Line(49, 0, false), // and_tail
    Symbol::Line(50, 44, false), // or_tail at or
    Symbol::Part(54), // or_tail at or: unit
    Symbol::Act(65), // or_tail at or: @or
    Symbol::Part(50), // or_tail at or: or_tail
    Symbol::Line(50, 0, false), // or_tail
    Symbol::Line(51, 65, false), // implies_tail at =>
    Symbol::Part(52), // implies_tail at =>: part
    Symbol::Act(66), // implies_tail at =>: @implies
    Symbol::Line(51, 0, false), // implies_tail
    Symbol::Line(52, 0, false), // part
    Symbol::Part(54), // part: unit
    Symbol::Part(53), // part: part_tail
    Symbol::Line(53, 64, false), // part_tail at &
    Symbol::Part(54), // part_tail at &: unit
    Symbol::Act(64), // part_tail at &: @and
    Symbol::Part(49), // part_tail at &: and_tail
    Symbol::Line(53, 44, false), // part_tail at or
    Symbol::Part(54), // part_tail at or: unit
    Symbol::Act(65), // part_tail at or: @or
    Symbol::Part(50), // part_tail at or: or_tail
    Symbol::Line(53, 0, false), // part_tail
    Symbol::Line(54, 49, false), // unit at btrue
    Symbol::Act(61), // unit at btrue: @always_true
    Symbol::Line(54, 50, false), // unit at bfalse
    Symbol::Act(62), // unit at bfalse: @always_false
    Symbol::Line(54, 45, false), // unit at not
    Symbol::Take(76), // unit at not: (
    Symbol::Part(47), // unit at not: formula
    Symbol::Take(77), // unit at not: )
    Symbol::Act(63), // unit at not: @not
    Symbol::Line(54, 73, false), // unit at !
    Symbol::Keep(1), // unit at !: ^name
    Symbol::Take(61), // unit at !: .
    Symbol::Take(76), // unit at !: (
    Symbol::Part(52), // unit at !: part
    Symbol::Take(65), // unit at !: =>
    Symbol::Part(52), // unit at !: part
    Symbol::Take(77), // unit at !: )
    Symbol::Act(68), // unit at !: @for_all
    Symbol::Line(54, 75, false), // unit at #
    Symbol::Keep(1), // unit at #: ^name
    Symbol::Take(61), // unit at #: .
    Symbol::Take(76), // unit at #: (
    Symbol::Part(52), // unit at #: part
    Symbol::Take(77), // unit at #: )
    Symbol::Act(69), // unit at #: @exists
    Symbol::Line(54, 76, false), // unit at (
    Symbol::Part(58), // unit at (: formula_or_term
    Symbol::Then(56, 57), // unit at (: then(after_formula, after_term)
    Symbol::Line(54, 0, false), // unit
    Symbol::Part(72), // unit: factor_start
    Symbol::Part(63), // unit: term_tail
    Symbol::Part(55), // unit: relation
    Symbol::Line(55, 67, true), // relation at =
    Symbol::Part(62), // relation at =: term
    Symbol::Act(70), // relation at =: @relation
    Symbol::Line(55, 68, true), // relation at /=
    Symbol::Part(62), // relation at /=: term
    Symbol::Act(70), // relation at /=: @relation
    Symbol::Line(55, 69, true), // relation at <
    Symbol::Part(62), // relation at <: term
    Symbol::Act(70), // relation at <: @relation
    Symbol::Line(55, 70, true), // relation at <=
    Symbol::Part(62), // relation at <=: term
    Symbol::Act(70), // relation at <=: @relation
    Symbol::Line(55, 71, true), // relation at >
    Symbol::Part(62), // relation at >: term
    Symbol::Act(70), // relation at >: @relation
    Symbol::Line(55, 72, true), // relation at >=
    Symbol::Part(62), // relation at >=: term
    Symbol::Act(70), // relation at >=: @relation
    Symbol::Line(55, 55, true), // relation at :
    Symbol::Part(62), // relation at :: term
    Symbol::Act(70), // relation at :: @relation
    Symbol::Line(55, 56, true), // relation at /:
    Symbol::Part(62), // relation at /:: term
    Symbol::Act(70), // relation at /:: @relation
    Symbol::Line(55, 57, true), // relation at <:
    Symbol::Part(62), // relation at <:: term
    Symbol::Act(70), // relation at <:: @relation
    Symbol::Line(56, 77, false), // after_formula at )
    Symbol::Line(57, 77, false), // after_term at )
    Symbol::Part(63), // after_term at ): term_tail
    Symbol::Part(55), // after_term at ): relation
    Symbol::Line(58, 49, false), // formula_or_term at btrue
    Symbol::Act(61), // formula_or_term at btrue: @always_true
    Symbol::Part(48), // formula_or_term at btrue: formula_tail
    Symbol::Gives(0), // formula_or_term at btrue: gives 0
    Symbol::Line(58, 50, false), // formula_or_term at bfalse
    Symbol::Act(62), // formula_or_term at bfalse: @always_false
    Symbol::Part(48), // formula_or_term at bfalse: formula_tail
    Symbol::Gives(0), // formula_or_term at bfalse: gives 0
    Symbol::Line(58, 45, false), // formula_or_term at not
    Symbol::Take(76), // formula_or_term at not: (
    Symbol::Part(47), // formula_or_term at not: formula
    Symbol::Take(77), // formula_or_term at not: )
    Symbol::Act(63), // formula_or_term at not: @not
    Symbol::Part(48), // formula_or_term at not: formula_tail
    Symbol::Gives(0), // formula_or_term at not: gives 0
    Symbol::Line(58, 73, false), // formula_or_term at !
    Symbol::Keep(1), // formula_or_term at !: ^name
    Symbol::Take(61), // formula_or_term at !: .
    Symbol::Take(76), // formula_or_term at !: (
    Symbol::Part(52), // formula_or_term at !: part
    Symbol::Take(65), // formula_or_term at !: =>
    Symbol::Part(52), // formula_or_term at !: part
    Symbol::Take(77), // formula_or_term at !: )
    Symbol::Act(68), // formula_or_term at !: @for_all
    Symbol::Part(48), // formula_or_term at !: formula_tail
    Symbol::Gives(0), // formula_or_term at !: gives 0
    Symbol::Line(58, 75, false), // formula_or_term at #
    Symbol::Keep(1), // formula_or_term at #: ^name
    Symbol::Take(61), // formula_or_term at #: .
    Symbol::Take(76), // formula_or_term at #: (
    Symbol::Part(52), // formula_or_term at #: part
    Symbol::Take(77), // formula_or_term at #: )
    Symbol::Act(69), // formula_or_term at #: @exists
    Symbol::Part(48), // formula_or_term at #: formula_tail
    Symbol::Gives(0), // formula_or_term at #: gives 0
    Symbol::Line(58, 76, false), // formula_or_term at (
    Symbol::Part(58), // formula_or_term at (: formula_or_term
    Symbol::Then(59, 60), // formula_or_term at (: then(inside_formula, inside_term)
    Symbol::Line(58, 0, false), // formula_or_term
    Symbol::Part(72), // formula_or_term: factor_start
    Symbol::Part(63), // formula_or_term: term_tail
    Symbol::Part(61), // formula_or_term: relation_or_none
    Symbol::Line(59, 77, false), // inside_formula at )
    Symbol::Part(48), // inside_formula at ): formula_tail
    Symbol::Gives(0), // inside_formula at ): gives 0
    Symbol::Line(60, 77, false), // inside_term at )
    Symbol::Part(63), // inside_term at ): term_tail
    Symbol::Part(61), // inside_term at ): relation_or_none
    Symbol::Line(61, 67, true), // relation_or_none at =
    Symbol::Part(62), // relation_or_none at =: term
    Symbol::Act(70), // relation_or_none at =: @relation
    Symbol::Part(48), // relation_or_none at =: formula_tail
    Symbol::Gives(0), // relation_or_none at =: gives 0
    Symbol::Line(61, 68, true), // relation_or_none at /=
    Symbol::Part(62), // relation_or_none at /=: term
    Symbol::Act(70), // relation_or_none at /=: @relation
    Symbol::Part(48), // relation_or_none at /=: formula_tail
    Symbol::Gives(0), // relation_or_none at /=: gives 0
    Symbol::Line(61, 69, true), // relation_or_none at <
    Symbol::Part(62), // relation_or_none at <: term
    Symbol::Act(70), // relation_or_none at <: @relation
    Symbol::Part(48), // relation_or_none at <: formula_tail
    Symbol::Gives(0), // relation_or_none at <: gives 0
    Symbol::Line(61, 70, true), // relation_or_none at <=
    Symbol::Part(62), // relation_or_none at <=: term
    Symbol::Act(70), // relation_or_none at <=: @relation
    Symbol::Part(48), // relation_or_none at <=: formula_tail
    Symbol::Gives(0), // relation_or_none at <=: gives 0
    Symbol::Line(61, 71, true), // relation_or_none at >
    Symbol::Part(62), // relation_or_none at >: term
    Symbol::Act(70), // relation_or_none at >: @relation
    Symbol::Part(48), // relation_or_none at >: formula_tail
    Symbol::Gives(0), // relation_or_none at >: gives 0
    Symbol::Line(61, 72, true), // relation_or_none at >=
    Symbol::Part(62), // relation_or_none at >=: term
    Symbol::Act(70), // relation_or_none at >=: @relation
    Symbol::Part(48), // relation_or_none at >=: formula_tail
    Symbol::Gives(0), // relation_or_none at >=: gives 0
    Symbol::Line(61, 55, true), // relation_or_none at :
    Symbol::Part(62), // relation_or_none at :: term
    Symbol::Act(70), // relation_or_none at :: @relation
    Symbol::Part(48), // relation_or_none at :: formula_tail
    Symbol::Gives(0), // relation_or_none at :: gives 0
    Symbol::Line(61, 56, true), // relation_or_none at /:
    Symbol::Part(62), // relation_or_none at /:: term
    Symbol::Act(70), // relation_or_none at /:: @relation
    Symbol::Part(48), // relation_or_none at /:: formula_tail
    Symbol::Gives(0), // relation_or_none at /:: gives 0
    Symbol::Line(61, 57, true), // relation_or_none at <:
    Symbol::Part(62), // relation_or_none at <:: term
    Symbol::Act(70), // relation_or_none at <:: @relation
    Symbol::Part(48), // relation_or_none at <:: formula_tail
    Symbol::Gives(0), // relation_or_none at <:: gives 0
    Symbol::Line(61, 0, false), // relation_or_none
    Symbol::Gives(1), // relation_or_none: gives 1
    Symbol::Line(62, 0, false), // term
    Symbol::Part(71), // term: factor
    Symbol::Part(63), // term: term_tail
    Symbol::Line(63, 60, true), // term_tail at ..
    Symbol::Part(69), // term_tail at ..: sum
    Symbol::Act(79), // term_tail at ..: @binary
    Symbol::Line(63, 58, true), // term_tail at \/
    Symbol::Part(71), // term_tail at \/: factor
    Symbol::Act(79), // term_tail at \/: @binary
    Symbol::Part(64), // term_tail at \/: union_tail
    Symbol::Line(63, 59, true), // term_tail at /\
    Symbol::Part(71), // term_tail at /\: factor
    Symbol::Act(79), // term_tail at /\: @binary
    Symbol::Part(65), // term_tail at /\: intersection_tail
    Symbol::Line(63, 87, true), // term_tail at *
    Symbol::Part(71), // term_tail at *: factor
    Symbol::Act(79), // term_tail at *: @binary
    Symbol::Part(66), // term_tail at *: product_tail
    Symbol::Part(67), // term_tail at *: sum_tail
    Symbol::Part(68), // term_tail at *: range_tail
    Symbol::Line(63, 88, true), // term_tail at /
    Symbol::Part(71), // term_tail at /: factor
    Symbol::Act(79), // term_tail at /: @binary
    Symbol::Part(66), // term_tail at /: product_tail
    Symbol::Part(67), // term_tail at /: sum_tail
    Symbol::Part(68), // term_tail at /: range_tail
    Symbol::Line(63, 46, true), // term_tail at mod
    Symbol::Part(71), // term_tail at mod: factor
    Symbol::Act(79), // term_tail at mod: @binary
    Symbol::Part(66), // term_tail at mod: product_tail
    Symbol::Part(67), // term_tail at mod: sum_tail
    Symbol::Part(68), // term_tail at mod: range_tail
    Symbol::Line(63, 85, true), // term_tail at +
    Symbol::Part(70), // term_tail at +: product
    Symbol::Act(79), // term_tail at +: @binary
    Symbol::Part(67), // term_tail at +: sum_tail
    Symbol::Part(68), // term_tail at +: range_tail
    Symbol::Line(63, 86, true), // term_tail at -
    Symbol::Part(70), // term_tail at -: product
    Symbol::Act(80), // term_tail at -: @subtract
    Symbol::Part(67), // term_tail at -: sum_tail
    Symbol::Part(68), // term_tail at -: range_tail
    Symbol::Line(63, 0, false), // term_tail
    Symbol::Line(64, 58, true), // union_tail at \/
    Symbol::Part(71), // union_tail at \/: factor
    Symbol::Act(79), // union_tail at \/: @binary
    Symbol::Part(64), // union_tail at \/: union_tail
    Symbol::Line(64, 0, false), // union_tail
    Symbol::Line(65, 59, true), // intersection_tail at /\
    Symbol::Part(71), // intersection_tail at /\: factor
    Symbol::Act(79), // intersection_tail at /\: @binary
    Symbol::Part(65), // intersection_tail at /\: intersection_tail
    Symbol::Line(65, 0, false), // intersection_tail
    Symbol::Line(66, 87, true), // product_tail at *
    Symbol::Part(71), // product_tail at *: factor
    Symbol::Act(79), // product_tail at *: @binary
    Symbol::Part(66), // product_tail at *: product_tail
    Symbol::Line(66, 88, true), // product_tail at /
    Symbol::Part(71), // product_tail at /: factor
    Symbol::Act(79), // product_tail at /: @binary
    Symbol::Part(66), // product_tail at /: product_tail
    Symbol::Line(66, 46, true), // product_tail at mod
    Symbol::Part(71), // product_tail at mod: factor
    Symbol::Act(79), // product_tail at mod: @binary
    Symbol::Part(66), // product_tail at mod: product_tail
    Symbol::Line(66, 0, false), // product_tail
    Symbol::Line(67, 85, true), // sum_tail at +
    Symbol::Part(70), // sum_tail at +: product
    Symbol::Act(79), // sum_tail at +: @binary
    Symbol::Part(67), // sum_tail at +: sum_tail
    Symbol::Line(67, 86, true), // sum_tail at -
    Symbol::Part(70), // sum_tail at -: product
    Symbol::Act(80), // sum_tail at -: @subtract
    Symbol::Part(67), // sum_tail at -: sum_tail
    Symbol::Line(67, 0, false), // sum_tail
    Symbol::Line(68, 60, true), // range_tail at ..
    Symbol::Part(69), // range_tail at ..: sum
    Symbol::Act(79), // range_tail at ..: @binary
    Symbol::Line(68, 0, false), // range_tail
    Symbol::Line(69, 0, false), // sum
    Symbol::Part(70), // sum: product
    Symbol::Part(67), // sum: sum_tail
    Symbol::Line(70, 0, false), // product
    Symbol::Part(71), // product: factor
    Symbol::Part(66), // product: product_tail
    Symbol::Line(71, 76, false), // factor at (
    Symbol::Part(62), // factor at (: term
    Symbol::Take(77), // factor at (: )
    Symbol::Line(71, 0, false), // factor
    Symbol::Part(72), // factor: factor_start
    Symbol::Line(72, 1, true), // factor_start at name
    Symbol::Act(73), // factor_start at name: @name_term
    Symbol::Line(72, 2, true), // factor_start at number
    Symbol::Act(74), // factor_start at number: @number_term
    Symbol::Line(72, 34, true), // factor_start at TRUE
    Symbol::Act(75), // factor_start at TRUE: @truth_term
    Symbol::Line(72, 35, true), // factor_start at FALSE
    Symbol::Act(75), // factor_start at FALSE: @truth_term
    Symbol::Line(72, 40, true), // factor_start at MAXINT
    Symbol::Act(76), // factor_start at MAXINT: @limit_term
    Symbol::Line(72, 41, true), // factor_start at MININT
    Symbol::Act(76), // factor_start at MININT: @limit_term
    Symbol::Line(72, 37, true), // factor_start at NAT
    Symbol::Act(77), // factor_start at NAT: @set_term
    Symbol::Line(72, 38, true), // factor_start at NAT1
    Symbol::Act(77), // factor_start at NAT1: @set_term
    Symbol::Line(72, 39, true), // factor_start at INT
    Symbol::Act(77), // factor_start at INT: @set_term
    Symbol::Line(72, 36, true), // factor_start at BOOL
    Symbol::Act(77), // factor_start at BOOL: @set_term
    Symbol::Line(72, 86, true), // factor_start at -
    Symbol::Part(71), // factor_start at -: factor
    Symbol::Act(78), // factor_start at -: @minus
    Symbol::Line(72, 47, true), // factor_start at card
    Symbol::Take(76), // factor_start at card: (
    Symbol::Part(62), // factor_start at card: term
    Symbol::Take(77), // factor_start at card: )
    Symbol::Act(81), // factor_start at card: @card
    Symbol::Line(72, 48, true), // factor_start at bool
    Symbol::Take(76), // factor_start at bool: (
    Symbol::Part(47), // factor_start at bool: formula
    Symbol::Take(77), // factor_start at bool: )
    Symbol::Act(82), // factor_start at bool: @bool
    Symbol::Line(72, 78, true), // factor_start at {
    Symbol::Act(71), // factor_start at {: @no_terms
    Symbol::Part(73), // factor_start at {: set_end
    Symbol::Act(83), // factor_start at {: @listed
    Symbol::Line(73, 79, false), // set_end at }
    Symbol::Line(73, 0, false), // set_end
    Symbol::Part(74), // set_end: terms
    Symbol::Take(79), // set_end: }
    Symbol::Line(74, 0, false), // terms
    Symbol::Part(62), // terms: term
    Symbol::Act(72), // terms: @append_term
    Symbol::Part(113), // terms: terms_1
    Symbol::Line(75, 0, false), // proofs
    Symbol::Act(84), // proofs: @no_proofs
    Symbol::Part(114), // proofs: proofs_1
    Symbol::Line(76, 128, true), // obligation at INIT
    Symbol::Take(55), // obligation at INIT: :
    Symbol::Keep(1), // obligation at INIT: ^name
    Symbol::Take(55), // obligation at INIT: :
    Symbol::Keep(2), // obligation at INIT: ^number
    Symbol::Act(86), // obligation at INIT: @obligation_of_owner
    Symbol::Line(76, 27, true), // obligation at START
    Symbol::Take(55), // obligation at START: :
    Symbol::Keep(1), // obligation at START: ^name
    Symbol::Take(55), // obligation at START: :
    Symbol::Keep(2), // obligation at START: ^number
    Symbol::Act(87), // obligation at START: @obligation_of_start
    Symbol::Line(76, 129, true), // obligation at OP
    Symbol::Part(77), // obligation at OP: of_part
    Symbol::Line(76, 130, true), // obligation at LOOP
    Symbol::Part(77), // obligation at LOOP: of_part
    Symbol::Line(76, 131, true), // obligation at MATCH
    Symbol::Part(77), // obligation at MATCH: of_part
    Symbol::Line(76, 132, true), // obligation at LIVE
    Symbol::Take(55), // obligation at LIVE: :
    Symbol::Keep(1), // obligation at LIVE: ^name
    Symbol::Take(55), // obligation at LIVE: :
    Symbol::Part(115), // obligation at LIVE: obligation_1
    Symbol::Line(77, 55, false), // of_part at :
    Symbol::Keep(1), // of_part at :: ^name
    Symbol::Take(55), // of_part at :: :
    Symbol::Keep(1), // of_part at :: ^name
    Symbol::Take(55), // of_part at :: :
    Symbol::Keep(2), // of_part at :: ^number
    Symbol::Act(88), // of_part at :: @obligation_of_part
    Symbol::Line(78, 133, true), // node at HYP
    Symbol::Keep(2), // node at HYP: ^number
    Symbol::Act(90), // node at HYP: @no_nodes
    Symbol::Act(97), // node at HYP: @rule_hypothesis
    Symbol::Line(78, 134, true), // node at CONTRA
    Symbol::Keep(2), // node at CONTRA: ^number
    Symbol::Keep(2), // node at CONTRA: ^number
    Symbol::Act(90), // node at CONTRA: @no_nodes
    Symbol::Act(98), // node at CONTRA: @rule_two_hypotheses
    Symbol::Line(78, 135, true), // node at EVAL
    Symbol::Part(79), // node at EVAL: no_premise
    Symbol::Line(78, 136, true), // node at EVALNOT
    Symbol::Keep(2), // node at EVALNOT: ^number
    Symbol::Act(90), // node at EVALNOT: @no_nodes
    Symbol::Act(97), // node at EVALNOT: @rule_hypothesis
    Symbol::Line(78, 137, true), // node at REFL
    Symbol::Part(79), // node at REFL: no_premise
    Symbol::Line(78, 138, true), // node at LIN
    Symbol::Take(80), // node at LIN: [
    Symbol::Act(92), // node at LIN: @no_rows
    Symbol::Part(90), // node at LIN: row
    Symbol::Act(93), // node at LIN: @append_row
    Symbol::Part(116), // node at LIN: node_1
    Symbol::Take(81), // node at LIN: ]
    Symbol::Act(90), // node at LIN: @no_nodes
    Symbol::Act(99), // node at LIN: @rule_rows
    Symbol::Line(78, 139, true), // node at CUT
    Symbol::Take(80), // node at CUT: [
    Symbol::Part(47), // node at CUT: formula
    Symbol::Take(81), // node at CUT: ]
    Symbol::Part(87), // node at CUT: two_nodes
    Symbol::Act(100), // node at CUT: @rule_formula
    Symbol::Line(78, 140, true), // node at CASES
    Symbol::Take(80), // node at CASES: [
    Symbol::Part(47), // node at CASES: formula
    Symbol::Take(81), // node at CASES: ]
    Symbol::Part(87), // node at CASES: two_nodes
    Symbol::Act(100), // node at CASES: @rule_formula
    Symbol::Line(78, 141, true), // node at ANDR
    Symbol::Part(81), // node at ANDR: two_premises
    Symbol::Line(78, 142, true), // node at OR1
    Symbol::Part(80), // node at OR1: one_premise
    Symbol::Line(78, 143, true), // node at OR2
    Symbol::Part(80), // node at OR2: one_premise
    Symbol::Line(78, 144, true), // node at IMPR
    Symbol::Part(80), // node at IMPR: one_premise
    Symbol::Line(78, 145, true), // node at NOTR
    Symbol::Part(80), // node at NOTR: one_premise
    Symbol::Line(78, 146, true), // node at IFFR
    Symbol::Part(81), // node at IFFR: two_premises
    Symbol::Line(78, 147, true), // node at ALLR
    Symbol::Part(80), // node at ALLR: one_premise
    Symbol::Line(78, 148, true), // node at EXR
    Symbol::Part(84), // node at EXR: term_one_premise
    Symbol::Line(78, 149, true), // node at ANDL
    Symbol::Part(82), // node at ANDL: hypothesis_one_premise
    Symbol::Line(78, 150, true), // node at ORL
    Symbol::Part(83), // node at ORL: hypothesis_two_premises
    Symbol::Line(78, 151, true), // node at IMPL
    Symbol::Part(83), // node at IMPL: hypothesis_two_premises
    Symbol::Line(78, 152, true), // node at IFFL
    Symbol::Part(82), // node at IFFL: hypothesis_one_premise
    Symbol::Line(78, 153, true), // node at NOTL
    Symbol::Part(82), // node at NOTL: hypothesis_one_premise
    Symbol::Line(78, 154, true), // node at ALLL
    Symbol::Keep(2), // node at ALLL: ^number
    Symbol::Take(80), // node at ALLL: [
    Symbol::Part(62), // node at ALLL: term
    Symbol::Take(81), // node at ALLL: ]
    Symbol::Part(86), // node at ALLL: one_node
    Symbol::Act(103), // node at ALLL: @rule_hypothesis_term
    Symbol::Line(78, 155, true), // node at EXL
    Symbol::Part(82), // node at EXL: hypothesis_one_premise
    Symbol::Line(78, 156, true), // node at EQ
    Symbol::Part(82), // node at EQ: hypothesis_one_premise
    Symbol::Line(78, 157, true), // node at EQIN
    Symbol::Keep(2), // node at EQIN: ^number
    Symbol::Keep(2), // node at EQIN: ^number
    Symbol::Part(86), // node at EQIN: one_node
    Symbol::Act(98), // node at EQIN: @rule_two_hypotheses
    Symbol::Line(78, 158, true), // node at BOOLCASES
    Symbol::Take(80), // node at BOOLCASES: [
    Symbol::Part(62), // node at BOOLCASES: term
    Symbol::Take(81), // node at BOOLCASES: ]
    Symbol::Part(87), // node at BOOLCASES: two_nodes
    Symbol::Act(101), // node at BOOLCASES: @rule_term
    Symbol::Line(78, 159, true), // node at BOOLR
    Symbol::Part(80), // node at BOOLR: one_premise
    Symbol::Line(78, 160, true), // node at BOOLL
    Symbol::Part(82), // node at BOOLL: hypothesis_one_premise
    Symbol::Line(78, 161, true), // node at ELEMS
    Symbol::Take(80), // node at ELEMS: [
    Symbol::Part(62), // node at ELEMS: term
    Symbol::Take(81), // node at ELEMS: ]
    Symbol::Part(89), // node at ELEMS: some_nodes
    Symbol::Act(101), // node at ELEMS: @rule_term
    Symbol::Line(78, 162, true), // node at SPLIT
    Symbol::Take(80), // node at SPLIT: [
    Symbol::Part(62), // node at SPLIT: term
    Symbol::Take(81), // node at SPLIT: ]
    Symbol::Take(80), // node at SPLIT: [
    Symbol::Part(62), // node at SPLIT: term
    Symbol::Take(81), // node at SPLIT: ]
    Symbol::Part(88), // node at SPLIT: three_nodes
    Symbol::Act(102), // node at SPLIT: @rule_two_terms
    Symbol::Line(78, 163, true), // node at EQLE
    Symbol::Part(81), // node at EQLE: two_premises
    Symbol::Line(78, 164, true), // node at RNG
    Symbol::Part(81), // node at RNG: two_premises
    Symbol::Line(78, 165, true), // node at RNGL
    Symbol::Part(82), // node at RNGL: hypothesis_one_premise
    Symbol::Line(78, 166, true), // node at DIVMOD
    Symbol::Take(80), // node at DIVMOD: [
    Symbol::Part(62), // node at DIVMOD: term
    Symbol::Take(81), // node at DIVMOD: ]
    Symbol::Keep(2), // node at DIVMOD: ^number
    Symbol::Part(86), // node at DIVMOD: one_node
    Symbol::Act(104), // node at DIVMOD: @rule_term_number
    Symbol::Line(78, 167, true), // node at MULSIGN
    Symbol::Take(80), // node at MULSIGN: [
    Symbol::Part(62), // node at MULSIGN: term
    Symbol::Take(81), // node at MULSIGN: ]
    Symbol::Take(80), // node at MULSIGN: [
    Symbol::Part(62), // node at MULSIGN: term
    Symbol::Take(81), // node at MULSIGN: ]
    Symbol::Part(88), // node at MULSIGN: three_nodes
    Symbol::Act(102), // node at MULSIGN: @rule_two_terms
    Symbol::Line(78, 168, true), // node at MEMBER
    Symbol::Part(80), // node at MEMBER: one_premise
    Symbol::Line(78, 169, true), // node at MEMBERL
    Symbol::Part(82), // node at MEMBERL: hypothesis_one_premise
    Symbol::Line(78, 170, true), // node at SUBSET
    Symbol::Part(80), // node at SUBSET: one_premise
    Symbol::Line(78, 171, true), // node at SUBSETL
    Symbol::Keep(2), // node at SUBSETL: ^number
    Symbol::Take(80), // node at SUBSETL: [
    Symbol::Part(62), // node at SUBSETL: term
    Symbol::Take(81), // node at SUBSETL: ]
    Symbol::Part(86), // node at SUBSETL: one_node
    Symbol::Act(103), // node at SUBSETL: @rule_hypothesis_term
    Symbol::Line(78, 172, true), // node at EXT
    Symbol::Part(81), // node at EXT: two_premises
    Symbol::Line(78, 173, true), // node at CARDPOS
    Symbol::Part(84), // node at CARDPOS: term_one_premise
    Symbol::Line(78, 174, true), // node at CARDADD
    Symbol::Part(85), // node at CARDADD: two_terms_two_premises
    Symbol::Line(78, 175, true), // node at CARDDEL
    Symbol::Part(85), // node at CARDDEL: two_terms_two_premises
    Symbol::Line(78, 176, true), // node at CARDSUB
    Symbol::Part(85), // node at CARDSUB: two_terms_two_premises
    Symbol::Line(79, 0, false), // no_premise
    Symbol::Act(90), // no_premise: @no_nodes
    Symbol::Act(96), // no_premise: @rule
    Symbol::Line(80, 0, false), // one_premise
    Symbol::Part(86), // one_premise: one_node
    Symbol::Act(96), // one_premise: @rule
    Symbol::Line(81, 0, false), // two_premises
    Symbol::Part(87), // two_premises: two_nodes
    Symbol::Act(96), // two_premises: @rule
    Symbol::Line(82, 2, true), // hypothesis_one_premise at number
    Symbol::Part(86), // hypothesis_one_premise at number: one_node
    Symbol::Act(97), // hypothesis_one_premise at number: @rule_hypothesis
    Symbol::Line(83, 2, true), // hypothesis_two_premises at number
    Symbol::Part(87), // hypothesis_two_premises at number: two_nodes
    Symbol::Act(97), // hypothesis_two_premises at number: @rule_hypothesis
    Symbol::Line(84, 80, false), // term_one_premise at [
    Symbol::Part(62), // term_one_premise at [: term
    Symbol::Take(81), // term_one_premise at [: ]
    Symbol::Part(86), // term_one_premise at [: one_node
    Symbol::Act(101), // term_one_premise at [: @rule_term
    Symbol::Line(85, 80, false), // two_terms_two_premises at [
    Symbol::Part(62), // two_terms_two_premises at [: term
    Symbol::Take(81), // two_terms_two_premises at [: ]
    Symbol::Take(80), // two_terms_two_premises at [: [
    Symbol::Part(62), // two_terms_two_premises at [: term
    Symbol::Take(81), // two_terms_two_premises at [: ]
    Symbol::Part(87), // two_terms_two_premises at [: two_nodes
    Symbol::Act(102), // two_terms_two_premises at [: @rule_two_terms
    Symbol::Line(86, 76, false), // one_node at (
    Symbol::Act(90), // one_node at (: @no_nodes
    Symbol::Part(78), // one_node at (: node
    Symbol::Act(91), // one_node at (: @append_node
    Symbol::Take(77), // one_node at (: )
    Symbol::Line(87, 76, false), // two_nodes at (
    Symbol::Act(90), // two_nodes at (: @no_nodes
    Symbol::Part(78), // two_nodes at (: node
    Symbol::Act(91), // two_nodes at (: @append_node
    Symbol::Take(62), // two_nodes at (: ,
    Symbol::Part(78), // two_nodes at (: node
    Symbol::Act(91), // two_nodes at (: @append_node
    Symbol::Take(77), // two_nodes at (: )
    Symbol::Line(88, 76, false), // three_nodes at (
    Symbol::Act(90), // three_nodes at (: @no_nodes
    Symbol::Part(78), // three_nodes at (: node
    Symbol::Act(91), // three_nodes at (: @append_node
    Symbol::Take(62), // three_nodes at (: ,
    Symbol::Part(78), // three_nodes at (: node
    Symbol::Act(91), // three_nodes at (: @append_node
    Symbol::Take(62), // three_nodes at (: ,
    Symbol::Part(78), // three_nodes at (: node
    Symbol::Act(91), // three_nodes at (: @append_node
    Symbol::Take(77), // three_nodes at (: )
    Symbol::Line(89, 76, false), // some_nodes at (
    Symbol::Act(90), // some_nodes at (: @no_nodes
    Symbol::Part(78), // some_nodes at (: node
    Symbol::Act(91), // some_nodes at (: @append_node
    Symbol::Part(117), // some_nodes at (: some_nodes_1
    Symbol::Take(77), // some_nodes at (: )
    Symbol::Line(90, 2, true), // row at number
    Symbol::Take(87), // row at number: *
    Symbol::Part(118), // row at number: row_1
    Symbol::Line(91, 31, false), // before_proofs_1 at PROOF
    Symbol::Line(91, 3, false), // before_proofs_1 at finish
    Symbol::Line(92, 4, false), // text_1 at MACHINE
    Symbol::Keep(1), // text_1 at MACHINE: ^name
    Symbol::Part(93), // text_1 at MACHINE: machine_1
    Symbol::Act(9), // text_1 at MACHINE: @no_sets
    Symbol::Part(95), // text_1 at MACHINE: machine_3
    Symbol::Part(12), // text_1 at MACHINE: constants
    Symbol::Part(15), // text_1 at MACHINE: state
    Symbol::Act(18), // text_1 at MACHINE: @no_operations
    Symbol::Part(97), // text_1 at MACHINE: machine_5
    Symbol::Take(13), // text_1 at MACHINE: END
    Symbol::Act(6), // text_1 at MACHINE: @machine
    Symbol::Act(1), // text_1 at MACHINE: @append_machine
    Symbol::Part(5), // text_1 at MACHINE: more_text
    Symbol::Line(92, 0, false), // text_1
    Symbol::Part(6), // text_1: system_text
    Symbol::Line(93, 5, false), // machine_1 at SEES
    Symbol::Part(10), // machine_1 at SEES: names
    Symbol::Line(93, 0, false), // machine_1
    Symbol::Act(7), // machine_1: @no_names
    Symbol::Line(94, 63, false), // machine_2 at ;
    Symbol::Part(11), // machine_2 at ;: enumerated_set
    Symbol::Part(94), // machine_2 at ;: machine_2
    Symbol::Line(94, 0, false), // machine_2
    Symbol::Line(95, 6, false), // machine_3 at SETS
    Symbol::Part(11), // machine_3 at SETS: enumerated_set
    Symbol::Part(94), // machine_3 at SETS: machine_2
    Symbol::Line(95, 0, false), // machine_3
    Symbol::Line(96, 63, false), // machine_4 at ;
    Symbol::Part(16), // machine_4 at ;: operation
    Symbol::Part(96), // machine_4 at ;: machine_4
    Symbol::Line(96, 0, false), // machine_4
    Symbol::Line(97, 12, false), // machine_5 at OPERATIONS
    Symbol::Part(16), // machine_5 at OPERATIONS: operation
    Symbol::Part(96), // machine_5 at OPERATIONS: machine_4
    Symbol::Line(97, 0, false), // machine_5
    Symbol::Line(98, 62, false), // names_1 at ,
    Symbol::Keep(1), // names_1 at ,: ^name
    Symbol::Act(8), // names_1 at ,: @append_name
    Symbol::Part(98), // names_1 at ,: names_1
    Symbol::Line(98, 0, false), // names_1
    Symbol::Line(99, 64, false), // constants_1 at &
    Symbol::Part(13), // constants_1 at &: property
    Symbol::Part(99), // constants_1 at &: constants_1
    Symbol::Line(99, 0, false), // constants_1
    Symbol::Line(100, 53, false), // substitution_1 at ||
    Symbol::Part(22), // substitution_1 at ||: simple
    Symbol::Act(22), // substitution_1 at ||: @parallel
    Symbol::Part(100), // substitution_1 at ||: substitution_1
    Symbol::Line(100, 0, false), // substitution_1
    Symbol::Line(101, 20, false), // simple_1 at OR
    Symbol::Part(21), // simple_1 at OR: substitution
    Symbol::Act(29), // simple_1 at OR: @append_side
    Symbol::Part(101), // simple_1 at OR: simple_1
    Symbol::Line(101, 0, false), // simple_1
    Symbol::Line(102, 63, false), // channels_1 at ;
    Symbol::Part(32), // channels_1 at ;: channel
    Symbol::Part(102), // channels_1 at ;: channels_1
    Symbol::Line(102, 0, false), // channels_1
    Symbol::Line(103, 22, false), // channel_1 at WHERE
    Symbol::Part(47), // channel_1 at WHERE: formula
    Symbol::Act(20), // channel_1 at WHERE: @some_condition
    Symbol::Line(103, 0, false), // channel_1
    Symbol::Act(21), // channel_1: @no_condition
    Symbol::Line(104, 26, false), // controller_rest_1 at MACHINES
    Symbol::Part(10), // controller_rest_1 at MACHINES: names
    Symbol::Line(104, 0, false), // controller_rest_1
    Symbol::Act(7), // controller_rest_1: @no_names
    Symbol::Line(105, 76, false), // controller_rest_2 at (
    Symbol::Part(74), // controller_rest_2 at (: terms
    Symbol::Take(77), // controller_rest_2 at (: )
    Symbol::Line(105, 0, false), // controller_rest_2
    Symbol::Line(106, 63, false), // controller_rest_3 at ;
    Symbol::Part(36), // controller_rest_3 at ;: definition
    Symbol::Part(106), // controller_rest_3 at ;: controller_rest_3
    Symbol::Line(106, 0, false), // controller_rest_3
    Symbol::Line(107, 76, false), // definition_1 at (
    Symbol::Part(37), // definition_1 at (: parameters
    Symbol::Take(77), // definition_1 at (: )
    Symbol::Line(107, 0, false), // definition_1
    Symbol::Line(108, 29, false), // definition_2 at INV
    Symbol::Take(76), // definition_2 at INV: (
    Symbol::Part(47), // definition_2 at INV: formula
    Symbol::Take(77), // definition_2 at INV: )
    Symbol::Act(20), // definition_2 at INV: @some_condition
    Symbol::Line(108, 0, false), // definition_2
    Symbol::Act(21), // definition_2: @no_condition
    Symbol::Line(109, 62, false), // parameters_1 at ,
    Symbol::Part(38), // parameters_1 at ,: parameter
    Symbol::Act(44), // parameters_1 at ,: @append_parameter
    Symbol::Part(109), // parameters_1 at ,: parameters_1
    Symbol::Line(109, 0, false), // parameters_1
    Symbol::Line(110, 55, false), // parameter_1 at :
    Symbol::Part(25), // parameter_1 at :: domain
    Symbol::Act(45), // parameter_1 at :: @parameter_in
    Symbol::Line(110, 57, false), // parameter_1 at <:
    Symbol::Part(25), // parameter_1 at <:: domain
    Symbol::Act(46), // parameter_1 at <:: @parameter_subset
    Symbol::Line(111, 73, false), // step_rest_1 at !
    Symbol::Take(76), // step_rest_1 at !: (
    Symbol::Part(74), // step_rest_1 at !: terms
    Symbol::Take(77), // step_rest_1 at !: )
    Symbol::Line(111, 0, false), // step_rest_1
    Symbol::Line(112, 74, false), // step_rest_2 at ?
    Symbol::Take(76), // step_rest_2 at ?: (
    Symbol::Part(10), // step_rest_2 at ?: names
    Symbol::Take(77), // step_rest_2 at ?: )
    Symbol::Line(112, 0, false), // step_rest_2
    Symbol::Act(7), // step_rest_2: @no_names
    Symbol::Line(113, 62, false), // terms_1 at ,
    Symbol::Part(62), // terms_1 at ,: term
    Symbol::Act(72), // terms_1 at ,: @append_term
    Symbol::Part(113), // terms_1 at ,: terms_1
    Symbol::Line(113, 0, false), // terms_1
    Symbol::Line(114, 31, false), // proofs_1 at PROOF
    Symbol::Part(76), // proofs_1 at PROOF: obligation
    Symbol::Part(78), // proofs_1 at PROOF: node
    Symbol::Take(13), // proofs_1 at PROOF: END
    Symbol::Act(85), // proofs_1 at PROOF: @append_proof
    Symbol::Part(114), // proofs_1 at PROOF: proofs_1
    Symbol::Line(114, 0, false), // proofs_1
    Symbol::Line(115, 1, true), // obligation_1 at name
    Symbol::Take(55), // obligation_1 at name: :
    Symbol::Keep(2), // obligation_1 at name: ^number
    Symbol::Act(88), // obligation_1 at name: @obligation_of_part
    Symbol::Line(115, 11, true), // obligation_1 at INITIALISATION
    Symbol::Take(55), // obligation_1 at INITIALISATION: :
    Symbol::Keep(2), // obligation_1 at INITIALISATION: ^number
    Symbol::Act(89), // obligation_1 at INITIALISATION: @obligation_of_initialisation
    Symbol::Line(116, 62, false), // node_1 at ,
    Symbol::Part(90), // node_1 at ,: row
    Symbol::Act(93), // node_1 at ,: @append_row
    Symbol::Part(116), // node_1 at ,: node_1
    Symbol::Line(116, 0, false), // node_1
    Symbol::Line(117, 62, false), // some_nodes_1 at ,
    Symbol::Part(78), // some_nodes_1 at ,: node
    Symbol::Act(91), // some_nodes_1 at ,: @append_node
    Symbol::Part(117), // some_nodes_1 at ,: some_nodes_1
    Symbol::Line(117, 0, false), // some_nodes_1
    Symbol::Line(118, 86, false), // row_1 at -
    Symbol::Keep(2), // row_1 at -: ^number
    Symbol::Act(95), // row_1 at -: @minus_row
    Symbol::Line(118, 2, true), // row_1 at number
    Symbol::Act(94), // row_1 at number: @row
];

/// How many steps each part may take without a token.
pub static WEIGHTS: [u8; 119] = [
    0, 14, 12, 4, 10, 2, 7, 2, 1, 1, 4, 1, 3, 1, 1, 2, 11, 3, 1, 2, 5, 3, 1, 1, 1, 9, 2, 3, 4, 2,
    1, 1, 1, 5, 1, 1, 1, 4, 1, 3, 1, 1, 1, 1, 3, 8, 2, 6, 1, 1, 1, 1, 6, 1, 4, 1, 1, 1, 4, 1, 1, 1,
    4, 1, 1, 1, 1, 1, 1, 6, 4, 2, 1, 8, 7, 3, 1, 1, 1, 3, 3, 3, 1, 1, 1, 1, 1, 1, 1, 1, 1, 1, 8, 2,
    1, 1, 1, 1, 1, 1, 1, 1, 1, 2, 2, 1, 1, 1, 2, 1, 1, 1, 2, 1, 1, 1, 1, 1, 1,
];
