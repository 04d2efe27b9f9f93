//! The actions of the grammar. Written by tools/table.py from tools/cspb.grammar.

/// -> machines
pub const NO_MACHINES: u8 = 0;
/// machines machine -> machines
pub const APPEND_MACHINE: u8 = 1;
/// machines -> text
pub const MACHINES_ALONE: u8 = 2;
/// -> controllers
pub const NO_CONTROLLERS: u8 = 3;
/// controllers controller -> controllers
pub const APPEND_CONTROLLER: u8 = 4;
/// machines channels controllers names -> text
pub const SYSTEM: u8 = 5;
/// name names sets names properties state operations -> machine
pub const MACHINE: u8 = 6;
/// -> names
pub const NO_NAMES: u8 = 7;
/// names name -> names
pub const APPEND_NAME: u8 = 8;
/// -> sets
pub const NO_SETS: u8 = 9;
/// sets name names -> sets
pub const APPEND_SET: u8 = 10;
/// -> properties
pub const NO_PROPERTIES: u8 = 11;
/// properties name literal -> properties
pub const APPEND_PROPERTY: u8 = 12;
/// number -> literal
pub const LITERAL: u8 = 13;
/// number -> literal
pub const MINUS_LITERAL: u8 = 14;
/// limit -> literal
pub const LIMIT_LITERAL: u8 = 15;
/// -> state
pub const NO_STATE: u8 = 16;
/// names formula substitution -> state
pub const SOME_STATE: u8 = 17;
/// -> operations
pub const NO_OPERATIONS: u8 = 18;
/// operations names name names condition substitution -> operations
pub const APPEND_OPERATION: u8 = 19;
/// formula -> condition
pub const SOME_CONDITION: u8 = 20;
/// -> condition
pub const NO_CONDITION: u8 = 21;
/// substitution substitution -> substitution
pub const PARALLEL: u8 = 22;
/// -> substitution
pub const SKIP: u8 = 23;
/// name term -> substitution
pub const ASSIGN: u8 = 24;
/// name domain -> substitution
pub const AMONG: u8 = 25;
/// formula substitution substitution -> substitution
pub const IF: u8 = 26;
/// formula substitution -> substitution
pub const IF_WITHOUT_ELSE: u8 = 27;
/// -> sides
pub const NO_SIDES: u8 = 28;
/// sides substitution -> sides
pub const APPEND_SIDE: u8 = 29;
/// sides -> substitution
pub const CHOICE: u8 = 30;
/// name formula substitution -> substitution
pub const ANY: u8 = 31;
/// name -> domain
pub const NAMED_DOMAIN: u8 = 32;
/// set -> domain
pub const SET_DOMAIN: u8 = 33;
/// bound bound -> domain
pub const RANGE: u8 = 34;
/// end -> bound
pub const BOUND: u8 = 35;
/// end -> bound
pub const MINUS_BOUND: u8 = 36;
/// number -> end
pub const NUMBER_END: u8 = 37;
/// limit -> end
pub const LIMIT_END: u8 = 38;
/// name -> end
pub const NAME_END: u8 = 39;
/// -> channels
pub const NO_CHANNELS: u8 = 40;
/// channels name names condition -> channels
pub const APPEND_CHANNEL: u8 = 41;
/// name names name terms definitions -> controller
pub const CONTROLLER: u8 = 42;
/// -> parameters
pub const NO_PARAMETERS: u8 = 43;
/// parameters parameter -> parameters
pub const APPEND_PARAMETER: u8 = 44;
/// name domain -> parameter
pub const PARAMETER_IN: u8 = 45;
/// name domain -> parameter
pub const PARAMETER_SUBSET: u8 = 46;
/// -> definitions
pub const NO_DEFINITIONS: u8 = 47;
/// definitions name parameters condition process -> definitions
pub const APPEND_DEFINITION: u8 = 48;
/// process process -> chain
pub const FIRST_TWO: u8 = 49;
/// chain process -> chain
pub const APPEND_PROCESS: u8 = 50;
/// chain -> process
pub const EXTERNAL: u8 = 51;
/// chain -> process
pub const INTERNAL: u8 = 52;
/// stop -> process
pub const STOP: u8 = 53;
/// skip -> process
pub const SKIP_PROCESS: u8 = 54;
/// if formula process process -> process
pub const PROCESS_IF: u8 = 55;
/// name terms -> process
pub const CALL: u8 = 56;
/// event process -> process
pub const PREFIX: u8 = 57;
/// name terms condition -> event
pub const OUTPUT: u8 = 58;
/// name names condition -> event
pub const INPUT: u8 = 59;
/// name name terms names -> event
pub const OPERATION_CALL: u8 = 60;
/// -> formula
pub const ALWAYS_TRUE: u8 = 61;
/// -> formula
pub const ALWAYS_FALSE: u8 = 62;
/// formula -> formula
pub const NOT: u8 = 63;
/// formula formula -> formula
pub const AND: u8 = 64;
/// formula formula -> formula
pub const OR: u8 = 65;
/// formula formula -> formula
pub const IMPLIES: u8 = 66;
/// formula formula -> formula
pub const EQUIVALENT: u8 = 67;
/// name formula formula -> formula
pub const FOR_ALL: u8 = 68;
/// name formula -> formula
pub const EXISTS: u8 = 69;
/// term relation term -> formula
pub const RELATION: u8 = 70;
/// -> terms
pub const NO_TERMS: u8 = 71;
/// terms term -> terms
pub const APPEND_TERM: u8 = 72;
/// name -> term
pub const NAME_TERM: u8 = 73;
/// number -> term
pub const NUMBER_TERM: u8 = 74;
/// truth -> term
pub const TRUTH_TERM: u8 = 75;
/// limit -> term
pub const LIMIT_TERM: u8 = 76;
/// set -> term
pub const SET_TERM: u8 = 77;
/// minus term -> term
pub const MINUS: u8 = 78;
/// term operator term -> term
pub const BINARY: u8 = 79;
/// term minus term -> term
pub const SUBTRACT: u8 = 80;
/// card term -> term
pub const CARD: u8 = 81;
/// bool formula -> term
pub const BOOL: u8 = 82;
/// brace terms -> term
pub const LISTED: u8 = 83;
/// -> proofs
pub const NO_PROOFS: u8 = 84;
/// proofs obligation node -> proofs
pub const APPEND_PROOF: u8 = 85;
/// name name number -> obligation
pub const OBLIGATION_OF_OWNER: u8 = 86;
/// start name number -> obligation
pub const OBLIGATION_OF_START: u8 = 87;
/// name name name number -> obligation
pub const OBLIGATION_OF_PART: u8 = 88;
/// name name initialisation number -> obligation
pub const OBLIGATION_OF_INITIALISATION: u8 = 89;
/// -> nodes
pub const NO_NODES: u8 = 90;
/// nodes node -> nodes
pub const APPEND_NODE: u8 = 91;
/// -> rows
pub const NO_ROWS: u8 = 92;
/// rows row -> rows
pub const APPEND_ROW: u8 = 93;
/// number number -> row
pub const ROW: u8 = 94;
/// number number -> row
pub const MINUS_ROW: u8 = 95;
/// name nodes -> node
pub const RULE: u8 = 96;
/// name number nodes -> node
pub const RULE_HYPOTHESIS: u8 = 97;
/// name number number nodes -> node
pub const RULE_TWO_HYPOTHESES: u8 = 98;
/// name rows nodes -> node
pub const RULE_ROWS: u8 = 99;
/// name formula nodes -> node
pub const RULE_FORMULA: u8 = 100;
/// name term nodes -> node
pub const RULE_TERM: u8 = 101;
/// name term term nodes -> node
pub const RULE_TWO_TERMS: u8 = 102;
/// name number term nodes -> node
pub const RULE_HYPOTHESIS_TERM: u8 = 103;
/// name term number nodes -> node
pub const RULE_TERM_NUMBER: u8 = 104;
