//! Laws of typed systems. Each is the contract of a function with nothing to do: a caller calls it for its fact.

ghost use Rattle.cb_typed.specs.Laws.{TypedMachinesFit, TypedMachinesKeepKinds, TypedMachinesOweKinded};

/// Valid obligations make the machines of a typed system sound.
pub fn typed_machines_fit()
    ensures { TypedMachinesFit }
{}

/// What is written to a variable is of the variable's kind.
pub fn typed_machines_keep_kinds()
    ensures { TypedMachinesKeepKinds }
{}

/// Each obligation of a machine of a typed system is kinded.
pub fn typed_machines_owe_kinded()
    ensures { TypedMachinesOweKinded }
{}
