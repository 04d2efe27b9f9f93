//! Laws of typed systems and their controllers. Each is the contract of a function with nothing to do: a caller calls it for its fact.

ghost use Rattle.cb_controlled_laws.specs.Laws.{TypedControllersFit, TypedControllersArePlain, TypedControllersKinded, TypedConditionsSuffice, TypedSystemsOweKinded, TypedSystemsAreSound, TypedSystemsAreSafe};
ghost use Rattle.cb_controlled_laws.specs.Tickets.{TicketsAreSafe, TicketsRun};
ghost use Rattle.cb_controlled_laws.specs.Dice.{DiceAreSafe, DiceRun};

/// The controllers of a typed system fit.
pub fn typed_controllers_fit()
    ensures { TypedControllersFit }
{}

/// The texts of controllers of a typed system are as a walk needs them.
pub fn typed_controllers_are_plain()
    ensures { TypedControllersArePlain }
{}

/// Arguments are of the kinds of the parameters.
pub fn typed_controllers_kinded()
    ensures { TypedControllersKinded }
{}

/// Valid obligations make the controllers of a typed system sound.
pub fn typed_conditions_suffice()
    ensures { TypedConditionsSuffice }
{}

/// Each obligation of a controller of a typed system is kinded.
pub fn typed_systems_owe_kinded()
    ensures { TypedSystemsOweKinded }
{}

/// A typed system is sound where all that it owes is valid.
pub fn typed_systems_are_sound()
    ensures { TypedSystemsAreSound }
{}

/// And it is safe, whatever its controllers do and in whatever order.
pub fn typed_systems_are_safe()
    ensures { TypedSystemsAreSafe }
{}

/// A payer and a till with a box are such a system, so they are safe.
pub fn tickets_are_safe()
    ensures { TicketsAreSafe }
{}

/// They run to an end that is due: a coin passes, and is added to the box.
pub fn tickets_run()
    ensures { TicketsRun }
{}

/// A player with a die and a score, and a listener, are such a system, with sides that nobody chooses for them, values that are any,
/// and annotations at both ends of a channel.
pub fn dice_are_safe()
    ensures { DiceAreSafe }
{}

/// They run to an end that is due: the player says what the die showed, and then nothing can happen.
pub fn dice_run()
    ensures { DiceRun }
{}
