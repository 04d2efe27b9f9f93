//! Laws of domains, substitutions and systems. Each is the contract of a function with nothing to do: a caller calls it for its fact.

ghost use Rattle.cb_spec.specs.Example.{ShopIsTyped};
ghost use Rattle.cb_spec.specs.Laws.{DomainIsItsTyping, RunsWriteTargets, SidesRunApart, LiveHasRun, LiveIsStable, RunsReadNames, LiveReadsNames};

/// A value is in a domain where it is of the domain's kind and the typing conjunct holds.
pub fn domain_is_its_typing()
    ensures { DomainIsItsTyping }
{}

/// A run writes to no name but those that are assigned to.
pub fn runs_write_targets()
    ensures { RunsWriteTargets }
{}

/// Maps of the two sides of a `||` that fits have no name in common.
pub fn sides_run_apart()
    ensures { SidesRunApart }
{}

/// A substitution that fits and is live cannot be without a run.
pub fn live_has_run()
    ensures { LiveHasRun }
{}

/// A substitution that cannot fail to be live is live.
pub fn live_is_stable()
    ensures { LiveIsStable }
{}

/// A run depends on the names alone that stand free in terms and tests.
pub fn runs_read_names()
    ensures { RunsReadNames }
{}

/// Whether a substitution is live depends on these names alone.
pub fn live_reads_names()
    ensures { LiveReadsNames }
{}

/// A small system is typed, so what is asked of a typed system does not contradict itself.
pub fn shop_is_typed()
    ensures { ShopIsTyped }
{}
