//! Tests of calls that no command of the program makes yet.
#![tactic(auto)]

#[cfg(test)]
mod evaluating;
#[cfg(test)]
mod flow;
#[cfg(test)]
mod parts;
#[cfg(test)]
mod performing;
#[cfg(test)]
mod printing;
#[cfg(test)]
mod terms;
#[cfg(test)]
mod words;
