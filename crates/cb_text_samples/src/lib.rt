//! Tests of printing whole texts and of symbolic stores, which no command of the program shows alone.
#![tactic(auto)]

#[cfg(test)]
mod printing;
#[cfg(test)]
mod stores;
