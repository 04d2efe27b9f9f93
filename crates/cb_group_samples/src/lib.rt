//! Tests of what a controller owes, group by group, which no command of the program lists alone.
#![tactic(auto)]

#[cfg(test)]
mod groups;
