//! Tests that drive a turn by hand, in both its forms.
#![tactic(auto)]

#[cfg(test)]
mod numbers;
#[cfg(test)]
mod on_a_queue;
#[cfg(test)]
mod on_words;
