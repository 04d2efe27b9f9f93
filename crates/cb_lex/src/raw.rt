//! The syntax of a text as it is written, with the places of its tokens.

pub mod domain;
pub mod event;
pub mod name;
pub mod process;
pub mod proof;
pub mod sign;
pub mod subst;
pub mod term;
pub mod text;
