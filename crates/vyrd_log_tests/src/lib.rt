//! Tests of the public calls of the crates that take in a log or a history, a module for each.
//!
//! They show what no clause says: worked cases as tables, texts in every cutting, each call on its
//! happy path. They stand in a crate of their own since a crate is proved once more with its tests.
#![tactic(auto)]

#[cfg(test)]
mod base;
#[cfg(test)]
mod batch;
#[cfg(test)]
mod check;
#[cfg(test)]
mod check_command;
#[cfg(test)]
mod errors;
#[cfg(test)]
mod judge;
#[cfg(test)]
mod mover;
#[cfg(test)]
mod plain;
#[cfg(test)]
mod shadow;
#[cfg(test)]
mod shape;
#[cfg(test)]
mod spec;
#[cfg(test)]
mod table;
#[cfg(test)]
mod text;
#[cfg(test)]
mod view;
#[cfg(test)]
mod words;
