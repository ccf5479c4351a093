//! Tests of the top call, a module for each kind of input, and what they share in `case`.
//!
//! They show what no clause says: worked cases as tables, inputs in every cutting, devices that
//! fail at each call, inputs that are meant to do harm, and live runs. They stand in a crate of
//! their own since a crate is proved once more with its tests.
#![tactic(auto)]

#[cfg(test)]
mod batch;
#[cfg(test)]
mod case;
#[cfg(test)]
mod explain;
#[cfg(test)]
mod hostile;
#[cfg(test)]
mod live;
#[cfg(test)]
mod logs;
#[cfg(test)]
mod movers;
#[cfg(test)]
mod own;
#[cfg(test)]
mod play;
#[cfg(test)]
mod start;
