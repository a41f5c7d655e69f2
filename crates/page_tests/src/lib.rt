//! Tests of the page readers at their edges. A crate of their own, since a crate with tests is
//! proved twice.
#![tactic(auto)]

#[cfg(test)]
mod edges;
#[cfg(test)]
mod readers;
