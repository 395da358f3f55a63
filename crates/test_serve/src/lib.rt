//! Tests of `serve` and `join`, each by itself and both together, over files, doors, crews and outputs in memory.
#![tactic(auto)]

#[cfg(test)]
mod both;
#[cfg(test)]
mod doors;
#[cfg(test)]
mod join;
#[cfg(test)]
mod serves;
