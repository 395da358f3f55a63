//! Tests of the top calls `run`, `run_looks` and `run_witness`, over files, nets, crews and outputs in memory, and over loopback TCP.
#![tactic(auto)]

#[cfg(test)]
mod calls;
#[cfg(test)]
mod faults;
#[cfg(test)]
mod lacking;
#[cfg(test)]
mod looks;
#[cfg(test)]
mod plays;
#[cfg(test)]
mod replays;
#[cfg(test)]
mod shown;
#[cfg(test)]
mod texts;
#[cfg(test)]
mod witness;
