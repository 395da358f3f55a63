//! Tests of what is read and printed as text, and of files: the action language, scenario files, world files, generated scenarios, sources and sinks.
#![tactic(auto)]

#[cfg(test)]
mod built;
#[cfg(test)]
mod bytes;
#[cfg(test)]
mod loads;
#[cfg(test)]
mod scenario;
#[cfg(test)]
mod text;
#[cfg(test)]
mod worldfile;
