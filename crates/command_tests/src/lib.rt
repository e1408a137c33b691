//! Tests of `run`, of the sources and sinks that it takes, and of public calls that no program makes, each with ample memory.
//! Each read and each write of each command fails in turn: `run` then answers that, and has written the front of its text
//! that came before, which is nothing where a read failed.
#![tactic(auto)]

#[cfg(test)]
mod answers;
#[cfg(test)]
mod calls;
#[cfg(test)]
mod comparing;
#[cfg(test)]
mod failing;
#[cfg(test)]
mod files;
#[cfg(test)]
mod memory;
#[cfg(test)]
mod outcomes;
#[cfg(test)]
mod streams;
