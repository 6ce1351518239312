//! Only tests: cases of the architectures and of conditions, the run of a printed thread, and the devices over the system.
#![tactic(auto)]

#[cfg(test)]
mod architectures;
#[cfg(test)]
mod conditions;
#[cfg(test)]
mod devices;
#[cfg(test)]
mod runs;
#[cfg(test)]
mod states;
