//! Tests of the program over an outside in memory.
#![tactic(auto)]

#[cfg(test)]
mod buildings;
#[cfg(test)]
mod hostile;
#[cfg(test)]
mod journals;
#[cfg(test)]
mod services;
