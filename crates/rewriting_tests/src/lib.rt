//! Rewritings of walks and carried values, against results worked out by hand from the rules and long
//! certificates from an independent program.
#![tactic(auto)]

#[cfg(test)]
mod certificates;
#[cfg(test)]
mod certified;
#[cfg(test)]
mod common;
#[cfg(test)]
mod records;
#[cfg(test)]
mod values;
