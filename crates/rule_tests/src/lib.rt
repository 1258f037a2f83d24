//! Tests of the rule side: rules that are admitted, editions that follow, residues, and packets
//! that are written and read.
#![tactic(auto)]

#[cfg(test)]
mod admission;
#[cfg(test)]
mod coap;
#[cfg(test)]
mod following;
#[cfg(test)]
mod packing;
#[cfg(test)]
mod residues;
#[cfg(test)]
mod unpacking;
