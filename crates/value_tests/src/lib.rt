//! Tests of the values of keys and of their shards, by rows that were worked out apart, and of a player.
#![tactic(auto)]

#[cfg(test)]
mod players;
#[cfg(test)]
mod seats;
#[cfg(test)]
mod shards;
#[cfg(test)]
mod values;
