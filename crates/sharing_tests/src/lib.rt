//! Tests of what threads share: turns and tracks by threads, live events, and evictions.
#![tactic(auto)]

#[cfg(test)]
mod evictions;
#[cfg(test)]
mod live_events;
#[cfg(test)]
mod rows;
#[cfg(test)]
mod tracks;
#[cfg(test)]
mod turns;
