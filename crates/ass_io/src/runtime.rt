//! What a call is lent to run threads.

use std::sync::Wait;
use std::thread::Threads;

/// What a call is lent that starts threads, shares it with them and waits for them.
pub trait Rt: Threads + Wait + Sync {}

impl<T: Threads + Wait + Sync> Rt for T {}
