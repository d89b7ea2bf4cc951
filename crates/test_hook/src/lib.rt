//! A hook by which a test can hold one thread.
#![tactic(auto)]

mod hook;

pub use hook::{HookPoint, NoHook, TestHook, ValueKind};
