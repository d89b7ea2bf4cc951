//! Numbers in the bytes of a font's file.
#![tactic(auto)]

mod bytes;

pub use bytes::{s8_at, s16_at, u8_at, u16_at, u32_at};
