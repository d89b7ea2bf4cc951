//! What an ask is answered.

use std::sync::Arc;

/// The answer to an ask: the value, which has one pin more; that the key may be claimed; the number that makes it; that
/// there is no room for a key or a pin more; or that memory ran out.
#[derive(Drop)]
pub enum Ask<V> {
    Hit(Arc<V>),
    Claimable,
    Flying(u32),
    Crowded,
    OutOfMemory,
}
