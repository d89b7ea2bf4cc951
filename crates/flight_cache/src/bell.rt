//! Sleeping until a value of a shard was made.

use crate::made::Made;
use crate::shard::ShardPass;
use std::sync::{Condvar, Mutex, Wait};

/// How often a making of a shard has ended, and who sleeps until one does. It says nothing of any value: who wakes asks again.
#[derive(Drop)]
pub(crate) struct Bell {
    rung: Mutex<u64>,
    ringing: Condvar,
}

impl Bell {
    /// No making has ended yet.
    pub(crate) fn new() -> Bell {
        Bell {
            rung: Mutex::new(0),
            ringing: Condvar::new(),
        }
    }

    /// How often a making has ended.
    pub(crate) fn count<R: Wait>(&self, rt: &R) -> u64 {
        *self.rung.lock(rt)
    }

    /// A making has ended: whoever sleeps wakes.
    pub(crate) fn ring<R: Wait>(&self, rt: &R) {
        let mut rung = self.rung.lock(rt);
        *rung = rung.wrapping_add(1);
        self.ringing.notify_all();
    }

    /// Sleeps as long as no making has ended since there were so many. Who counts before it asks misses none. Who sleeps
    /// shows its pass, which lies in the turn while that is out.
    pub(crate) fn sleep<M: Made, R: Wait>(&self, rt: &R, _waiting: &ShardPass<M>, count: u64) {
        let _rung = self
            .ringing
            .wait_while(rt, self.rung.lock(rt), |rung| *rung == count);
    }
}
