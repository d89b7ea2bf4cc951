//! How many workers work at once.

ghost use Rattle.std.specs.Prelude.{◌<◌};

use std::sync::{Condvar, Mutex, Wait};

/// Permits to work: no more workers work at once than there are permits.
#[derive(Drop)]
pub struct Permits {
    count: usize,
    taken: Mutex<Taken>,
    /// A worker is through.
    ended: Condvar,
}

/// How many permits are taken, and how many workers work.
#[derive(Drop)]
struct Taken {
    permits: usize,
    working: usize,
}

impl Permits {
    /// So many permits.
    pub fn new(count: usize) -> Permits
        requires { 0 < count }
    {
        Permits {
            count,
            taken: Mutex::new(Taken {
                permits: 0,
                working: 0,
            }),
            ended: Condvar::new(),
        }
    }

    /// Takes a permit for a worker that is to begin, and waits for one as long as all are taken and some worker works.
    /// Where none works, the workers with permits got no thread and come last, so nothing is to be waited for.
    pub(crate) fn take<R: Wait>(&self, rt: &R) {
        let count = self.count;
        let mut taken = self.ended.wait_while(
            rt,
            self.taken.lock(rt),
            |it| it.permits >= count && it.working > 0,
        );
        taken.permits = taken.permits.saturating_add(1);
    }

    /// A worker begins that has a permit, once there is room for it.
    pub(crate) fn begin<R: Wait>(&self, rt: &R) {
        let count = self.count;
        let mut taken = self
            .ended
            .wait_while(rt, self.taken.lock(rt), |it| it.working >= count);
        taken.working = taken.working.saturating_add(1);
    }

    /// A worker is through, and gives its permit back.
    pub(crate) fn end<R: Wait>(&self, rt: &R) {
        let mut taken = self.taken.lock(rt);
        taken.working = taken.working.saturating_sub(1);
        taken.permits = taken.permits.saturating_sub(1);
        self.ended.notify_all();
    }
}
