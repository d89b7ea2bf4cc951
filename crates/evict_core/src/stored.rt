//! What is kept of a key.
ghost use Rattle.std.specs.Prelude.{◌≡◌, ◌<◌, Some, is_some, IfSome};
ghost use Rattle.std.specs.Arc.{arc_value};
ghost use Rattle.evict_core.specs.Machine.{Ready, max_pins, is_idle, idle_cost, pins_in, one_pin_more, one_pin_less};
ghost use Rattle.evict_core.specs.Looks.{IsLookAt};
ghost use Rattle.evict_core.specs.Places.{stored_status};

use crate::look::Look;
use std::sync::Arc;

/// A key is being made by a number, or its value is made: so many pins hold it, and it costs so much.
#[derive(Drop)]
pub enum Stored<V> {
    Making(u32),
    Made(u32, u64, Arc<V>),
}

impl<V> Stored<V> {
    /// What it costs, where it may be evicted.
    pub fn idle_cost(&self) -> Option<u64>
        ensures idle { is_some result ≡ is_idle (stored_status self.now) }
        ensures cost { IfSome result (λ cost. cost ≡ idle_cost (stored_status self.now)) }
    {
        match self {
            Stored::Made(0, cost, _) => Some(*cost),
            Stored::Made(_, _, _) => None,
            Stored::Making(_) => None,
        }
    }

    /// What a look for a pin finds. The pin isn't counted yet.
    pub fn look(&self) -> Look<V>
        ensures { IsLookAt (Some (stored_status self.now)) result }
    {
        match self {
            Stored::Making(maker) => Look::Making(*maker),
            Stored::Made(pins, _, value) => {
                if *pins == u32::MAX {
                    return Look::Full;
                }
                match Arc::try_clone(value) {
                    Ok(value) => Look::Pinned(value, self.idle_cost()),
                    Err(_) => Look::OutOfMemory,
                }
            }
        }
    }

    /// One pin more on a value.
    pub fn add_pin(&mut self)
        requires { pins_in (Some (stored_status self.old)) < max_pins }
        ensures { stored_status self.new ≡ one_pin_more (stored_status self.old) }
    {
        match self {
            Stored::Making(_) => {}
            Stored::Made(pins, _, _) => *pins += 1,
        }
    }

    /// One pin less.
    pub fn drop_pin(&mut self)
        ensures { stored_status self.new ≡ one_pin_less (stored_status self.old) }
    {
        match self {
            Stored::Making(_) => {}
            Stored::Made(pins, _, _) => *pins = pins.saturating_sub(1),
        }
    }

    /// The value is made, and one pin holds it.
    pub fn fill(&mut self, cost: u64, value: Arc<V>)
    where
        V: Drop,
        ensures { stored_status self.new ≡ Ready 1 cost (arc_value value) }
    {
        *self = Stored::Made(1, cost, value);
    }
}
