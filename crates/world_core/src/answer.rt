//! What an actor's ask is answered.

/// The answer to an ask: the actor has a pin of the key, or a ticket to make its value; another ticket of it is open, whose
/// actor has this number; or there is no room for a key or a pin more.
#[derive(Clone, Copy, Debug, PartialEq, Eq)]
pub enum ActorAnswer {
    Hit,
    Claim,
    Flying(u32),
    Crowded,
}
