//! Tickets and pins.
ghost use Rattle.std.specs.Prelude.{◌≡◌, ◌<◌, ℕ, length, IfSome};
ghost use Rattle.world_core.specs.Holdings as holdings;

/// A ticket or a pin: the key of a shard that an actor holds.
#[derive(Drop)]
pub struct Holding<K> {
    pub actor: u32,
    pub shard: usize,
    pub key: K,
}

/// Where the actor's i-th stands in the list, counted from 0.
pub fn holding_place<K>(list: &[Holding<K>], actor: u32, i: usize) -> Option<usize>
    ensures place { result ≡ holdings.holding_place actor i list.now }
    ensures within { IfSome result (λ at. at < length list.now) }
{
    let mut left = i;
    for at in 0..list.len() {
        if list[at].actor == actor {
            if left == 0 {
                return Some(at);
            }
            left -= 1;
        }
    }
    None
}
