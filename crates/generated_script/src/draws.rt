//! Numbers drawn one after another.

ghost use Rattle.std.specs.Prelude.{◌≡◌, ◌<◌};
ghost use Rattle.generated_script.specs.Draws.{number_drawn, next_state};

/// What the next numbers are drawn from.
#[derive(Clone, Copy)]
pub struct Draws {
    pub state: u32,
}

impl Draws {
    /// The next number below a limit, by a linear congruence modulo 2^31.
    pub fn below(&mut self, limit: u32) -> u32
        requires { 0 < limit }
        ensures state { self.new.state ≡ next_state self.old.state }
        ensures drawn { result ≡ number_drawn self.new.state limit }
        ensures below { result < limit }
    {
        let state = (u64::from(self.state) * 1_103_515_245 + 12_345) % 2_147_483_648;
        self.state = state as u32;
        self.state / 65_536 % limit
    }
}
