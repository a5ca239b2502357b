ghost use Rattle.std.specs.Prelude.{◌≡◌};
ghost use Rattle.sample_values.specs.Draws.{next_state, drawn};

/// A linear congruential generator of 31 bits.
#[derive(Drop)]
pub struct Draws {
    state: u32,
}

// Clauses see its state.
impl std::marker::Model for Draws {
    ghost use Rattle.std.specs.Prelude.{ℕ};

    ghost Value = { ℕ };

    ghost view = { λ d. d.state };
}

impl Draws {
    /// The generator that begins with a seed.
    pub fn from_seed(seed: u32) -> Draws
        ensures { result ≡ seed }
    {
        Draws { state: seed }
    }

    /// The next number, from 0 to 999.
    pub fn draw(&mut self) -> u32
        ensures state { self.new ≡ next_state self.old }
        ensures value { result ≡ drawn self.new }
    {
        let next = (1_103_515_245 * u64::from(self.state) + 12_345) % (1 << 31);
        self.state = next as u32;
        self.state / 65_536 % 1_000
    }
}
