ghost use Rattle.std.specs.Prelude.{◌≡◌, ◌<◌, ◌^◌};
ghost use Rattle.demo_tests.specs.Draws.{drawn, first_seed, next_seed};

/// The numbers that are drawn, one after another.
#[derive(Drop)]
pub(crate) struct Draws {
    pub(crate) seed: u32,
    ghost below: { seed < 2 ^ 31 },
}

impl Draws {
    pub(crate) fn new() -> Draws
        ensures { result.seed ≡ first_seed }
    {
        Draws { seed: 1 }
    }

    /// Draws the next number.
    pub(crate) fn draw(&mut self) -> u32
        ensures seed { self.new.seed ≡ next_seed self.old.seed }
        ensures drawn { result ≡ drawn self.new.seed }
    {
        let next = (1_103_515_245 * u64::from(self.seed) + 12_345) % 2_147_483_648;
        self.seed = next as u32;
        self.seed / 65_536
    }
}
