//! The numbers that files are made of.
ghost use Rattle.std.specs.Prelude.{◌≡◌};
ghost use Rattle.generated_files.specs.Numbers.{next_number, shown};

/// Numbers of 64 bits, each made of the one before. A draw shows the upper 31 bits of the next one.
#[derive(Clone, Copy, Debug, PartialEq, Eq)]
pub struct Numbers {
    /// The newest number, the seed before the first draw.
    pub newest: u64,
}

impl Numbers {
    /// The numbers of a seed.
    pub fn of_seed(seed: u32) -> Numbers
        ensures newest { result.newest ≡ seed }
    {
        Numbers {
            newest: u64::from(seed),
        }
    }

    /// Goes on to the next number, and shows its upper bits.
    pub fn draw(&mut self) -> u64
        ensures next { self.new.newest ≡ next_number self.old.newest }
        ensures shows { result ≡ shown self.new.newest }
    {
        self.newest = self
            .newest
            .wrapping_mul(6_364_136_223_846_793_005)
            .wrapping_add(1_442_695_040_888_963_407);
        self.newest >> 33
    }
}
