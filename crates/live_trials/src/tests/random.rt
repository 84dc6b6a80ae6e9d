//! Numbers that look random and are the same in each run.
ghost use Rattle.std.specs.Prelude.{◌<◌};

/// Numbers that look random.
#[derive(Drop)]
pub struct Random(pub u64);

impl Random {
    /// One below a number.
    pub fn below(&mut self, end: u32) -> u32
        requires { 0 < end }
        ensures { result < end }
    {
        self.0 = self
            .0
            .wrapping_mul(6_364_136_223_846_793_005)
            .wrapping_add(1_442_695_040_888_963_407);
        u32::try_from(self.0 >> 33).unwrap_or(0) % end
    }
}
