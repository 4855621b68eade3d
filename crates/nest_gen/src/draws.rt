//! Drawn numbers.
ghost use Rattle.std.specs.Prelude.{◌≡◌, ◌<◌};
ghost use Rattle.nest_gen.specs.Draws.{next, drawn};

const MULTIPLIER: u64 = 6_364_136_223_846_793_005;

const INCREMENT: u64 = 1_442_695_040_888_963_407;

/// A sequence of numbers, as far as it was drawn from: the latest one, which is the seed before the first draw.
#[derive(Debug, Drop)]
pub struct Draws {
    pub latest: u64,
}

impl Draws {
    /// A number below `most`, made of the next one of the sequence.
    pub fn draw(&mut self, most: u64) -> u64
        requires { 0 < most }
        ensures latest { self.new.latest ≡ next self.old.latest }
        ensures drawn { result ≡ drawn most self.new.latest }
    {
        self.latest = self.latest.wrapping_mul(MULTIPLIER).wrapping_add(INCREMENT);
        self.latest / (1 << 33) % most
    }
}
