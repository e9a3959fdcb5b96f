//! Numbers drawn one after another from a seed.
ghost use Rattle.std.specs.Prelude.{◌≡◌, ◌<◌, length};
ghost use Rattle.spec_document.specs.Limits.{AreBytes};
ghost use Rattle.spec_generated.specs.Draws.{draw};
ghost use Rattle.spec_generated.specs.Generated.{pixel};
ghost use Rattle.xl_report.specs.Drawing.{IsDrawn};

use std::marker::Model;

/// The numbers that are drawn from a seed.
#[derive(Drop)]
pub struct Draws {
    pub(crate) state: u32,
}

impl Model for Draws {
    ghost use Rattle.std.specs.Prelude.{ℕ};

    ghost Value = { ℕ };

    ghost view = { λ d. d.state };
}

impl Draws {
    /// The draws of a seed, none made yet.
    pub fn new(seed: u32) -> Draws
        ensures { result ≡ seed }
    {
        Draws { state: seed }
    }

    /// The next number, below n.
    pub fn draw(&mut self, n: u32) -> u32
        requires { 0 < n }
        ensures value { IsDrawn (draw n) self.old result self.new }
        ensures below { result < n }
    {
        self.state = ((1_664_525 * u64::from(self.state) + 1_013_904_223) % (1 << 32)) as u32;
        self.state / 65_536 % n
    }

    /// A byte.
    fn byte(&mut self) -> u8
        ensures { IsDrawn (draw 256) self.old result self.new }
    {
        self.draw(256) as u8
    }

    /// Four bytes.
    pub fn pixel(&mut self) -> [u8; 4]
        ensures drawn { IsDrawn pixel self.old result self.new }
        ensures four { length result ≡ 4 }
        ensures bytes { AreBytes result }
    {
        let a = self.byte();
        let b = self.byte();
        let c = self.byte();
        let d = self.byte();
        [a, b, c, d]
    }
}
