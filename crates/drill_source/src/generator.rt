// The numbers of a text.

ghost use Rattle.std.specs.Prelude.{◌≡◌, ◌<◌};
ghost use Rattle.drill_source.specs.Drill.{drawn, next_state};

/// A linear congruential generator modulo 2^32.
#[derive(Clone, Copy)]
pub struct Generator {
    state: u32,
}

impl Generator {
    /// A generator that begins in this state.
    pub fn new(seed: u32) -> Self
        ensures { result.state ≡ seed }
    {
        Generator { state: seed }
    }

    /// Goes to the next state, and gives the number below 1000 that its upper half holds.
    pub fn draw(&mut self) -> u32
        ensures state { self.new.state ≡ next_state self.old.state }
        ensures drawn { result ≡ drawn self.new.state }
        ensures small { result < 1000 }
    {
        self.state = self
            .state
            .wrapping_mul(1_664_525)
            .wrapping_add(1_013_904_223);
        (self.state >> 16) % 1000
    }
}
