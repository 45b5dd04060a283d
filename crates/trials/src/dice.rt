// A fixed generator of pseudo-random numbers; the model has the same one.
#[derive(Drop)]
pub struct Dice {
    state: u32,
}

impl Dice {
    pub fn new(seed: u32) -> Dice {
        Dice { state: seed }
    }

    // A number below n, and 0 where there is none.
    pub fn below(&mut self, n: usize) -> usize {
        self.state = self
            .state
            .wrapping_mul(1_664_525)
            .wrapping_add(1_013_904_223);
        if n == 0 {
            0
        } else {
            (self.state >> 16) as usize % n
        }
    }

    // One of so many numbers from `low` on.
    pub fn number(&mut self, low: i32, count: usize) -> i32 {
        low.saturating_add(i32::try_from(self.below(count)).unwrap_or(0))
    }
}
