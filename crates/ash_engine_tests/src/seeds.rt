//! Choices by a seed.

/// A seed, from which choices come.
#[derive(Drop)]
pub struct Seed {
    state: u64,
}

impl Seed {
    /// The seed of a number.
    pub fn new(number: u64) -> Seed {
        let state = number.wrapping_mul(0x9e37_79b9_7f4a_7c15);
        Seed {
            state: state.wrapping_add(0x1234_5678_9abc_def1),
        }
    }

    /// A number below a bound. It is 0 if the bound is.
    pub fn below(&mut self, bound: u64) -> u64 {
        self.state = self
            .state
            .wrapping_mul(6_364_136_223_846_793_005)
            .wrapping_add(1_442_695_040_888_963_407);
        (self.state >> 33).checked_rem(bound).unwrap_or(0)
    }

    /// One of several texts, or the empty one if there is none.
    pub fn pick<'a>(&mut self, texts: &[&'a str]) -> &'a str {
        let place = self.below(texts.len() as u64);
        texts.get(place as usize).copied().unwrap_or_default()
    }
}
