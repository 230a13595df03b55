//! How long work takes, and how much of it is done in a second.

use anyhow::Result;
use std::time::Instant;

/// How long work took that was done so many times.
#[derive(Clone, Copy)]
pub struct Timing {
    rounds: u64,
    nanoseconds: u128,
}

impl Timing {
    /// Of no work.
    pub fn zero() -> Timing {
        Timing {
            rounds: 0,
            nanoseconds: 0,
        }
    }

    /// Does the work so many times more.
    pub fn measure<F: FnMut() -> Result<()>>(
        &mut self,
        rt: &HostRuntime,
        rounds: u64,
        mut work: F,
    ) -> Result<()>
        requires always_callable { F.IsAlwaysCallable work }
    {
        let start = Instant::now(rt)?;
        for _ in 0..rounds {
            work()?;
        }
        let nanoseconds = start.elapsed(rt)?.as_nanos();
        self.rounds = self.rounds.wrapping_add(rounds);
        self.nanoseconds = self.nanoseconds.wrapping_add(nanoseconds);
        Ok(())
    }

    /// Counts the work as done once more, from a moment until now.
    pub fn add(&mut self, rt: &HostRuntime, start: Instant) -> Result<()> {
        let nanoseconds = start.elapsed(rt)?.as_nanos();
        self.rounds = self.rounds.wrapping_add(1);
        self.nanoseconds = self.nanoseconds.wrapping_add(nanoseconds);
        Ok(())
    }

    /// How many tenths of a nanosecond one thing took, with so many in each round.
    pub fn tenths_of_nanoseconds(&self, things: u64) -> u128 {
        let all = u128::from(self.rounds).wrapping_mul(u128::from(things));
        let tenths = self.nanoseconds.wrapping_mul(10).checked_div(all);
        tenths.unwrap_or(0)
    }

    /// How many microseconds the work took, done once.
    pub fn microseconds(&self) -> u128 {
        let nanoseconds = self.nanoseconds.checked_div(u128::from(self.rounds));
        nanoseconds.unwrap_or(0) / 1000
    }

    /// How many things were done in a second, with so many in each round.
    pub fn per_second(&self, things: u64) -> u128 {
        u128::from(self.rounds)
            .wrapping_mul(u128::from(things))
            .wrapping_mul(1_000_000_000)
            .checked_div(self.nanoseconds)
            .unwrap_or(0)
    }
}
