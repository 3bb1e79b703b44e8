//! When snapshots are due.

ghost use Rattle.std.specs.Prelude.{◌≡◌, ◌≤◌, ◌<◌, ◌+◌, ◌^◌, IfOk};
ghost use Rattle.spk_sched.specs.Plans.{times_by, is_reached, next_above};

use std::alloc::{AllocError, Global};
use std::marker::Model;

/// A snapshot is due at `next` and then every `delta` ticks. `next` counts from the time 0, not from a run's start.
#[derive(Clone, Copy, Debug, PartialEq, Eq)]
pub struct Due {
    pub next: u64,
    pub delta: u64,
}

/// When the snapshots of each dump are due, in the order of the dumps.
#[derive(Debug, Drop)]
pub struct Dues {
    dues: Vec<Due>,
}

impl Model for Dues {
    ghost use Rattle.std.specs.Prelude.{List};
    ghost use Rattle.spk_sched.specs.declared.dues.Due.{Due};

    ghost Value = { List Due };

    ghost view = { λ d. d.dues.items };
}

impl Due {
    /// How many of the times at which a snapshot is due have come by a time.
    fn times_by(self, time: u64) -> u128
        requires { 1 ≤ self.delta }
        ensures { result ≡ times_by self time }
    {
        match time.checked_sub(self.next) {
            Some(since) => u128::from(since / self.delta) + 1,
            None => 0,
        }
    }

    /// The least of its times above this one. At this time a snapshot has been due.
    pub fn next_above(self, time: u64) -> u64
        requires some { 1 ≤ self.delta }
        requires come { self.next ≤ time }
        requires fits { time + self.delta < 2 ^ 64 }
        ensures next { result ≡ next_above time self }
        ensures above { time < result }
    {
        let times = (time - self.next) / self.delta + 1;
        self.next + times * self.delta
    }

    /// Whether a snapshot was due after the first of two times, and not after the second.
    pub fn is_reached(self, before: u64, time: u64) -> bool
        requires { 1 ≤ self.delta }
        ensures { result ≡ is_reached self before time }
    {
        self.times_by(before) < self.times_by(time)
    }
}

impl Dues {
    /// The list that a `Vec` is.
    pub fn from_vec(dues: Vec<Due>) -> Dues
        ensures { result ≡ dues.items }
    {
        Dues { dues }
    }

    /// The list as a slice.
    pub fn as_slice(&self) -> &[Due]
        ensures { result.now ≡ self.now }
    {
        &self.dues
    }

    /// The same list again.
    pub fn copy(&self, alloc: Global) -> Result<Dues, AllocError>
        ensures { IfOk result (λ dues. dues ≡ self.now) }
    {
        let mut dues = Vec::with_capacity(alloc, self.dues.len())?;
        dues.extend_from_slice(&self.dues)?;
        Ok(Dues { dues })
    }
}

#[cfg(test)]
mod tests {
    use super::*;
    use std::test::Fail;

    #[test]
    fn is_reached_after_the_first_time(rt: HostRuntime) {
        // Snapshots are due at 15, 35, 55 and so on.
        let due = Due {
            next: 15,
            delta: 20,
        };
        for (before, time, want) in [
            (0, 14, false),
            (0, 15, true),
            (14, 15, true),
            (15, 15, false),
            (15, 34, false),
            (16, 35, true),
            (15, 100, true),
            (55, 74, false),
        ] {
            assert_eq!(rt;
                due.is_reached(before, time),
                want,
                "from {before} to {time}"
            );
        }
    }

    #[test]
    fn is_due_next_above_a_time(rt: HostRuntime) {
        let due = Due {
            next: 15,
            delta: 20,
        };
        for (time, want) in [(15, 35), (34, 35), (35, 55), (60, 75)] {
            assert_eq!(rt; due.next_above(time), want, "above {time}");
        }
    }

    #[test]
    fn copies_dues(rt: HostRuntime) -> Result<(), Fail> {
        let first = Due { next: 1, delta: 2 };
        let second = Due { next: 3, delta: 4 };
        let dues = Dues::from_vec(vec![in rt.alloc(); first, second]?);
        let again = dues.copy(rt.alloc())?;
        assert_eq!(rt; dues.as_slice(), [first, second].as_slice());
        assert_eq!(rt; again.as_slice(), [first, second].as_slice());
        Ok(())
    }
}
