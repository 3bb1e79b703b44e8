//! Counts of events.

ghost use Rattle.std.specs.Prelude.{◌≡◌};
ghost use Rattle.spk_sched.specs.Turns.{counts_sum, no_counts, with_accepted, with_rejected};

/// How many events were accepted, and how many rejected. A count that would pass 2^64 - 1 stays there.
#[derive(Clone, Copy, Debug, PartialEq, Eq)]
pub struct Counts {
    pub accepted: u64,
    pub rejected: u64,
}

impl Counts {
    /// No events.
    pub fn none() -> Counts
        ensures { result ≡ no_counts }
    {
        Counts {
            accepted: 0,
            rejected: 0,
        }
    }

    /// These events and more of them.
    pub fn plus(self, more: Counts) -> Counts
        ensures { result ≡ counts_sum self more }
    {
        Counts {
            accepted: self.accepted.saturating_add(more.accepted),
            rejected: self.rejected.saturating_add(more.rejected),
        }
    }

    /// Counts one more event that was accepted.
    pub fn accept(&mut self)
        ensures { self.new ≡ with_accepted self.old }
    {
        self.accepted = self.accepted.saturating_add(1);
    }

    /// Counts one more event that was rejected.
    pub fn reject(&mut self)
        ensures { self.new ≡ with_rejected self.old }
    {
        self.rejected = self.rejected.saturating_add(1);
    }
}

#[cfg(test)]
mod tests {
    use super::*;

    #[test]
    fn ends_at_the_last_number_of_64_bits(rt: HostRuntime) {
        let mut counts = Counts::none();
        counts.accept();
        let many = Counts {
            accepted: u64::MAX,
            rejected: 2,
        };
        assert_eq!(rt;
            counts.plus(many),
            Counts {
                accepted: u64::MAX,
                rejected: 2
            }
        );
    }
}
