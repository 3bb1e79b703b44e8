//! The event of a site that a rest names.

ghost use Rattle.std.specs.Prelude.{◌≡◌, ◌<◌, ◌≤◌, Some, option_map};
ghost use Rattle.spk_app.specs.Applications.{Event, HasMark, listed, propensity};
ghost use Rattle.spk_solve.specs.Choice.{named};

use spk_app::Events;

/// The mark of the event that a rest names.
#[tactic(auto, using(crate::proofs::Listed::marks))]
pub fn mark_of(events: &Events, rest: u64) -> u32
    requires few { events.now.count ≤ 26 }
    requires rest { rest < propensity (listed events.now) }
    ensures named { option_map (λ (e : Event). e.mark) (named (λ (e : Event). e.weight) rest (listed events.now)) ≡ Some result }
    ensures has { HasMark (listed events.now) result }
{
    let mut passed = 0;
    'weights: for k in 0..events.count as usize {
        passed += u64::from(events.weights[k]);
        if rest < passed {
            return events.marks[k];
        }
    }
    unreachable!()
}

#[cfg(test)]
mod tests {
    use super::*;
    use std::process::Abort;

    /// Two events of weights 3 and 5.
    fn two(rt: &impl Abort) -> Events {
        let mut events = Events::none();
        events.push(20, 3);
        assert!(rt; events.count < 26);
        events.push(10, 5);
        events
    }

    #[test]
    fn names_the_event_that_passes(rt: HostRuntime) {
        let events = two(&rt);
        assert!(rt; events.count < 26);
        for (rest, mark) in [(0, 20), (2, 20), (3, 10), (7, 10)] {
            assert!(rt; rest < events.propensity());
            assert_eq!(rt; mark_of(&events, rest), mark, "at {rest}");
        }
    }
}
