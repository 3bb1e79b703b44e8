//! The events of a site.

ghost use Rattle.std.specs.Prelude.{◌≡◌, ◌+◌, ◌<◌, ◌≤◌, ◌++◌, [], ◌∷◌, length, slice_set};
ghost use Rattle.spk_app.specs.Applications.{listed, propensity};

/// The events of a site: of these the first `count` count. A weight is in units of 2^-30.
#[derive(Clone, Copy, Debug)]
pub struct Events {
    pub count: u32,
    pub weights: [u32; 26],
    pub marks: [u32; 26],
}

/// Puts a number at a place of a list of 26.
fn put(list: &mut [u32; 26], at: usize, number: u32)
    requires { at < 26 }
    ensures length { length list.old ≡ 26 }
    ensures list { list.new ≡ slice_set list.old at number }
{
    list[at] = number;
}

#[tactic(auto, unfolding(crate::specs::Applications::listed, crate::specs::Applications::propensity))]
impl Events {
    /// No events.
    pub fn none() -> Events
        ensures events { listed result ≡ [] }
        ensures count { result.count ≡ 0 }
    {
        Events {
            count: 0,
            weights: [0; 26],
            marks: [0; 26],
        }
    }

    /// Adds an event.
    pub fn push(&mut self, mark: u32, weight: u32)
        requires { self.old.count < 26 }
        ensures events { listed self.new ≡ listed self.old ++ record { mark = mark; weight = weight } ∷ [] }
        ensures count { self.new.count ≡ self.old.count + 1 }
    {
        let at = self.count as usize;
        put(&mut self.weights, at, weight);
        put(&mut self.marks, at, mark);
        self.count += 1;
    }

    /// The site's propensity.
    pub fn propensity(&self) -> u64
        requires few { self.now.count ≤ 26 }
        ensures sum { result ≡ propensity (listed self.now) }
    {
        let mut sum = 0;
        'weights: for k in 0..self.count as usize {
            sum += u64::from(self.weights[k]);
        }
        sum
    }
}

#[cfg(test)]
mod tests {
    use super::*;

    #[test]
    fn adds_up_two_events(rt: HostRuntime) {
        let mut events = Events::none();
        assert_eq!(rt; events.count, 0);
        assert_eq!(rt; events.propensity(), 0);
        events.push(20, 3);
        events.push(10, 5);
        assert_eq!(rt; events.count, 2);
        assert_eq!(rt; &events.marks[..2], [20, 10].as_slice());
        assert_eq!(rt; &events.weights[..2], [3, 5].as_slice());
        assert_eq!(rt; events.propensity(), 8);
    }
}
