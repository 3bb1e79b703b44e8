//! Applications.

ghost use Rattle.std.specs.Prelude.{◌≡◌, ℕ, ◌+◌, ◌-◌, ◌^◌, ◌<◌, ◌≤◌, Bool, IsTrue, All, length};
ghost use Rattle.spk_app.specs.Sights.{Around, with_written};
ghost use Rattle.spk_app.specs.Applications.{Application, HasMark, listed, propensity};
ghost use Rattle.spk_app.specs.Laws.{IsLocal, IsBounded, StaysValid, IsNarrow};

use crate::events::Events;
use crate::view::View;
use spk_num::Steps;
use spk_num::stream::Stream;
use std::sync::ledger::Ledger;

/// An application: which events a site has, and what they do.
pub trait App: Copy {
    /// The most hops to a site on which a site's events and its energy depend.
    const PROP: u32;
    /// The most hops to a site that an event or a trial writes.
    const STEP: u32;
    /// Whether it has trials, and so can be swept.
    const SWEEPS: bool;

    ghost PROP: { ℕ };

    ghost STEP: { ℕ };

    ghost SWEEPS: { Bool };

    /// The rules that it follows.
    ghost rules: { Self → Application };

    /// The most that the weights of a site's events add up to, in units of 2^-30.
    fn largest(&self) -> u64
        ensures { result ≡ (rules self.now).largest };

    /// Whether a site may have this value.
    fn valid(&self, v: u32) -> bool
        ensures { result ≡ (rules self.now).is_valid v };

    /// The events of a site. It takes one step.
    fn events<V: View, L: Ledger>(&self, view: &V, i: usize, steps: &mut Steps<L>) -> Events
        requires place { i < length (V.sight view.now).values }
        requires seen { Around (PROP - 1) (V.sight view.now).near (λ j. IsTrue (V.whole view.now j)) i }
        requires valid { All (λ v. IsTrue ((rules self.now).is_valid v)) (V.sight view.now).values }
        ensures events { listed result ≡ (rules self.now).events (V.sight view.now) i }
        ensures few { result.count ≤ 26 }
        ensures step { steps.new ≡ steps.old + 1 };

    /// Does the event of a site that has this mark.
    fn apply<V: View>(&self, view: &mut V, i: usize, mark: u32)
        requires place { i < length (V.sight view.old).values }
        requires seen { Around (PROP - 1) (V.sight view.old).near (λ j. IsTrue (V.whole view.old j)) i }
        requires valid { All (λ v. IsTrue ((rules self.now).is_valid v)) (V.sight view.old).values }
        requires event { HasMark ((rules self.now).events (V.sight view.old) i) mark }
        ensures sight { V.sight view.new ≡ with_written ((rules self.now).writes (V.sight view.old) i mark) (V.sight view.old) }
        ensures frame { V.frame view.new ≡ V.frame view.old }
        ensures whole { V.whole view.new ≡ V.whole view.old };

    /// A trial at a site, and whether its value changed.
    fn trial<V: View>(&self, view: &mut V, i: usize, stream: &mut Stream) -> bool
        requires sweeps { IsTrue SWEEPS }
        requires place { i < length (V.sight view.old).values }
        requires seen { Around (PROP - 1) (V.sight view.old).near (λ j. IsTrue (V.whole view.old j)) i }
        requires valid { All (λ v. IsTrue ((rules self.now).is_valid v)) (V.sight view.old).values }
        ensures sight { V.sight view.new ≡ with_written ((rules self.now).trial (V.sight view.old) i stream.old).writes (V.sight view.old) }
        ensures stream { stream.new ≡ ((rules self.now).trial (V.sight view.old) i stream.old).stream }
        ensures changed { result ≡ ((rules self.now).trial (V.sight view.old) i stream.old).changed }
        ensures frame { V.frame view.new ≡ V.frame view.old }
        ensures whole { V.whole view.new ≡ V.whole view.old };

    /// The energy of a site, in whole units.
    fn energy<V: View>(&self, view: &V, i: usize) -> u32
        requires place { i < length (V.sight view.now).values }
        requires seen { Around (PROP - 1) (V.sight view.now).near (λ j. IsTrue (V.whole view.now j)) i }
        requires valid { All (λ v. IsTrue ((rules self.now).is_valid v)) (V.sight view.now).values }
        ensures { result ≡ (rules self.now).energy (V.sight view.now) i };

    /// The sum of the weights of a site's events. It takes one step, as `events` does.
    fn propensity<V: View, L: Ledger>(&self, view: &V, i: usize, steps: &mut Steps<L>) -> u64
        requires place { i < length (V.sight view.now).values }
        requires seen { Around (PROP - 1) (V.sight view.now).near (λ j. IsTrue (V.whole view.now j)) i }
        requires valid { All (λ v. IsTrue ((rules self.now).is_valid v)) (V.sight view.now).values }
        ensures sum { result ≡ propensity ((rules self.now).events (V.sight view.now) i) }
        ensures limit { result ≤ 2 ^ 35 }
        ensures step { steps.new ≡ steps.old + 1 }
    {
        self.events(view, i, steps).propensity()
    }

    ghost local: { (app : Self) → IsLocal PROP STEP (rules app) };

    ghost bounded: { (app : Self) → IsBounded (rules app) };

    ghost stays_valid: { (app : Self) → StaysValid PROP (rules app) };

    ghost narrow: { IsNarrow PROP STEP };
}
