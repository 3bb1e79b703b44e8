//! Values that trials propose to sites. Which are accepted, and with how many draws, is a rule of our own.

ghost use Rattle.std.specs.Prelude.{◌≡◌, ℕ, ◌^◌, ◌<◌, ◌≤◌, IsTrue, length, if◌then◌else◌};
ghost use Rattle.spk_app.specs.Sights.{with_written};
ghost use Rattle.spk_potts.specs.Trials.{accepted, judged, proposed, rejected};

use crate::energy::weight_to;
use spk_app::{NearValues, View, WeightTable};
use spk_num::Stream;

/// The weight of a value that is always accepted, in units of 2^-30.
pub(crate) const WHOLE_WEIGHT: u32 = 1 << 30;

/// Whether a value of this weight is accepted.
fn accepts(weight: u32, stream: &mut Stream) -> bool
    ensures { (i value : ℕ) → judged i value weight stream.old ≡ (if result then accepted i value stream.new else rejected stream.new) }
{
    match weight {
        WHOLE_WEIGHT => true,
        0 => false,
        _ => stream.below(u64::from(WHOLE_WEIGHT)) < u64::from(weight),
    }
}

/// Gives a site a value of this weight where it is accepted, and says whether it is.
pub(crate) fn judge<V: View>(
    view: &mut V,
    i: usize,
    value: u32,
    weight: u32,
    stream: &mut Stream,
) -> bool
    requires { i < length (V.sight view.old).values }
    ensures sight { V.sight view.new ≡ with_written (judged i value weight stream.old).writes (V.sight view.old) }
    ensures stream { stream.new ≡ (judged i value weight stream.old).stream }
    ensures changed { result ≡ (judged i value weight stream.old).changed }
    ensures frame { V.frame view.new ≡ V.frame view.old }
    ensures whole { V.whole view.new ≡ V.whole view.old }
{
    let accepted = accepts(weight, stream);
    if accepted {
        view.put(i, value);
    }
    accepted
}

/// Proposes a value to a site, and says whether the site took it. Its own value is rejected.
pub(crate) fn propose<V: View>(
    view: &mut V,
    i: usize,
    value: u32,
    weights: &WeightTable,
    stream: &mut Stream,
) -> bool
    requires place { i < length (V.sight view.old).values }
    requires whole { IsTrue (V.whole view.old i) }
    ensures sight { V.sight view.new ≡ with_written (proposed weights.now (V.sight view.old) i value stream.old).writes (V.sight view.old) }
    ensures stream { stream.new ≡ (proposed weights.now (V.sight view.old) i value stream.old).stream }
    ensures changed { result ≡ (proposed weights.now (V.sight view.old) i value stream.old).changed }
    ensures frame { V.frame view.new ≡ V.frame view.old }
    ensures whole { V.whole view.new ≡ V.whole view.old }
{
    let own = view.value(i);
    if value == own {
        return false;
    }
    let mut near = NearValues::none();
    view.read_near(i, &mut near);
    let weight = weight_to(weights, own, value, near.as_slice());
    judge(view, i, value, weight, stream)
}
