//! Tests on a ring of four sites. The neighbours of a site are the one before it and the one after it.

ghost use Rattle.std.specs.Prelude.{◌≡◌, ◌<◌, All, IfOk, IsTrue, length};

use crate::Diffusion;
use spk_app::{App, Events, PlainView, Steps};
use spk_lattice::{Lattice, Style};
use spk_num::Stream;
use std::alloc::{AllocError, Global};
use std::marker::Brand;
use std::process::Abort;
use std::sync::ledger::{Blank, Ledger};
use std::test::Fail;

/// The ring.
fn ring(rt: &impl Abort) -> Lattice {
    match Lattice::new(Style::Line2, 4, 1, 1) {
        Ok(lattice) => lattice,
        Err(_) => panic!(rt; "there is such a lattice"),
    }
}

/// The sites with these values, which the application takes.
fn sites<A: App>(
    rt: &impl Abort,
    alloc: Global,
    app: &A,
    values: [u32; 4],
) -> Result<PlainView, AllocError>
    ensures count { IfOk result (λ view. length view.values ≡ 4) }
    ensures valid { IfOk result (λ view. All (λ v. IsTrue ((A.rules app.now).is_valid v)) view.values) }
{
    let lattice = ring(rt);
    assert_eq!(rt; lattice.sites(), 4);
    let [a, b, c, d] = values;
    let values = vec![in alloc; a, b, c, d]?;
    for v in &values {
        assert!(rt; app.valid(*v));
    }
    Ok(PlainView::new(&lattice, values))
}

/// The energies of the sites.
fn energies<A: App>(app: &A, view: &PlainView) -> [u32; 4]
    requires count { length view.now.values ≡ 4 }
    requires valid { All (λ v. IsTrue ((A.rules app.now).is_valid v)) view.now.values }
{
    let mut energies = [0; 4];
    for place in 0..4 {
        energies[place] = app.energy(view, place);
    }
    energies
}

/// The propensities of the sites.
fn propensities<A: App, L: Ledger>(app: &A, view: &PlainView, blank: Blank) -> [u64; 4]
    requires name { blank.name ≡ L.name }
    requires parts { blank.parts ≡ L.parts }
    requires some { 0 < blank.parts }
    requires count { length view.now.values ≡ 4 }
    requires valid { All (λ v. IsTrue ((A.rules app.now).is_valid v)) view.now.values }
{
    let mut steps = Steps::<L>::new(blank);
    let mut propensities = [0; 4];
    for place in 0..4 {
        propensities[place] = app.propensity(view, place, &mut steps);
    }
    propensities
}

/// The events of a site, of which the first is done.
fn first_done<A: App, L: Ledger>(
    rt: &impl Abort,
    app: &A,
    view: &mut PlainView,
    place: usize,
    blank: Blank,
) -> Events
    requires name { blank.name ≡ L.name }
    requires parts { blank.parts ≡ L.parts }
    requires some { 0 < blank.parts }
    requires count { length view.old.values ≡ 4 }
    requires valid { All (λ v. IsTrue ((A.rules app.now).is_valid v)) view.old.values }
    requires place { place < 4 }
{
    let mut steps = Steps::<L>::new(blank);
    let events = app.events(view, place, &mut steps);
    assert!(rt; events.count > 0);
    app.apply(view, place, events.marks[0]);
    events
}

/// The most that the weights of a site's events add up to.
fn largest<A: App>(app: &A) -> u64 {
    app.largest()
}

#[test]
fn weighs_hops_by_crowds(rt: HostRuntime) -> Result<(), Fail> {
    for (temperature, values, want, energies_want) in [
        (
            1_000_000,
            [2, 2, 1, 1],
            [395007542, 395007542, 0, 0],
            [1, 1, 0, 0],
        ),
        (0, [2, 2, 1, 1], [0, 0, 0, 0], [1, 1, 0, 0]),
        (
            1_000_000,
            [2, 1, 2, 1],
            [2147483648, 0, 2147483648, 0],
            [2, 0, 2, 0],
        ),
        (
            0,
            [2, 1, 2, 1],
            [2147483648, 0, 2147483648, 0],
            [2, 0, 2, 0],
        ),
    ] {
        let app = Diffusion::new(true, &ring(&rt), temperature);
        let view = sites(&rt, rt.alloc(), &app, values)?;
        assert_eq!(rt;
            propensities::<Diffusion, Brand>(&app, &view, Blank::new(1)),
            want
        );
        assert_eq!(rt; energies(&app, &view), energies_want);
    }
    Ok(())
}

#[test]
fn hops_where_energies_are_off(rt: HostRuntime) -> Result<(), Fail> {
    let app = Diffusion::new(false, &ring(&rt), 0);
    let mut view = sites(&rt, rt.alloc(), &app, [2, 2, 1, 1])?;
    assert_eq!(rt; energies(&app, &view), [0, 0, 0, 0]);
    let events = first_done::<Diffusion, Brand>(&rt, &app, &mut view, 0, Blank::new(1));
    assert_eq!(rt;
        (events.count, events.marks[0], events.weights[0]),
        (1, 0, 1073741824)
    );
    assert_eq!(rt; view.into_values().as_slice(), [1, 2, 1, 2].as_slice());
    Ok(())
}

#[test]
fn has_two_values_and_no_trials(rt: HostRuntime) -> Result<(), Fail> {
    let app = Diffusion::new(true, &ring(&rt), 1_000_000);
    assert_eq!(rt; largest(&app), 2147483648);
    for (value, want) in [(0, false), (1, true), (2, true), (3, false)] {
        assert_eq!(rt; app.valid(value), want, "at {value}");
    }
    let mut view = sites(&rt, rt.alloc(), &app, [2, 2, 1, 1])?;
    let mut stream = Stream::new(12345, 0);
    let before = stream;
    assert!(rt; !app.trial(&mut view, 0, &mut stream));
    assert!(rt; stream == before);
    assert_eq!(rt; view.into_values().as_slice(), [2, 2, 1, 1].as_slice());
    Ok(())
}
