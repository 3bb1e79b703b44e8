//! Ising and Potts on small lattices.

ghost use Rattle.std.specs.Prelude.{◌≡◌, ◌-◌, ◌<◌, ◌≤◌, All, IfOk, IsTrue, length};
ghost use Rattle.spk_lattice.specs.Layout.{dimensions_of};

use super::*;
use spk_app::{App, Events, PlainView, Steps, View};
use spk_lattice::{Lattice, Style};
use spk_num::Stream;
use std::alloc::{AllocError, Global};
use std::marker::Brand;
use std::process::Abort;
use std::sync::ledger::{Blank, Ledger};
use std::test::Fail;

/// The weight 1.
const WHOLE: u64 = 1 << 30;

/// A chain of five sites, of which the middle one has the value 2.
const CHAIN: [u32; 5] = [1, 1, 2, 1, 1];

/// A square of nine sites, whose first one has the neighbours 9, 7, 8, 3, 2, 6, 4 and 5.
const SQUARE: [u32; 9] = [2, 1, 1, 1, 1, 1, 1, 3, 4];

/// The lattice with this style and so many cells along x and y.
fn flat(rt: &impl Abort, style: Style, nx: u32, ny: u32) -> Lattice
    requires y_unused { dimensions_of style ≤ 1 → ny ≡ 1 }
{
    match Lattice::new(style, nx, ny, 1) {
        Ok(lattice) => lattice,
        Err(_) => panic!(rt; "there is such a lattice"),
    }
}

/// All sites of a lattice with these values, which the application takes.
fn sites_with<A: App>(
    rt: &impl Abort,
    alloc: Global,
    app: &A,
    lattice: &Lattice,
    values: &[u32],
) -> Result<PlainView, AllocError>
    ensures { IfOk result (λ sites. (length sites.values ≡ length values.now) × All (λ v. IsTrue ((A.rules app.now).is_valid v)) sites.values) }
{
    let mut kept = Vec::new(alloc);
    'values: for value in values {
        assert!(rt; app.valid(*value));
        kept.push(*value)?;
    }
    assert!(rt; kept.len() == lattice.sites() as usize);
    Ok(PlainView::new(lattice, kept))
}

/// What an application says of a site.
#[derive(Clone, Copy, Debug)]
struct Account {
    events: Events,
    propensity: u64,
    energy: u32,
}

fn counted<A: App, L: Ledger>(app: &A, sites: &PlainView, place: usize, blank: Blank) -> Account
    requires name { blank.name ≡ L.name }
    requires parts { blank.parts ≡ L.parts }
    requires some { 0 < blank.parts }
    requires place { place < length sites.now.values }
    requires valid { All (λ v. IsTrue ((A.rules app.now).is_valid v)) sites.now.values }
{
    let mut steps = Steps::<L>::new(blank);
    Account {
        events: app.events(sites, place, &mut steps),
        propensity: app.propensity(sites, place, &mut steps),
        energy: app.energy(sites, place),
    }
}

/// What an application says of the site at a place.
fn account_of<A: App>(app: &A, sites: &PlainView, place: usize) -> Account
    requires place { place < length sites.now.values }
    requires valid { All (λ v. IsTrue ((A.rules app.now).is_valid v)) sites.now.values }
{
    counted::<A, Brand>(app, sites, place, Blank::new(1))
}

fn happened<A: App, L: Ledger>(
    rt: &impl Abort,
    app: &A,
    mut sites: PlainView,
    place: usize,
    event: usize,
    blank: Blank,
) -> Vec<u32>
    requires name { blank.name ≡ L.name }
    requires parts { blank.parts ≡ L.parts }
    requires some { 0 < blank.parts }
    requires place { place < length sites.values }
    requires valid { All (λ v. IsTrue ((A.rules app.now).is_valid v)) sites.values }
{
    let mut steps = Steps::<L>::new(blank);
    let events = app.events(&sites, place, &mut steps);
    assert!(rt; event < events.count as usize);
    app.apply(&mut sites, place, events.marks[event]);
    sites.into_values()
}

/// The values after an event of the site at a place.
fn happen<A: App>(
    rt: &impl Abort,
    app: &A,
    sites: PlainView,
    place: usize,
    event: usize,
) -> Vec<u32>
    requires place { place < length sites.values }
    requires valid { All (λ v. IsTrue ((A.rules app.now).is_valid v)) sites.values }
{
    happened::<A, Brand>(rt, app, sites, place, event, Blank::new(1))
}

/// What a trial leaves: the site's value, the stream's state, and whether the value changed.
#[derive(Clone, Copy, Debug, PartialEq, Eq)]
struct Outcome(Option<u32>, u32, bool);

/// What a trial at a place leaves, where the stream has this state.
fn tried<A: App>(
    rt: &impl Abort,
    app: &A,
    mut sites: PlainView,
    place: usize,
    state: u32,
) -> Outcome
    requires sweeps { IsTrue A.SWEEPS }
    requires place { place < length sites.values }
    requires valid { All (λ v. IsTrue ((A.rules app.now).is_valid v)) sites.values }
{
    let mut stream = Stream::of_state(state).expect(rt, "there is such a state");
    let changed = app.trial(&mut sites, place, &mut stream);
    Outcome(
        sites.into_values().get(place).copied(),
        stream.state(),
        changed,
    )
}

fn largest<A: App>(app: &A) -> u64 {
    app.largest()
}

#[test]
fn lists_the_events_of_potts(rt: HostRuntime) -> Result<(), Fail> {
    let square = flat(&rt, Style::Sq8, 3, 3);
    let app = Potts::new(4, false, &square, 0);
    let sites = sites_with(&rt, rt.alloc(), &app, &square, &SQUARE)?;
    let account = account_of(&app, &sites, 0);
    assert_eq!(rt; account.events.count, 3);
    assert_eq!(rt; &account.events.marks[..3], [4, 1, 3].as_slice());
    assert_eq!(rt; &account.events.weights[..3], [1073741824; 3].as_slice());
    assert_eq!(rt; account.propensity, 3221225472);
    assert_eq!(rt; account.energy, 8);
    assert_eq!(rt; largest(&app), 8589934592);
    Ok(())
}

#[test]
fn weighs_the_events_of_ising(rt: HostRuntime) -> Result<(), Fail> {
    let chain = flat(&rt, Style::Line2, 5, 1);
    let cold = Ising::new(false, &chain, 0);
    for (place, propensity, energy) in [
        (0, 0, 0),
        (1, WHOLE, 1),
        (2, WHOLE, 2),
        (3, WHOLE, 1),
        (4, 0, 0),
    ] {
        let sites = sites_with(&rt, rt.alloc(), &cold, &chain, &CHAIN)?;
        let account = account_of(&cold, &sites, place);
        assert_eq!(rt; account.propensity, propensity, "at {place}");
        assert_eq!(rt; account.energy, energy, "at {place}");
    }
    let warm = Ising::new(false, &chain, 1_000_000);
    let sites = sites_with(&rt, rt.alloc(), &warm, &chain, &CHAIN)?;
    assert_eq!(rt; account_of(&warm, &sites, 0).propensity, 145315153);
    assert_eq!(rt; largest(&warm), 1073741824);
    Ok(())
}

#[test]
fn does_an_event_of_potts(rt: HostRuntime) -> Result<(), Fail> {
    let square = flat(&rt, Style::Sq8, 3, 3);
    let app = Potts::new(4, true, &square, 0);
    let sites = sites_with(&rt, rt.alloc(), &app, &square, &SQUARE)?;
    let values = happen(&rt, &app, sites, 0, 2);
    assert_eq!(rt; values.as_slice(), [3, 1, 1, 1, 1, 1, 1, 3, 4].as_slice());
    Ok(())
}

#[test]
fn tries_values_of_ising(rt: HostRuntime) -> Result<(), Fail> {
    let chain = flat(&rt, Style::Line2, 5, 1);
    for (single, t, place, state, want) in [
        (true, 0, 2, 1, Outcome(Some(1), 1, true)),
        (true, 0, 0, 1, Outcome(Some(1), 1, false)),
        (
            true,
            1_000_000,
            0,
            1784484492,
            Outcome(Some(2), 74243042, true),
        ),
        (false, 0, 2, 1, Outcome(Some(1), 16807, true)),
        (false, 0, 0, 1, Outcome(Some(1), 16807, false)),
        (
            false,
            1_000_000,
            0,
            282475249,
            Outcome(Some(1), 984943658, false),
        ),
        (
            false,
            1_000_000,
            0,
            1115438165,
            Outcome(Some(2), 74243042, true),
        ),
    ] {
        assert!(rt; place < CHAIN.len());
        let app = Ising::new(single, &chain, t);
        let sites = sites_with(&rt, rt.alloc(), &app, &chain, &CHAIN)?;
        assert_eq!(rt;
            tried(&rt, &app, sites, place, state),
            want,
            "{single} {t} {place} {state}"
        );
    }
    Ok(())
}

#[test]
fn tries_values_of_potts(rt: HostRuntime) -> Result<(), Fail> {
    let square = flat(&rt, Style::Sq8, 3, 3);
    for (neighonly, t, values, place, state, want) in [
        (
            false,
            0,
            SQUARE,
            0,
            282475249,
            Outcome(Some(4), 1622650073, true),
        ),
        (
            false,
            0,
            SQUARE,
            0,
            1622650073,
            Outcome(Some(2), 984943658, false),
        ),
        (
            false,
            1_000_000,
            SQUARE,
            1,
            1115438165,
            Outcome(Some(1), 74243042, false),
        ),
        (
            false,
            4_000_000,
            SQUARE,
            1,
            1115438165,
            Outcome(Some(4), 74243042, true),
        ),
        (
            true,
            0,
            SQUARE,
            0,
            1622650073,
            Outcome(Some(1), 984943658, true),
        ),
        (true, 0, [1; 9], 0, 1, Outcome(Some(1), 1, false)),
    ] {
        let app = Potts::new(4, neighonly, &square, t);
        let sites = sites_with(&rt, rt.alloc(), &app, &square, &values)?;
        assert_eq!(rt;
            tried(&rt, &app, sites, place, state),
            want,
            "{neighonly} {t} {place} {state}"
        );
    }
    Ok(())
}
