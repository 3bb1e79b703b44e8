//! A square of nine sites, whose first one has the neighbours 9, 7, 8, 3, 2, 6, 4 and 5.

ghost use Rattle.std.specs.Prelude.{◌≡◌, ◌<◌, ◌≤◌, IfOk, IsTrue, length};
ghost use Rattle.spk_app.specs.Sights.{with_value};

use super::*;
use crate::near_values::NearValues;
use spk_lattice::Style;
use std::alloc::{AllocError, Global};
use std::process::Abort;
use std::test::Fail;

/// A square of nine sites with eight neighbours each, whose values are ten times their ids.
fn square(rt: &impl Abort, alloc: Global) -> Result<PlainView, AllocError>
    ensures { IfOk result (λ sites. length sites.values ≡ 9) }
{
    let lattice = match Lattice::new(Style::Sq8, 3, 3, 1) {
        Ok(lattice) => lattice,
        Err(_) => panic!(rt; "there is such a lattice"),
    };
    assert_eq!(rt; lattice.sites(), 9);
    let values = vec![in alloc; 10, 20, 30, 40, 50, 60, 70, 80, 90]?;
    Ok(PlainView::new(&lattice, values))
}

fn value_at<V: View>(view: &V, i: usize) -> u32
    requires { i < length (V.sight view.now).values }
{
    view.value(i)
}

fn give<V: View>(view: &mut V, i: usize, value: u32)
    requires { i < length (V.sight view.old).values }
    ensures sight { V.sight view.new ≡ with_value i value (V.sight view.old) }
    ensures whole { V.whole view.new ≡ V.whole view.old }
{
    view.put(i, value);
}

fn places_near<V: View>(view: &V, i: usize) -> Neighbours
    requires place { i < length (V.sight view.now).values }
    requires whole { IsTrue (V.whole view.now i) }
    ensures { result.count ≤ 26 }
{
    view.neighbours(i)
}

fn values_near<V: View>(view: &V, i: usize) -> NearValues
    requires place { i < length (V.sight view.now).values }
    requires whole { IsTrue (V.whole view.now i) }
{
    let mut near = NearValues::none();
    view.read_near(i, &mut near);
    near
}

/// Lists the places beside a place, in a list that has others.
fn listed_near<V: View>(view: &V, i: usize) -> Neighbours
    requires place { i < length (V.sight view.now).values }
    requires whole { IsTrue (V.whole view.now i) }
    ensures { result.count ≤ 26 }
{
    let mut near = Neighbours {
        count: 3,
        ids: [9; 26],
    };
    view.list_near(i, &mut near);
    near
}

fn counted_near<V: View>(view: &V, i: usize, value: u32, but: usize) -> u32
    requires place { i < length (V.sight view.now).values }
    requires whole { IsTrue (V.whole view.now i) }
{
    view.count_near(i, value, but)
}

#[test]
fn shows_a_square(rt: HostRuntime) -> Result<(), Fail> {
    let mut view = square(&rt, rt.alloc())?;
    assert_eq!(rt; value_at(&view, 4), 50);
    assert_eq!(rt;
        places_near(&view, 0).as_slice(),
        [8, 6, 7, 2, 1, 5, 3, 4].as_slice()
    );
    assert_eq!(rt;
        values_near(&view, 0).as_slice(),
        [90, 70, 80, 30, 20, 60, 40, 50].as_slice()
    );
    give(&mut view, 7, 5);
    assert_eq!(rt; value_at(&view, 7), 5);
    assert_eq!(rt;
        values_near(&view, 0).as_slice(),
        [90, 70, 5, 30, 20, 60, 40, 50].as_slice()
    );
    assert_eq!(rt;
        view.into_values().as_slice(),
        [10, 20, 30, 40, 50, 60, 70, 5, 90].as_slice()
    );
    Ok(())
}

#[test]
fn lists_and_counts_beside_a_place(rt: HostRuntime) -> Result<(), Fail> {
    let mut view = square(&rt, rt.alloc())?;
    let near = [8, 6, 7, 2, 1, 5, 3, 4];
    assert_eq!(rt; listed_near(&view, 0).as_slice(), near.as_slice());
    give(&mut view, 8, 60);
    assert_eq!(rt; counted_near(&view, 0, 60, 0), 2);
    assert_eq!(rt; counted_near(&view, 0, 60, 8), 1);
    assert_eq!(rt; counted_near(&view, 0, 60, 7), 2);
    assert_eq!(rt; counted_near(&view, 0, 7, 7), 0);
    Ok(())
}

#[test]
fn lists_beside_a_place_of_a_lattice(rt: HostRuntime) {
    let lattice = match Lattice::new(Style::Sq8, 3, 3, 1) {
        Ok(lattice) => lattice,
        Err(_) => panic!(rt; "there is such a lattice"),
    };
    assert_eq!(rt; lattice.sites(), 9);
    let mut near = Neighbours {
        count: 0,
        ids: [0; 26],
    };
    list_beside(&lattice, 0, &mut near);
    let want = [8, 6, 7, 2, 1, 5, 3, 4];
    assert_eq!(rt; near.as_slice(), want.as_slice());
    assert_eq!(rt; places_beside(&lattice, 0).as_slice(), want.as_slice());
}
