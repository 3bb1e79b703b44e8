//! Patches of a square of 3 by 4 cells, and of a cube of 27 cells with two sites each.

ghost use Rattle.std.specs.Prelude.{◌≡◌, ◌<◌, ◌≤◌, ◌∷◌, [], IfOk, IsTrue, length, pos};
ghost use Rattle.spk_num.specs.declared.style.Style.TheVariants.{Sq4, Bcc};
ghost use Rattle.spk_app.specs.Sights.{with_value};

use super::*;
use spk_app::NearValues;
use spk_lattice::Style;
use std::process::Abort;
use std::test::Fail;

/// A square of 3 by 4 cells, whose values are the ids of its sites.
fn square(rt: &impl Abort, alloc: Global) -> Result<Patch, AllocError>
    ensures lattice { IfOk result (λ p. p.lattice ≡ record { style = Sq4; nx = 3; ny = 4; nz = 1 }) }
    ensures own { IfOk result (λ p. p.own ≡ record { lo = pos 0 ∷ pos 0 ∷ pos 0 ∷ []; hi = pos 3 ∷ pos 4 ∷ pos 1 ∷ [] }) }
    ensures halo { IfOk result (λ p. p.halo ≡ 0) }
    ensures values { IfOk result (λ p. length p.values ≡ 12) }
{
    let lattice = match Lattice::new(Style::Sq4, 3, 4, 1) {
        Ok(lattice) => lattice,
        Err(_) => panic!(rt; "there is such a lattice"),
    };
    let all = Cells {
        lo: [0, 0, 0],
        hi: [3, 4, 1],
    };
    let mut patch = Patch::new(alloc, &lattice, &all, 0, true)?;
    patch.fill_from(&[1, 2, 3, 4, 5, 6, 7, 8, 9, 10, 11, 12]);
    patch.known();
    Ok(patch)
}

fn value_at<V: View>(view: &V, i: usize) -> u32
    requires { i < length (V.sight view.now).values }
{
    view.value(i)
}

fn give<V: View>(view: &mut V, i: usize, value: u32)
    requires { i < length (V.sight view.old).values }
    ensures sight { V.sight view.new ≡ with_value i value (V.sight view.old) }
    ensures whole { V.whole view.new ≡ V.whole view.old }
{
    view.put(i, value);
}

fn places_near<V: View>(view: &V, i: usize) -> Neighbours
    requires place { i < length (V.sight view.now).values }
    requires whole { IsTrue (V.whole view.now i) }
    ensures { result.count ≤ 26 }
{
    view.neighbours(i)
}

fn values_near<V: View>(view: &V, i: usize) -> NearValues
    requires place { i < length (V.sight view.now).values }
    requires whole { IsTrue (V.whole view.now i) }
{
    let mut near = NearValues::none();
    view.read_near(i, &mut near);
    near
}

fn listed_near<V: View>(view: &V, i: usize) -> Neighbours
    requires place { i < length (V.sight view.now).values }
    requires whole { IsTrue (V.whole view.now i) }
    ensures { result.count ≤ 26 }
{
    let mut near = Neighbours {
        count: 3,
        ids: [9; 26],
    };
    view.list_near(i, &mut near);
    near
}

fn counted_near<V: View>(view: &V, i: usize, value: u32, but: usize) -> u32
    requires place { i < length (V.sight view.now).values }
    requires whole { IsTrue (V.whole view.now i) }
{
    view.count_near(i, value, but)
}

#[test]
fn has_the_cells_of_a_square(rt: HostRuntime) -> Result<(), Fail> {
    let patch = square(&rt, rt.alloc())?;
    patch.known();
    assert_eq!(rt; patch.lattice().extents(), [3, 4, 1]);
    assert_eq!(rt; patch.value(0), 1);
    assert_eq!(rt; patch.value(11), 12);
    assert_eq!(rt; patch.place_of([2, 1, 0], 0), 5);
    assert_eq!(rt; patch.cell_at(5), [2, 1, 0]);
    assert_eq!(rt; patch.basis_at(5), 0);
    Ok(())
}

#[test]
fn shows_a_square(rt: HostRuntime) -> Result<(), Fail> {
    let mut patch = square(&rt, rt.alloc())?;
    assert_eq!(rt; value_at(&patch, 4), 5);
    assert_eq!(rt; places_near(&patch, 0).as_slice(), [9, 2, 1, 3].as_slice());
    assert_eq!(rt; values_near(&patch, 0).as_slice(), [10, 3, 2, 4].as_slice());
    give(&mut patch, 2, 70);
    patch.known();
    assert_eq!(rt; patch.value(2), 70);
    assert_eq!(rt; patch.value(3), 4);
    assert_eq!(rt;
        values_near(&patch, 0).as_slice(),
        [10, 70, 2, 4].as_slice()
    );
    assert_eq!(rt; listed_near(&patch, 0).as_slice(), [9, 2, 1, 3].as_slice());
    give(&mut patch, 9, 70);
    patch.known();
    assert_eq!(rt; counted_near(&patch, 0, 70, 0), 2);
    assert_eq!(rt; counted_near(&patch, 0, 70, 9), 1);
    Ok(())
}

/// A cube of 27 cells, whose values are 0.
fn cube(rt: &impl Abort, alloc: Global) -> Result<Patch, AllocError>
    ensures lattice { IfOk result (λ p. p.lattice ≡ record { style = Bcc; nx = 3; ny = 3; nz = 3 }) }
    ensures own { IfOk result (λ p. p.own ≡ record { lo = pos 0 ∷ pos 0 ∷ pos 0 ∷ []; hi = pos 3 ∷ pos 3 ∷ pos 3 ∷ [] }) }
    ensures halo { IfOk result (λ p. p.halo ≡ 0) }
    ensures values { IfOk result (λ p. length p.values ≡ 54) }
{
    let lattice = match Lattice::new(Style::Bcc, 3, 3, 3) {
        Ok(lattice) => lattice,
        Err(_) => panic!(rt; "there is such a lattice"),
    };
    let all = Cells {
        lo: [0, 0, 0],
        hi: [3, 3, 3],
    };
    Patch::new(alloc, &lattice, &all, 0, true)
}

#[test]
fn has_two_sites_a_cell(rt: HostRuntime) -> Result<(), Fail> {
    let patch = cube(&rt, rt.alloc())?;
    assert_eq!(rt; patch.value(53), 0);
    assert_eq!(rt; patch.place_of([1, 0, 0], 1), 3);
    assert_eq!(rt; patch.cell_at(3), [1, 0, 0]);
    assert_eq!(rt; patch.basis_at(3), 1);
    assert_eq!(rt; patch.place_of([2, 1, 2], 0), 46);
    assert_eq!(rt; patch.cell_at(46), [2, 1, 2]);
    Ok(())
}

#[test]
fn keeps_large_values(rt: HostRuntime) -> Result<(), Fail> {
    let mut patch = square(&rt, rt.alloc())?;
    patch.fill_from(&[254, 255, 256, 511, 512, 6, 7, 8, 9, 10, 11, 4294967295]);
    patch.known();
    assert_eq!(rt; patch.value(0), 254);
    assert_eq!(rt; patch.value(1), 255);
    assert_eq!(rt; patch.value(2), 256);
    assert_eq!(rt; patch.value(3), 511);
    assert_eq!(rt; patch.value(11), 4294967295);
    give(&mut patch, 2, 300);
    assert_eq!(rt; patch.value(2), 300);
    Ok(())
}
