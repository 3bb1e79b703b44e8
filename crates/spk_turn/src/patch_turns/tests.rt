//! Turns of chains of Ising sites.

ghost use Rattle.std.specs.Prelude.{◌≡◌, ◌<◌, All, IfOk, IsTrue, length};
ghost use Rattle.spk_lattice.specs.Layout.{sites_of};
ghost use Rattle.spk_potts.specs.Ising.{is_one_or_two};
ghost use Rattle.spk_turn.specs.Sectors.{IsOwn};

use super::*;
use spk_lattice::{Lattice, Style};
use spk_num::OutOfMemory;
use spk_potts::Ising;
use spk_solve::Linear;
use std::alloc::{AllocError, Global};
use std::marker::Brand;
use std::process::Abort;
use std::sync::ledger::Blank;
use std::test::Fail;

/// The values that these digits show, which Ising sites may have.
fn values_of(rt: &impl Abort, alloc: Global, digits: &str) -> Result<Vec<u32>, AllocError>
    ensures { IfOk result (λ values. All (λ v. IsTrue (is_one_or_two v)) values.items) }
{
    let mut values = Vec::new(alloc);
    for digit in digits.as_bytes() {
        let value = u32::from(digit.saturating_sub(b'0'));
        assert!(rt; value == 1 || value == 2);
        values.push(value)?;
    }
    Ok(values)
}

/// A patch of all cells of a lattice, with these values.
fn patch_of(alloc: Global, lattice: &Lattice, values: &[u32]) -> Result<Patch, AllocError>
    requires { length values.now ≡ sites_of lattice.now }
    ensures { IfOk result (λ p. p.values ≡ values.now) }
{
    lattice.known();
    let [nx, ny, nz] = lattice.extents();
    let all = Cells {
        lo: [0, 0, 0],
        hi: [i64::from(nx), i64::from(ny), i64::from(nz)],
    };
    let mut patch = Patch::new(alloc, lattice, &all, 0, true)?;
    patch.fill_from(values);
    patch.known();
    Ok(patch)
}

/// A chain with the values that these digits show, and its Ising sites at a temperature in millionths.
fn chain(rt: &impl Abort, alloc: Global, digits: &str, t: u64) -> Result<(Patch, Ising), Fail>
    ensures { IfOk result (λ made. All (λ v. IsTrue (is_one_or_two v)) made.0.values) }
{
    assert!(rt; digits.len() < 12);
    let lattice = Lattice::new(Style::Line2, digits.len() as u32, 1, 1)
        .ok()
        .ok_or("a chain")?;
    let values = values_of(rt, alloc, digits)?;
    assert!(rt; values.len() == lattice.sites() as usize);
    let patch = patch_of(alloc, &lattice, values.as_slice())?;
    Ok((patch, Ising::new(false, &lattice, t)))
}

/// The cells of a patch from one on along x, up to the one before another.
fn cells_of(rt: &impl Abort, patch: &Patch, from: u32, to: u32) -> Cells
    ensures { IsOwn patch.now result }
{
    patch.known();
    let [nx, ny, nz] = patch.lattice().extents();
    assert!(rt; from <= to && to <= nx);
    Cells {
        lo: [i64::from(from), 0, 0],
        hi: [i64::from(to), i64::from(ny), i64::from(nz)],
    }
}

/// A turn with a window of so many ticks, and one with the next window.
fn turned<L: Ledger>(
    alloc: Global,
    patch: &mut Patch,
    cells: &Cells,
    app: &Ising,
    stream: &mut Stream,
    windows: [u64; 2],
    blank: Blank,
) -> Result<[Counts; 2], OutOfMemory>
    requires name { blank.name ≡ L.name }
    requires parts { blank.parts ≡ L.parts }
    requires some { 0 < blank.parts }
    requires cells { IsOwn patch.old cells.now }
    requires valid { All (λ v. IsTrue (is_one_or_two v)) patch.old.values }
{
    patch.known();
    let mut solver = Linear::new(alloc, patch.lattice().sites() as usize)?;
    let mut steps = Steps::<L>::new(blank);
    let [first, next] = windows;
    let counts = turn_kmc(patch, cells, app, &mut solver, stream, first, &mut steps);
    let more = turn_kmc_again(patch, cells, app, &mut solver, stream, next, &mut steps);
    Ok([counts, more])
}

/// Compares the values of a patch with those that these digits show.
fn compare(rt: &impl Abort, patch: &Patch, digits: &str) {
    patch.known();
    assert_eq!(rt; patch.lattice().sites() as usize, digits.len());
    for (i, digit) in digits.as_bytes().iter().enumerate() {
        assert_eq!(rt;
            patch.value(i),
            u32::from(digit.saturating_sub(b'0')),
            "at {i}"
        );
    }
}

// The stream's state, the window, and the values that are drawn; by the plain rule, which takes all propensities
// afresh before each event, the values that a turn leaves, the state that it leaves, and how many events it did.
#[test]
fn turns_by_the_plain_rule(rt: HostRuntime) -> Result<(), Fail> {
    for (start, window, drawn, left, state, accepted) in [
        (7, 1_000_000_000, "121", "111", 1365616214, 3),
        (99, 2_000_000_000, "11212", "12221", 395000257, 7),
        (3, 1, "11112211", "11112211", 323209673, 0),
        (8, 9_000_000_000, "11121211111", "22221111111", 78055325, 24),
    ] {
        let (mut patch, app) = chain(&rt, rt.alloc(), drawn, 0)?;
        let mut stream = Stream::of_state(start).ok_or("a draw")?;
        for _ in 0..drawn.len() {
            let _draw = stream.next();
        }
        let cells = cells_of(&rt, &patch, 0, patch.lattice().extents()[0]);
        let [counts, none] = turned::<Brand>(
            rt.alloc(),
            &mut patch,
            &cells,
            &app,
            &mut stream,
            [window, 0],
            Blank::new(1),
        )?;
        assert_eq!(rt; stream.state(), state);
        assert_eq!(rt; counts.accepted, accepted);
        assert_eq!(rt; none.accepted, 0);
        compare(&rt, &patch, left);
    }
    Ok(())
}

// The first window is too short for an event, but three numbers are drawn for it.
#[test]
fn goes_on_by_the_plain_rule(rt: HostRuntime) -> Result<(), Fail> {
    let (mut patch, app) = chain(&rt, rt.alloc(), "21121212", 500_000)?;
    let mut stream = Stream::of_state(5).ok_or("a draw")?;
    let cells = cells_of(&rt, &patch, 2, 6);
    let [none, counts] = turned::<Brand>(
        rt.alloc(),
        &mut patch,
        &cells,
        &app,
        &mut stream,
        [1, 4_000_000_000],
        Blank::new(1),
    )?;
    assert_eq!(rt; none.accepted, 0);
    assert_eq!(rt; counts.accepted, 9);
    assert_eq!(rt; stream.state(), 670583913);
    compare(&rt, &patch, "21112112");
    Ok(())
}

// The style of the sweeps; the values and the state that three of them leave, and how many trials were accepted and rejected.
#[test]
fn sweeps_by_the_plain_rule(rt: HostRuntime) -> Result<(), Fail> {
    for (style, left, state, accepted, rejected) in [
        (Sweep::Raster, "21222112", 332487872, 5, 7),
        (Sweep::Random, "21221112", 495713212, 6, 6),
    ] {
        let (mut patch, app) = chain(&rt, rt.alloc(), "21121212", 1_000_000)?;
        let mut stream = Stream::of_state(5).ok_or("a draw")?;
        let cells = cells_of(&rt, &patch, 2, 6);
        let counts = turn_sweep(&mut patch, &cells, &app, style, &mut stream, 3);
        assert_eq!(rt; counts, Counts { accepted, rejected });
        assert_eq!(rt; stream.state(), state);
        compare(&rt, &patch, left);
    }
    Ok(())
}
