//! Tests of all solvers, through the bound.

ghost use Rattle.std.specs.Prelude.{◌≡◌, ◌+◌, ◌^◌, ◌<◌, ◌≤◌, All, length};

use crate::{Chosen, Group, Linear, Solver, Tree};
use spk_num::{OutOfMemory, Steps, Stream};
use std::alloc::Global;
use std::marker::Brand;
use std::process::Abort;
use std::sync::ledger::{Blank, Ledger};
use std::test::Fail;

/// A solver with these propensities.
fn filled<S: Solver + Drop>(alloc: Global, propensities: &[u64]) -> Result<S, OutOfMemory>
    requires few { length propensities.now ≤ 1000 }
    requires small { All (λ p. p ≤ 2 ^ 35) propensities.now }
{
    let mut solver = S::make(alloc, propensities.len())?;
    solver.reset(propensities.len());
    'places: for i in 0..propensities.len() {
        solver.set(i, propensities[i]);
    }
    Ok(solver)
}

/// What is chosen by a stream with this state, and the state after it.
fn choose<S: Solver, L: Ledger>(
    rt: &impl Abort,
    solver: &mut S,
    state: u32,
    blank: Blank,
) -> (Option<Chosen>, u32)
    requires name { blank.name ≡ L.name }
    requires parts { blank.parts ≡ L.parts }
    requires some { 0 < blank.parts }
{
    let mut stream = Stream::of_state(state).expect(rt, "a state");
    let mut steps = Steps::<L>::new(blank);
    let chosen = solver.choose(&mut stream, &mut steps);
    (chosen, stream.state())
}

/// Compares the total and a choice with numbers that were made elsewhere, and then the choice from a list of zeros.
fn compare<S: Solver + Drop>(
    rt: &impl Abort,
    alloc: Global,
    propensities: &[u64],
    state: u32,
    want: (u64, usize, u64, u32),
) -> Result<(), OutOfMemory>
    requires few { length propensities.now ≤ 1000 }
    requires small { All (λ p. p ≤ 2 ^ 35) propensities.now }
{
    let mut solver: S = filled(alloc, propensities)?;
    let (total, place, rest, after) = want;
    assert_eq!(rt; solver.total(), total);
    assert_eq!(rt;
        choose::<S, Brand>(rt, &mut solver, state, Blank::new(1)),
        (Some(Chosen { place, rest }), after)
    );
    Ok(())
}

/// Nothing is drawn where all propensities are 0.
fn compare_zeros<S: Solver + Drop>(rt: &impl Abort, alloc: Global) -> Result<(), OutOfMemory> {
    let mut solver: S = filled(alloc, &[0, 0, 0])?;
    assert_eq!(rt; solver.total(), 0);
    assert_eq!(rt;
        choose::<S, Brand>(rt, &mut solver, 1, Blank::new(1)),
        (None, 1)
    );
    Ok(())
}

#[test]
fn linear_chooses_by_the_running_sum(rt: HostRuntime) -> Result<(), Fail> {
    compare::<Linear>(&rt, rt.alloc(), &[3, 0, 5], 1, (8, 0, 0, 282475249))?;
    compare::<Linear>(
        &rt,
        rt.alloc(),
        &[3, 0, 5],
        987654321,
        (8, 2, 2, 1791818921),
    )?;
    compare_zeros::<Linear>(&rt, rt.alloc())?;
    Ok(())
}

#[test]
fn tree_chooses_by_the_running_sum(rt: HostRuntime) -> Result<(), Fail> {
    compare::<Tree>(&rt, rt.alloc(), &[3, 0, 5], 1, (8, 0, 0, 282475249))?;
    compare::<Tree>(
        &rt,
        rt.alloc(),
        &[3, 0, 5],
        987654321,
        (8, 2, 2, 1791818921),
    )?;
    compare_zeros::<Tree>(&rt, rt.alloc())?;
    Ok(())
}

#[test]
fn group_chooses_by_bins(rt: HostRuntime) -> Result<(), Fail> {
    compare::<Group>(&rt, rt.alloc(), &[3, 0, 5], 1, (8, 0, 1, 984943658))?;
    compare_zeros::<Group>(&rt, rt.alloc())?;
    // The largest propensity is alone in the last bin.
    compare::<Group>(
        &rt,
        rt.alloc(),
        &[1, 34359738368],
        8,
        (34359738369, 1, 29612441243, 925388789),
    )?;
    // Four tries are rejected in the bin of the places 0, 2, 4 and 5.
    compare::<Group>(
        &rt,
        rt.alloc(),
        &[4, 9, 5, 0, 4, 7],
        4,
        (29, 4, 0, 166785366),
    )?;
    // The place is in the third block of 64 places.
    compare::<Group>(&rt, rt.alloc(), &[5; 200], 12345, (1000, 189, 0, 77048696))?;
    Ok(())
}
