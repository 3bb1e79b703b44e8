//! Plans of small runs.

ghost use Rattle.std.specs.Prelude.{◌≡◌, ◌≤◌};
ghost use Rattle.spk_sched.specs.Plans.{IsRun, cycle_number};

use super::*;
use crate::dues::Dues;
use std::process::Abort;
use std::test::Fail;

/// A unit of time, in ticks.
const TIME: u64 = 1_000_000_000;

/// A run with one sector that starts at 0 and writes only where it ends. Its weights add up to 1.
fn run_of(alloc: Global, length: u64, cycle: Cycle) -> RunSettings
    requires length { length ≤ 4000000000000000000 }
    requires some { 1 ≤ cycle_number cycle }
    requires short { cycle_number cycle ≤ 1000000000000000 }
    ensures { IsRun result }
{
    RunSettings {
        start: 0,
        length,
        cycle,
        largest: 1 << 30,
        sectors: 1,
        sweep: None,
        stats: 0,
        dumps: Dues::from_vec(Vec::new(alloc)),
    }
}

fn plan_of(rt: &impl Abort, alloc: Global, settings: &RunSettings) -> Plan
    requires { IsRun settings.now }
    ensures { result ≡ settings.now }
{
    match Plan::new(alloc, settings) {
        Ok(plan) => plan,
        Err(_) => panic!(rt; "there is such a plan"),
    }
}

/// A run of two and a half cycles with four sectors.
fn with_four_sectors(alloc: Global) -> RunSettings
    ensures { IsRun result }
{
    let mut settings = run_of(alloc, 2_500_000_000, Cycle::Ticks(TIME));
    settings.sectors = 4;
    settings.stats = TIME;
    settings
}

fn compare_step(rt: &impl Abort, plan: &Plan, step: u64, sector: u32, ticks: u64, marked: bool) {
    assert!(rt; step < plan.steps());
    assert_eq!(rt; plan.sector_of(step), sector, "at {step}");
    assert_eq!(rt; plan.window(step), ticks, "at {step}");
    assert_eq!(rt; plan.mark_after(step), marked, "at {step}");
}

/// Compares the steps of a run of two and a half cycles with four sectors.
fn compare_steps(rt: &impl Abort, plan: &Plan) {
    plan.known();
    assert_eq!(rt; plan.sweep(), None);
    assert_eq!(rt; plan.steps(), 12);
    for (step, sector, ticks, marked) in [
        (0, 0, TIME, false),
        (3, 3, TIME, true),
        (4, 0, TIME, false),
        (5, 1, TIME, false),
        (7, 3, TIME, true),
        (8, 0, 500_000_000, false),
        (10, 2, 500_000_000, false),
        (11, 3, 500_000_000, true),
    ] {
        compare_step(rt, plan, step, sector, ticks, marked);
    }
}

#[test]
fn cuts_the_last_cycle(rt: HostRuntime) -> Result<(), Fail> {
    let settings = with_four_sectors(rt.alloc());
    assert_eq!(rt; settings.fault(), None);
    let plan = plan_of(&rt, rt.alloc(), &settings);
    compare_steps(&rt, &plan);
    compare_steps(&rt, &plan.again(rt.alloc())?);
    Ok(())
}

fn compare_fault(rt: &impl Abort, alloc: Global, settings: &RunSettings, want: PlanFault)
    requires { IsRun settings.now }
{
    assert_eq!(rt; settings.fault(), Some(want));
    assert_eq!(rt; Plan::new(alloc, settings).err(), Some(want));
}

#[test]
fn takes_whole_sweeps(rt: HostRuntime) {
    let mut settings = with_four_sectors(rt.alloc());
    settings.sweep = Some(Sweep::Raster);
    compare_fault(&rt, rt.alloc(), &settings, PlanFault::NotWhole);
    settings.length = 2_000_000_000;
    let plan = plan_of(&rt, rt.alloc(), &settings);
    assert_eq!(rt; plan.sweep(), Some(Sweep::Raster));
    assert_eq!(rt; plan.steps(), 8);
}

#[test]
fn a_run_may_end_too_late(rt: HostRuntime) {
    let mut settings = run_of(
        rt.alloc(),
        4_000_000_000_000_000_000,
        Cycle::Ticks(1_000_000_000_000_000),
    );
    assert_eq!(rt; settings.fault(), None);
    settings.start = 1;
    compare_fault(&rt, rt.alloc(), &settings, PlanFault::RunTooLong);
}

#[test]
fn a_run_may_have_too_many_steps(rt: HostRuntime) {
    let mut settings = run_of(rt.alloc(), 1_000_000_001, Cycle::Ticks(1));
    compare_fault(&rt, rt.alloc(), &settings, PlanFault::RunTooLong);
    settings.sweep = Some(Sweep::Random);
    compare_fault(&rt, rt.alloc(), &settings, PlanFault::NotWhole);
    settings.sweep = None;
    settings.length = TIME;
    assert_eq!(rt; settings.fault(), None);
}

fn compare_first_window(rt: &impl Abort, alloc: Global, settings: &RunSettings, ticks: u64)
    requires { IsRun settings.now }
{
    let plan = plan_of(rt, alloc, settings);
    assert!(rt; plan.steps() > 0);
    assert_eq!(rt; plan.window(0), ticks);
}

#[test]
fn a_cycle_is_as_long_as_its_events_take(rt: HostRuntime) {
    let mut settings = run_of(rt.alloc(), TIME, Cycle::Nstop(500_000));
    compare_first_window(&rt, rt.alloc(), &settings, 500_000_000);
    settings.sweep = Some(Sweep::Color);
    settings.cycle = Cycle::Nstop(1_000_000);
    compare_first_window(&rt, rt.alloc(), &settings, TIME);
}

#[test]
fn a_cycle_is_short_where_weights_are_large(rt: HostRuntime) {
    let mut settings = run_of(rt.alloc(), TIME, Cycle::Nstop(1));
    settings.largest = 1 << 35;
    compare_first_window(&rt, rt.alloc(), &settings, 31);
}

/// After the last of five cycles alone.
const LAST: [bool; 5] = [false, false, false, false, true];

/// Compares after which cycles of a run of one sector a line is written, and after which anything.
fn compare_marks(
    rt: &impl Abort,
    alloc: Global,
    settings: &RunSettings,
    lines: [bool; 5],
    marks: [bool; 5],
)
    requires { IsRun settings.now }
{
    let plan = plan_of(rt, alloc, settings);
    assert_eq!(rt; plan.steps(), 5);
    for (step, (lined, marked)) in (0..5).zip(lines.into_iter().zip(marks)) {
        assert!(rt; step < plan.steps());
        assert_eq!(rt; plan.line_after(step), lined, "at {step}");
        assert_eq!(rt; plan.mark_after(step), marked, "at {step}");
    }
}

/// Compares the marks of a run of five cycles, each a unit of time, with one dump.
fn compare_dump(rt: &impl Abort, alloc: Global, due: Due, want: [bool; 5]) -> Result<(), AllocError>
    requires { 1 ≤ due.delta }
{
    let mut settings = run_of(alloc, 5 * TIME, Cycle::Ticks(TIME));
    settings.dumps = Dues::from_vec(vec![in alloc; due]?);
    compare_marks(rt, alloc, &settings, LAST, want);
    Ok(())
}

#[test]
fn marks_where_snapshots_are_due(rt: HostRuntime) -> Result<(), Fail> {
    let due = Due {
        next: 1_500_000_000,
        delta: 2 * TIME,
    };
    compare_dump(&rt, rt.alloc(), due, [false, true, false, true, true])?;
    Ok(())
}

#[test]
fn a_snapshot_is_due_at_the_start(rt: HostRuntime) -> Result<(), Fail> {
    let due = Due {
        next: 0,
        delta: 1_000_000_000_000_000_000,
    };
    compare_dump(&rt, rt.alloc(), due, [false, false, false, false, true])?;
    Ok(())
}

#[test]
fn a_snapshot_is_due_at_the_end_or_later(rt: HostRuntime) -> Result<(), Fail> {
    for next in [5 * TIME, 6 * TIME] {
        let due = Due { next, delta: TIME };
        compare_dump(&rt, rt.alloc(), due, [false, false, false, false, true])?;
    }
    Ok(())
}

#[test]
fn marks_where_lines_are_due(rt: HostRuntime) {
    let mut settings = run_of(rt.alloc(), 5 * TIME, Cycle::Ticks(TIME));
    compare_marks(&rt, rt.alloc(), &settings, LAST, LAST);
    // The cycles end at 4, 5, 6, 7 and 8 units, and lines are due at 5 and 7.
    settings.start = 3 * TIME;
    settings.stats = 2 * TIME;
    let lines = [false, true, false, true, true];
    compare_marks(&rt, rt.alloc(), &settings, lines, lines);
}
