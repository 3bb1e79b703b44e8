//! Texts against ones that were made by hand.

ghost use Rattle.std.specs.Prelude.{◌≡◌, ◌<◌, ◌≤◌, length};
ghost use Rattle.spk_lattice.specs.Layout.{dimensions_of, sites_of};
ghost use Rattle.spk_sched.specs.Decompositions.{whole_of};
ghost use Rattle.spk_report.specs.Pieces.{one_rank};
ghost use Rattle.spk_report.specs.Snapshots.{scale_of};

use crate::{DumpHead, Field, Report, StatsLine, WriteTrouble, sites_write};
use spk_lattice::{Lattice, Style};
use spk_num::decimal::Dec;
use spk_sched::{Counts, EnergyKind, Grid, Letter, Sectors};
use spk_world::{Fail, MemWorld};
use std::alloc::Global;
use std::process::Abort;
use std::test::Fail as TestFailed;

const FILE: &str = "d.out";

fn lattice_of(rt: &impl Abort, style: Style, x: u32, y: u32, z: u32) -> Lattice
    requires y_unused { dimensions_of style ≤ 1 → y ≡ 1 }
    requires z_unused { dimensions_of style ≤ 2 → z ≡ 1 }
    ensures { result ≡ record { style = style; nx = x; ny = y; nz = z } }
{
    match Lattice::new(style, x, y, z) {
        Ok(lattice) => lattice,
        Err(_) => panic!(rt; "there is such a lattice"),
    }
}

/// All cells of a lattice, for one rank.
fn whole(rt: &impl Abort, lattice: &Lattice) -> Sectors
    ensures lattice { result.grid.lattice ≡ lattice.now }
    ensures ranks { result.grid.ranks ≡ one_rank }
{
    match Grid::new(lattice, [1, 1, 1]) {
        Ok(grid) => grid.whole(),
        Err(_) => panic!(rt; "there is such a grid"),
    }
}

fn line() -> StatsLine {
    StatsLine {
        time: 2_000_000_000,
        counts: Counts {
            accepted: 4,
            rejected: 16,
        },
        sweeps: 2,
        energy: None,
    }
}

fn expect(rt: &impl Abort, world: &MemWorld, said: &str, file: &str) {
    assert!(rt; world.said.as_slice() == said.as_bytes(), "screen: {said}");
    match world.files.get(FILE) {
        Some(bytes) => assert!(rt; bytes.as_slice() == file.as_bytes(), "file: {file}"),
        None => assert!(rt; file.is_empty(), "no file"),
    }
}

#[test]
fn writes_lines_of_statistics(rt: HostRuntime) -> Result<(), TestFailed> {
    let chain = lattice_of(&rt, Style::Line2, 10, 1, 1);
    let mut report = Report::new(rt.alloc(), &chain, 4096)?;
    let mut world = MemWorld::new(rt.alloc());
    let plain = line();
    let with_energy = StatsLine {
        energy: Some(4),
        ..plain
    };
    assert!(rt; report.stats_line(&mut world, Some(FILE), &plain).is_ok());
    assert!(rt; report.stats_line(&mut world, None, &with_energy).is_ok());
    expect(
        &rt,
        &world,
        "2.000000000 4 16 2\n2.000000000 4 16 2 4\n",
        "2.000000000 4 16 2\n",
    );
    Ok(())
}

/// What a file has after a snapshot with these values, at the time 0.
#[tactic(auto, using(crate::proofs::OnePiece::only_piece))]
fn snapshot(
    rt: &impl Abort,
    world: &mut MemWorld,
    report: &mut Report,
    head: &DumpHead,
    fields: &[Field],
    lattice: &Lattice,
    values: Vec<u32>,
) -> Result<(), WriteTrouble>
    requires some { 0 < scale_of head.now }
    requires limit { scale_of head.now ≤ 1000000000000 }
    requires lattice { lattice.now ≡ report.old }
    requires values { length values.items ≡ sites_of lattice.now }
{
    let piece = Letter {
        values,
        energy: 0,
        counts: Counts::none(),
    };
    let sectors = whole(rt, lattice);
    report.dump_text(world, FILE, head, fields, &sectors, &[piece])
}

fn head_of(millionths: u64, energy: EnergyKind) -> DumpHead
    requires { millionths ≤ 1000000000000 }
    ensures { scale_of result ≡ millionths }
{
    DumpHead {
        number: 3,
        time: 1_500_000_000,
        scale: Dec {
            millionths: millionths as i64,
        },
        energy,
    }
}

/// What a snapshot of three sites on a line has before its list of fields.
const HEAD: &str =
    "ITEM: TIMESTEP\n3 1.500000000\nITEM: NUMBER OF ATOMS\n3\nITEM: BOX BOUNDS\n0 4.5\n0 1.5\n0 1.5\n";

#[test]
fn writes_snapshots(rt: HostRuntime) -> Result<(), TestFailed> {
    let chain = lattice_of(&rt, Style::Line2, 3, 1, 1);
    let mut report = Report::new(rt.alloc(), &chain, 4096)?;
    let mut world = MemWorld::new(rt.alloc());
    let mut values = vec![in rt.alloc(); 1; chain.sites() as usize]?;
    if let Some(last) = values.last_mut() {
        *last = 2;
    }
    let head = head_of(1_500_000, EnergyKind::Unlike);
    let fields = [
        Field::Id,
        Field::Site,
        Field::I1,
        Field::X,
        Field::Y,
        Field::Z,
        Field::Energy,
    ];
    assert!(rt; snapshot(&rt, &mut world, &mut report, &head, &fields, &chain, values).is_ok());
    let lines =
        "ITEM: ATOMS id site i1 x y z energy\n1 1 1 0 0 0 1\n2 1 1 1.5 0 0 1\n3 2 2 3 0 0 2\n";
    let mut text = String::from_str(rt.alloc(), HEAD)?;
    text.push_str(lines)?;
    expect(&rt, &world, "", text.as_str());
    Ok(())
}

/// Compares the last line of a snapshot with the coordinates alone, on a lattice of 3 cells along x.
fn compare_last(
    rt: &impl Abort,
    alloc: Global,
    style: Style,
    y: u32,
    z: u32,
    millionths: u64,
    line: &str,
) -> Result<(), TestFailed>
    requires y_unused { dimensions_of style ≤ 1 → y ≡ 1 }
    requires z_unused { dimensions_of style ≤ 2 → z ≡ 1 }
    requires some { 0 < millionths }
    requires limit { millionths ≤ 1000000000000 }
{
    let lattice = lattice_of(rt, style, 3, y, z);
    let mut report = Report::new(alloc, &lattice, 4096)?;
    let mut world = MemWorld::new(alloc);
    let values = vec![in alloc; 1; lattice.sites() as usize]?;
    let head = head_of(millionths, EnergyKind::Zero);
    let fields = [Field::X, Field::Y, Field::Z];
    assert!(rt;
        snapshot(
            rt,
            &mut world,
            &mut report,
            &head,
            &fields,
            &lattice,
            values
        )
        .is_ok()
    );
    match world.files.get(FILE) {
        Some(bytes) => assert!(rt; bytes.ends_with(line.as_bytes()), "last line: {line}"),
        None => panic!(rt; "no file"),
    }
    Ok(())
}

#[test]
fn rounds_coordinates_down(rt: HostRuntime) -> Result<(), TestFailed> {
    let alloc = rt.alloc();
    compare_last(&rt, alloc, Style::Line2, 1, 1, 1_500_000, "\n3 0 0\n")?;
    compare_last(&rt, alloc, Style::Sq4, 3, 1, 1_000_000, "\n2 2 0\n")?;
    compare_last(&rt, alloc, Style::Sq8, 3, 1, 1_000_000, "\n2 2 0\n")?;
    compare_last(&rt, alloc, Style::Tri, 3, 1, 1, "\n0.000002 0.000002 0\n")?;
    compare_last(&rt, alloc, Style::Sc6, 3, 3, 2_000_000, "\n4 4 4\n")?;
    compare_last(
        &rt,
        alloc,
        Style::Sc26,
        3,
        3,
        1_000_000_000_000,
        "\n2000000 2000000 2000000\n",
    )?;
    compare_last(&rt, alloc, Style::Bcc, 3, 3, 1_000_000, "\n2.5 2.5 2.5\n")?;
    compare_last(&rt, alloc, Style::Fcc, 3, 3, 1_000_000, "\n2.5 2.5 2\n")
}

#[test]
#[tactic(auto, using(crate::proofs::OnePiece::only_piece))]
fn writes_site_files(rt: HostRuntime) -> Result<(), TestFailed> {
    let chain = lattice_of(&rt, Style::Line2, 3, 1, 1);
    chain.known();
    let sectors = whole(&rt, &chain);
    let mut world = MemWorld::new(rt.alloc());
    let values = vec![in rt.alloc(); 1, 1, 1]?;
    let piece = Letter {
        values,
        energy: 0,
        counts: Counts::none(),
    };
    let mut buffer = Vec::with_capacity(rt.alloc(), 4096)?;
    assert!(rt; sites_write(&mut world, FILE, 0, &sectors, &[piece], &mut buffer).is_ok());
    expect(
        &rt,
        &world,
        "",
        "spk sites at time 0.000000000\n\n3 sites\n\nValues\n\n1 1\n2 1\n3 1\n",
    );
    Ok(())
}

#[test]
fn names_what_failed(rt: HostRuntime) -> Result<(), TestFailed> {
    let chain = lattice_of(&rt, Style::Line2, 10, 1, 1);
    let mut report = Report::new(rt.alloc(), &chain, 4096)?;
    let mut world = MemWorld::new(rt.alloc());
    world.fail_at.push(Fail { call: 2, bytes: 3 })?;
    world.fail_at.push(Fail { call: 3, bytes: 1 })?;
    let told = report.stats_line(&mut world, Some(FILE), &line());
    assert_eq!(rt; told, Err(WriteTrouble::File));
    let told = report.stats_line(&mut world, Some(FILE), &line());
    assert_eq!(rt; told, Err(WriteTrouble::Screen));
    expect(&rt, &world, "2.000000000 4 16 2\n2", "2.0");
    Ok(())
}
