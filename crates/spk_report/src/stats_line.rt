//! Lines of statistics.

ghost use Rattle.std.specs.Prelude.{◌≡◌, ◌++◌, ◌+◌, ◌≤◌, vec_len, vec_capacity};
ghost use Rattle.spk_report.specs.Statistics.{column_text, energy_text, statistics_text};

use crate::append::append;
use itoa::Buffer;
use spk_num::decimal_text::print_ticks;
use spk_sched::Counts;

/// What a line of statistics says: the time in ticks, what was accepted and rejected, the sweeps, and the energies of all sites
/// together, where they are asked for.
#[derive(Clone, Copy, Debug, PartialEq, Eq)]
pub struct StatsLine {
    pub time: u64,
    pub counts: Counts,
    pub sweeps: u64,
    pub energy: Option<u64>,
}

/// Appends a blank and a number.
fn append_column(line: &mut Vec<u8>, number: u64)
    requires { vec_len line.old + 21 ≤ vec_capacity line.old }
    ensures items { line.new.items ≡ line.old.items ++ column_text number }
    ensures len { vec_len line.new ≤ vec_len line.old + 21 }
    ensures room { vec_capacity line.old ≤ vec_capacity line.new }
{
    append(line, b" ");
    append(line, Buffer::new().format(number).as_bytes());
}

/// Appends the column of an energy, where there is one.
fn append_energy(line: &mut Vec<u8>, energy: Option<u64>)
    requires { vec_len line.old + 21 ≤ vec_capacity line.old }
    ensures items { line.new.items ≡ line.old.items ++ energy_text energy }
    ensures len { vec_len line.new ≤ vec_len line.old + 21 }
    ensures room { vec_capacity line.old ≤ vec_capacity line.new }
{
    if let Some(energy) = energy {
        append_column(line, energy);
    }
}

impl StatsLine {
    /// Sets a text to this line. It takes no memory.
    pub(crate) fn write(&self, line: &mut Vec<u8>)
        requires { 4096 ≤ vec_capacity line.old }
        ensures text { line.new.items ≡ statistics_text self.now }
        ensures room { 4096 ≤ vec_capacity line.new }
    {
        line.clear();
        append(line, print_ticks(self.time).as_bytes());
        append_column(line, self.counts.accepted);
        append_column(line, self.counts.rejected);
        append_column(line, self.sweeps);
        append_energy(line, self.energy);
        append(line, b"\n");
    }
}
