//! The two lines that sum up generated lines and their answers.
ghost use Rattle.std.specs.Prelude.{◌≡◌, ◌≤◌, [], ◌++◌, length, codes, decimal};
ghost use Rattle.paraid_commands.specs.GenEvents.{lines_line, summary};

use crate::tally::Tally;
use paraid_trace::Text;

fn counts_text(text: &mut Text, lines: u32, tally: &Tally)
    requires { text.old ≡ [] }
    ensures value { text.new ≡ lines_line lines tally.now }
    ensures length { length text.new ≤ 600 }
{
    text.push(b"lines ");
    text.push_number(u64::from(lines));
    text.push(b" reads ");
    text.push_number(u64::from(tally.reads));
    text.push(b" writes ");
    text.push_number(u64::from(tally.writes));
    text.push(b" flushes ");
    text.push_number(u64::from(tally.flushes));
    text.push(b" ticks ");
    text.push_number(u64::from(tally.ticks));
    text.push(b" shifts ");
    text.push_number(u64::from(tally.shifts));
    text.push(b"\n");
}

fn sum_text(text: &mut Text, sum: u64, gear: u8, energy: u64)
    requires { length text.old ≤ 600 }
    ensures { text.new ≡ text.old ++ codes "sum " ++ decimal sum ++ codes " gear " ++ decimal gear
        ++ codes " energy " ++ decimal energy ++ codes "\n" }
{
    text.push(b"sum ");
    text.push_number(sum);
    text.push(b" gear ");
    text.push_number(u64::from(gear));
    text.push(b" energy ");
    text.push_number(energy);
    text.push(b"\n");
}

/// The two lines of a summary.
pub fn summary_text(text: &mut Text, lines: u32, tally: &Tally, gear: u8, energy: u64)
    requires { text.old ≡ [] }
    ensures { text.new ≡ summary lines tally.now gear energy }
{
    counts_text(text, lines, tally);
    sum_text(text, tally.sum, gear, energy);
}
