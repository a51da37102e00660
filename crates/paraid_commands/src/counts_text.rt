//! The line that tells the counts of a check, and the status.
ghost use Rattle.std.specs.Prelude.{◌≡◌, []};
ghost use Rattle.paraid_commands.specs.Counts.{check_line, check_status as check_status_of};

use paraid_scrub::CheckReport;
use paraid_serve::status;
use paraid_trace::Text;

/// The five counts.
pub fn check_text(text: &mut Text, report: &CheckReport)
    requires { text.old ≡ [] }
    ensures { text.new ≡ check_line report.now }
{
    text.push(b"check rows ");
    text.push_number(u64::from(report.rows));
    text.push(b" stripes ");
    text.push_number(u64::from(report.stripes));
    text.push(b" fill ");
    text.push_number(u64::from(report.fill));
    text.push(b" units ");
    text.push_number(u64::from(report.units));
    text.push(b" mirrors ");
    text.push_number(u64::from(report.mirrors));
    text.push(b"\n");
}

/// Whether all counts are 0, as a status.
pub fn check_status(report: &CheckReport) -> u8
    ensures { result ≡ check_status_of report.now }
{
    let rows = u64::from(report.rows) + u64::from(report.stripes);
    let units = u64::from(report.fill) + u64::from(report.units);
    if rows + units + u64::from(report.mirrors) == 0 {
        status::DONE
    } else {
        status::FOUND
    }
}
