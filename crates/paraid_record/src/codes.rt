//! The numbers that stand for modes, phases and disks that are out, in both directions.

ghost use Rattle.std.specs.Prelude.{◌≡◌, ℕ, length, Some};
ghost use Rattle.paraid_base.specs.declared.geometry.Geometry.{Geometry as GeometryType};
ghost use Rattle.paraid_base.specs.declared.state.Phase.{Phase as PhaseType};
ghost use Rattle.paraid_base.specs.declared.state.Out.{Out as OutType};
ghost use Rattle.paraid_record.specs.declared.meta.Mode.{Mode as ModeType};
ghost use Rattle.paraid_record.specs.Codes.{mode_code as code_of_mode, phase_code as code_of_phase, phase_to as to_of_phase, out_code as code_of_out, fresh_code as code_of_fresh, rebuilt_count as rebuilt_of, window_count as count_of_windows, gear_list as list_of_gears, burst_code as code_of_burst, period_code as code_of_period};
ghost use Rattle.paraid_record.specs.Range.{IsOutInRange};
ghost use Rattle.paraid_record.specs.Spelling.{zero_filled};

use crate::{Mode, Setup};
use paraid_base::{DiskNo, Geometry, Out, Phase};

/// The disk number that stands for no disk.
const NO_DISK: DiskNo = 255;

/// The number of a mode: 0 for `Whole`, 1 for `Access`.
pub fn mode_code(mode: Mode) -> u8
    ensures { result ≡ code_of_mode mode }
{
    match mode {
        Mode::Whole => 0,
        Mode::Access => 1,
    }
}

/// The mode of a code; another number than 0 and 1 is no code.
pub fn mode_of(code: u8) -> Option<Mode>
    ensures { (mode : ModeType) → code ≡ code_of_mode mode → result ≡ Some mode }
{
    match code {
        0 => Some(Mode::Whole),
        1 => Some(Mode::Access),
        _ => None,
    }
}

/// The number of a phase: 0 for steady, 1 for down, 2 for up.
pub fn phase_code(phase: Phase) -> u8
    ensures { result ≡ code_of_phase phase }
{
    match phase {
        Phase::Steady => 0,
        Phase::Down { .. } => 1,
        Phase::Up { .. } => 2,
    }
}

/// The phase of a code and of a gear to shift to.
pub fn phase_of(code: u8, to: u8) -> Option<Phase>
    ensures { (phase : PhaseType) → code ≡ code_of_phase phase → to ≡ to_of_phase phase
        → result ≡ Some phase }
{
    match code {
        0 => Some(Phase::Steady),
        1 => Some(Phase::Down { to }),
        2 => Some(Phase::Up { to }),
        _ => None,
    }
}

/// The number of the disk that is out, 255 where none is.
pub fn out_code(out: Out) -> u8
    ensures { result ≡ code_of_out out }
{
    match out {
        Out::No => NO_DISK,
        Out::Gone { disk } | Out::Fresh { disk, .. } => disk,
    }
}

/// 1 where the disk that is out is being rebuilt, else 0.
pub fn fresh_code(out: Out) -> u8
    ensures { result ≡ code_of_fresh out }
{
    match out {
        Out::No | Out::Gone { .. } => 0,
        Out::Fresh { .. } => 1,
    }
}

/// Which disk is out, by its number, whether it is fresh and how much of it is rebuilt.
pub fn out_of(disk: DiskNo, fresh: u8, rebuilt: u32) -> Out
    ensures { (g : GeometryType) (gear : ℕ) (out : OutType) → IsOutInRange g gear out
        → disk ≡ code_of_out out → fresh ≡ code_of_fresh out → rebuilt ≡ rebuilt_of out
        → result ≡ out }
{
    if disk == NO_DISK {
        Out::No
    } else if fresh == 0 {
        Out::Gone { disk }
    } else {
        Out::Fresh { disk, rebuilt }
    }
}

/// The burst as it is spelled, 0 in version 1.
pub fn burst_code(version: u8, setup: &Setup) -> u16
    ensures { result ≡ code_of_burst version setup.now }
{
    if version > 1 { setup.burst } else { 0 }
}

/// The period as it is spelled, 0 in version 1.
pub fn period_code(version: u8, setup: &Setup) -> u32
    ensures { result ≡ code_of_period version setup.now }
{
    if version > 1 { setup.period } else { 0 }
}

/// How many windows are used.
pub fn window_count(windows: &[u16; 3]) -> u8
    ensures { result ≡ count_of_windows windows.now }
{
    let mut count = 0;
    for length in windows {
        if *length > 0 {
            count += 1;
        }
    }
    count
}

/// The gears in ascending order and then zeros, and how many gears there are.
pub fn gear_list(geometry: &Geometry) -> ([u8; 8], u8)
    ensures gears { result.0 ≡ zero_filled 8 (list_of_gears geometry.now) }
    ensures count { result.1 ≡ length (list_of_gears geometry.now) }
{
    let mut list = [0; 8];
    let mut count: u8 = 0;
    for gear in 0..9 {
        if geometry.is_gear(gear) {
            list[count as usize] = gear;
            count += 1;
        }
    }
    (list, count)
}
