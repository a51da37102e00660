//! What windows of samples ask for, worked by hand.
ghost use Rattle.std.specs.Prelude.{◌≡◌, ◌∷◌, [], IfSome};
ghost use Rattle.paraid_gear.specs.ThreeWindows.{lengths_of};

use paraid_base::Geometry;
use paraid_gear::{Decision, Windows};
use paraid_record::{Mode, Setup};
use std::alloc::Global;

// Five disks with gears 4 and 5, which shift by one window: up from 80 percent, down to 60.
fn one_window(service: u32, window: u16) -> Option<Setup>
    ensures { IfSome result (λ setup. setup.windows ≡ window ∷ 0 ∷ 0 ∷ []) }
{
    Some(Setup {
        geometry: Geometry::new(5, 5, &[4, 5]).ok()?,
        mode: Mode::Whole,
        rate: 1,
        service,
        up: 80,
        down: 60,
        windows: [window, 0, 0],
        ration: 100,
        burst: 100,
        period: 1,
        spinning_mj: 9000,
        parked_mj: 900,
        spinup_mj: 60000,
    })
}

// Takes in this count, so many times.
fn push_all(windows: &mut Windows, count: u32, times: u32)
    ensures { lengths_of windows.new ≡ lengths_of windows.old }
{
    for _ in 0..times {
        windows.push(count);
    }
}

// The gear in which the array is after these counts, each so many times.
fn gear_after(
    alloc: Global,
    service: u32,
    window: u16,
    counts: [u32; 2],
    times: [u32; 2],
    gear: u8,
) -> Option<u8> {
    let setup = one_window(service, window)?;
    if window > 1024 || !setup.geometry.is_gear(gear) {
        return None;
    }
    let mut windows = Windows::new(alloc).ok()?;
    windows.start(setup.windows);
    push_all(&mut windows, counts[0], times[0]);
    push_all(&mut windows, counts[1], times[1]);
    match windows.decide(&setup, gear) {
        Decision::Stay => Some(gear),
        Decision::Up { to } | Decision::Down { to } => Some(to),
    }
}

// Two counts, the gear, and the gear after them, where a disk serves one request and the window
// holds two samples.
const SHORT: [([u32; 2], u8, u8); 5] = [
    ([0, 0], 5, 4),
    ([0, 7], 4, 5), // 700 is at least 640
    ([0, 6], 4, 4),
    ([0, 4], 5, 5), // the deviation is too great: 160,000 is above 6,400
    ([2, 2], 5, 4),
];

#[test]
fn a_shift_is_due_by_mean_and_deviation(rt: HostRuntime) {
    for &(counts, gear, after) in &SHORT {
        assert!(rt;
            gear_after(rt.alloc(), 1, 2, counts, [1, 1], gear) == Some(after),
            "after {} and {} in gear {gear}",
            counts[0],
            counts[1]
        );
    }
}

#[test]
fn no_shift_is_due_before_the_window_is_full(rt: HostRuntime) {
    assert!(rt; gear_after(rt.alloc(), 1, 2, [2, 2], [1, 0], 5) == Some(5));
}

// What a disk serves, the gear, and the gear after 3,000 counts of 2,000,000 in a window of 1,024
// samples. Each counts as 1,048,576: at these bounds one more or less decides.
const LONG: [(u32, u8, u8); 4] = [
    (327680, 4, 5),
    (327681, 4, 4),
    (436907, 5, 4),
    (436906, 5, 5),
];

#[test]
fn a_count_above_the_greatest_sample_is_cut(rt: HostRuntime) {
    for &(service, gear, after) in &LONG {
        assert!(rt;
            gear_after(rt.alloc(), service, 1024, [2000000, 0], [3000, 0], gear) == Some(after),
            "serving {service} in gear {gear}"
        );
    }
}
