//! The allowance of spin-ups by so many ticks, and whether disks may be parked by it.
ghost use Rattle.std.specs.Prelude.{◌≡◌, ◌≤◌, OnOk, IfErr};
ghost use Rattle.paraid_ration.specs.Ration.{IsWithinAllowance, IsFirstUsedUp, allowance as allowed_after};

use paraid_base::DiskNo;

/// The spin-ups that a disk may have after so many ticks: `burst` at once and one more for each
/// `period` of them, and never more than the ration.
#[tactic(auto, unfolding(crate::specs::Ration::allowance))]
pub fn allowance(ration: u16, burst: u16, period: u32, ticks: u64) -> u16
    requires { 1 ≤ period }
    ensures { result ≡ allowed_after ration burst period ticks }
{
    let earned = ticks / period as u64;
    if earned >= ration as u64 {
        return ration;
    }
    let sum = burst as u64 + earned;
    if sum < ration as u64 {
        sum as u16
    } else {
        ration
    }
}

/// Whether the disks from `lo` to `hi - 1` may be parked: whether each has spins below what is
/// allowed. The error is the least disk that has used up its allowance.
pub fn may_park(spins: &[u16; 8], allowed: u16, lo: DiskNo, hi: DiskNo) -> Result<(), DiskNo>
    requires order { lo ≤ hi }
    requires high { hi ≤ 8 }
    ensures ok { OnOk result (IsWithinAllowance spins.now allowed lo hi) }
    ensures err { IfErr result (IsFirstUsedUp spins.now allowed lo hi) }
{
    for disk in lo..hi {
        if spins[disk as usize] >= allowed {
            return Err(disk);
        }
    }
    Ok(())
}
