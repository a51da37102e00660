//! A pool of spare disks. No call takes memory.
ghost use Rattle.std.specs.Prelude.{length, ◌≡◌};

use paraid_base::DiskNo;

/// How many spares are left, for which disk ticks were waited and how many, and how often each of
/// eight slots was spun up. A count that has come to the end of its type stays there.
#[derive(Drop)]
pub struct Pool {
    left: u8,
    wait: u32,
    disk: Option<DiskNo>,
    waits: u32,
    slots: [u64; 8],
    ghost whole: { length slots ≡ 8 },
}

impl Pool {
    ghost use Rattle.std.specs.Prelude.{ℕ, ◌<◌, ◌≤◌, ◌-◌, ◌==◌, ◌&&◌, nat_le, nat_lt, if◌then◌else◌, List, [], ◌++◌, Some, IfSome, IfNone};
    ghost use Rattle.paraid_rack.specs.declared.call.Call.{Call};
    ghost use Rattle.paraid_spare.specs.Pools.{left_of, wait_of, waits_of, spins_of, saturating_next, Covers, AreUpsOf};

    /// A pool of so many spares, of which one is used after so many ticks.
    pub fn new(stock: u8, wait: u32) -> Pool
        ensures left { left_of result ≡ stock }
        ensures wait { wait_of result ≡ wait }
        ensures waits { (d : ℕ) → waits_of result d ≡ 0 }
        ensures spins { (d : ℕ) → d < 8 → spins_of result d ≡ 0 }
        ensures covers { Covers result [] }
    {
        Pool {
            left: stock,
            wait,
            disk: None,
            waits: 0,
            slots: [0; 8],
        }
    }

    /// The disk that is gone, where a spare is to be used for it.
    pub fn due(&self, gone: Option<DiskNo>) -> Option<DiskNo>
        ensures some { IfSome result (λ d. (gone ≡ Some d) × (0 < left_of self.now)
            × (wait_of self.now ≤ waits_of self.now d)) }
        ensures none { IfNone result ((d : ℕ) → gone ≡ Some d → 0 < left_of self.now
            → waits_of self.now d < wait_of self.now) }
    {
        let disk = gone?;
        if self.left == 0 || self.waited_for(disk) < self.wait {
            return None;
        }
        Some(disk)
    }

    // How many ticks were waited for a disk.
    fn waited_for(&self, disk: DiskNo) -> u32
        ensures { result ≡ waits_of self.now disk }
    {
        match self.disk {
            Some(other) if other == disk => self.waits,
            _ => 0,
        }
    }

    /// A tick was waited for a disk.
    pub fn waited(&mut self, disk: DiskNo)
        ensures left { left_of self.new ≡ left_of self.old }
        ensures wait { wait_of self.new ≡ wait_of self.old }
        ensures waits { (d : ℕ) → waits_of self.new d
            ≡ (if d == disk then saturating_next 32 (waits_of self.old d) else 0) }
        ensures spins { (d : ℕ) → spins_of self.new d ≡ spins_of self.old d }
    {
        let waits = self.waited_for(disk);
        self.disk = Some(disk);
        self.waits = waits.saturating_add(1);
    }

    /// A spare was used.
    pub fn taken(&mut self)
        requires { 0 < left_of self.old }
        ensures left { left_of self.new ≡ left_of self.old - 1 }
        ensures wait { wait_of self.new ≡ wait_of self.old }
        ensures waits { (d : ℕ) → waits_of self.new d ≡ waits_of self.old d }
        ensures spins { (d : ℕ) → spins_of self.new d ≡ spins_of self.old d }
    {
        self.left -= 1;
    }

    /// Forgets the ticks that were waited.
    pub fn settled(&mut self)
        ensures left { left_of self.new ≡ left_of self.old }
        ensures wait { wait_of self.new ≡ wait_of self.old }
        ensures waits { (d : ℕ) → waits_of self.new d ≡ 0 }
        ensures spins { (d : ℕ) → spins_of self.new d ≡ spins_of self.old d }
    {
        self.disk = None;
        self.waits = 0;
    }

    /// The disks from `lo` to `hi - 1` were spun up.
    pub fn spun(&mut self, lo: DiskNo, hi: DiskNo)
        requires order { lo ≤ hi }
        requires high { hi ≤ 8 }
        ensures left { left_of self.new ≡ left_of self.old }
        ensures wait { wait_of self.new ≡ wait_of self.old }
        ensures waits { (d : ℕ) → waits_of self.new d ≡ waits_of self.old d }
        ensures spins { (d : ℕ) → d < 8 → spins_of self.new d ≡ (if nat_le lo d && nat_lt d hi
            then saturating_next 64 (spins_of self.old d) else spins_of self.old d) }
        ensures covers { (calls ups : List Call) → Covers self.old calls → AreUpsOf lo hi ups
            → Covers self.new (calls ++ ups) }
    {
        for disk in lo..hi {
            self.slots[disk as usize] = self.slots[disk as usize].saturating_add(1);
        }
    }

    /// How many spares are left.
    pub fn left(&self) -> u8
        ensures { result ≡ left_of self.now }
    {
        self.left
    }

    /// How often a slot was spun up.
    pub fn slot(&self, disk: DiskNo) -> u64
        requires { disk < 8 }
        ensures { result ≡ spins_of self.now disk }
    {
        self.slots[disk as usize]
    }
}
