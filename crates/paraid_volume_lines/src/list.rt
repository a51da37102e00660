//! The names and sizes of all volumes.
ghost use Rattle.std.specs.Prelude.{◌≡◌, ◌+◌, ◌≤◌, ℕ, ◌++◌, length, codes, decimal};
ghost use Rattle.paraid_volume.specs.Values.{device_of, volume_table};
ghost use Rattle.paraid_volume_lines.specs.Lists.{ListsFirst, TellsVolumes};
ghost use Rattle.paraid_volume_lines.specs.NameWords.{word_of};

use crate::replies::push_name;
use paraid_blocks::Blocks;
use paraid_trace::Text;
use paraid_volume::{Name, Volumes};

/// The name and the size of each volume.
pub fn tell_list<B: Blocks>(volumes: &Volumes<B>, into: &mut Text)
    ensures { TellsVolumes
        (B.block_count (device_of volumes.now)) (volume_table volumes.now) into.new }
{
    into.clear();
    into.push(b"list");
    let mut id: u8 = 0;
    while id < 31 {
        id += 1;
        tell_volume(volumes, id, into);
    }
    into.push(b"\n");
}

// The volume of an id, if there is one.
fn tell_volume<B: Blocks>(volumes: &Volumes<B>, id: u8, into: &mut Text)
    requires room { length into.old ≤ 1000 }
    ensures { (n : ℕ) → id ≡ n + 1
        → ListsFirst (B.block_count (device_of volumes.now)) (volume_table volumes.now) n into.old
        → ListsFirst
        (B.block_count (device_of volumes.now)) (volume_table volumes.now) (n + 1) into.new }
{
    if let Some(name) = volumes.name(id) {
        tell_entry(&name, volumes.size(id), into);
    }
}

fn tell_entry(name: &Name, size: u32, into: &mut Text)
    requires room { length into.old ≤ 1000 }
    ensures value { into.new
        ≡ into.old ++ (codes " " ++ (word_of name.now ++ (codes " " ++ decimal size))) }
    ensures length { length into.new ≤ length into.old + 28 }
{
    into.push(b" ");
    push_name(name, into);
    into.push(b" ");
    into.push_number(u64::from(size));
}
