//! The line of a spare that was put in, and that of the spares that are left.
ghost use Rattle.std.specs.Prelude.{◌≡◌, ◌≤◌, ◌++◌, [], length, codes, decimal};
ghost use Rattle.paraid_spare.specs.Pools.{left_of, spins_of};
ghost use Rattle.paraid_sparing.specs.Texts.{slot_words, spares_line};
ghost use Rattle.paraid_sparing.specs.Sparing.{spare_line};
ghost use Rattle.paraid_trace.specs.Answered.{answer_with};
ghost use Rattle.paraid_trace.specs.Replies.{HasFewDisks};

use paraid_base::DiskNo;
use paraid_spare::Pool;
use paraid_trace::{Answered, Beside, Brief, Text, reply_with};

fn left_text(text: &mut Text, word: &[u8], disk: DiskNo, left: u8)
    requires { length word.now ≤ 100 }
    ensures { text.new ≡ word.now ++ decimal disk ++ codes " left " ++ decimal left ++ codes "\n" }
{
    text.clear();
    text.push(word);
    text.push_number(u64::from(disk));
    text.push(b" left ");
    text.push_number(u64::from(left));
    text.push(b"\n");
}

/// What came of a spare that was put in, after which so many are left.
pub fn spare_text(text: &mut Text, answered: &Answered, beside: &Beside, left: u8)
    requires { HasFewDisks (answer_with answered.now beside.now) }
    ensures { text.new ≡ spare_line (answer_with answered.now beside.now) left }
{
    match answered {
        Answered::Brief(Brief::Replaced { disk }) => left_text(text, b"spare ", *disk, left),
        Answered::Brief(Brief::NoFresh { disk }) => left_text(text, b"sparefailed ", *disk, left),
        _ => reply_with(answered, beside, text),
    }
}

// The spin-ups of each of the first slots.
fn slots_text(text: &mut Text, pool: &Pool, disks: u8)
    requires disks { disks ≤ 8 }
    requires room { length text.old ≤ 200 }
    ensures value { text.new ≡ text.old ++ slot_words (spins_of pool.now) disks }
    ensures length { length text.new ≤ 600 }
{
    for disk in 0..disks {
        text.push(b" ");
        text.push_number(pool.slot(disk));
    }
}

/// The line of the spares that are left, and of the spin-ups by slot.
pub fn spares_text(text: &mut Text, pool: &Pool, disks: u8)
    requires empty { text.old ≡ [] }
    requires disks { disks ≤ 8 }
    ensures { text.new ≡ spares_line (left_of pool.now) (spins_of pool.now) disks }
{
    text.push(b"spares ");
    text.push_number(u64::from(pool.left()));
    text.push(b" slots");
    slots_text(text, pool, disks);
    text.push(b"\n");
}
