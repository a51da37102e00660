//! The state of an array, as its meta and its dirty table have it.
ghost use Rattle.std.specs.Prelude.{◌≡◌, ◌≢◌, ◌≤◌, length};
ghost use Rattle.paraid_base.specs.Told.{HasRisen};
ghost use Rattle.paraid_dirty.specs.Table.{is_dirty};
ghost use Rattle.paraid_serve.specs.Ending.{EndsWithLine};
ghost use Rattle.paraid_serve.specs.Statuses.{status_done, status_sink};
ghost use Rattle.paraid_record.specs.Range.{IsInRange};
ghost use Rattle.paraid_commands.specs.States.{shown_status, status_lines};

use paraid_base::Status;
use paraid_dirty::DirtyTable;
use paraid_io::Sink;
use paraid_record::Meta;
use paraid_serve::ending::{last, mount_text};
use paraid_serve::status;
use paraid_trace::{Text, reply_state};

/// The state that a meta and its dirty table tell.
pub fn status_of(meta: &Meta, table: &DirtyTable) -> Status
    requires range { IsInRange meta.now }
    requires rows { length table.now ≡ meta.now.setup.geometry.rows }
    ensures { result ≡ shown_status meta.now (is_dirty table.now) }
{
    Status {
        writes: meta.writes,
        ticks: meta.ticks,
        gear: meta.gear,
        phase: meta.phase,
        dirty: table.count(meta.gear, meta.setup.geometry.disks()),
        fill: meta.fill,
        out: meta.out,
        spins: meta.spins,
        halt: None,
    }
}

/// Tells the state of an array that was mounted, and gives the status.
pub fn tell_state<K: Sink>(sink: &mut K, meta: &Meta, table: &DirtyTable) -> u8
    requires range { IsInRange meta.now }
    requires rows { length table.now ≡ meta.now.setup.geometry.rows }
    ensures tells { EndsWithLine (K.written sink.old) (K.written sink.new)
        (status_lines meta.now (is_dirty table.now)) status_done result }
    ensures sink { result ≡ status_sink → HasRisen (K.faults sink.old) (K.faults sink.new) }
    ensures still { result ≢ status_sink → K.faults sink.new ≡ K.faults sink.old }
    ensures later { K.faults sink.old ≤ K.faults sink.new }
{
    let mut line = Text::new();
    reply_state(
        &status_of(meta, table),
        meta.setup.geometry.disks(),
        &mut line,
    );
    let mut text = Text::new();
    mount_text(&mut text, meta.writes, meta.gear);
    text.push(line.as_slice());
    last(sink, text.as_slice(), status::DONE)
}
