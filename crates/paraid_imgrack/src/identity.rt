//! Which array the labels of some images name, and which images do not belong into their slots.
ghost use Rattle.std.specs.Prelude.{◌≡◌, ◌≢◌, ◌<◌, ◌≤◌, ◌↔◌, ℕ, true, false, slice_index, Some, IfSome, IfNone, IsSomeAnd, IsTrue};
ghost use Rattle.paraid_base.specs.Told.{HasRisen};
ghost use Rattle.paraid_imgrack.specs.Labels.{AreSeen, AreUnnamed, FitsSlot, IsBehind, IsCommoner, IsDeciding, IsFirst, IsLabelOf, IsLearned, IsNamed, IsNoLess, IsAmong, IsApart, IsOfAnotherTime, IsOfSlot, IsLabelSeen, IsTakenOver, IsUndisputed, IsUnheardOf, KeepsOthers, Knows, KnowsNone, Suits, SuitsBare, SuitsBeside, SuitsLate, SuitsOthers, SuitsTail, SuitsTailLate, known_array, label_in, of_array, one_of_array};

use crate::label::Label;
use crate::tail::Tail;
use paraid_base::DiskNo;
use std::fmt::{self, Display, Formatter};

/// The label of each slot, where its image has one.
pub(crate) type Labels = [Option<Label>; 8];

/// Why an image does not belong into its slot.
#[derive(Clone, Copy, PartialEq, Eq)]
pub enum Misfit {
    /// It is the image of another disk of the array.
    Moved { disk: DiskNo },
    /// It is of another array.
    Foreign,
    /// It is an old copy: the other images know a newer one.
    Old { generation: u64, known: u64 },
    /// The other images are of an earlier time: they do not know it, or are older than it knows
    /// them.
    New { generation: u64, known: u64 },
    /// It has no label, where the other images know that the disk had one.
    Bare { known: u64 },
}

impl Display for Misfit {
    fn fmt<W: fmt::Write>(&self, f: &mut Formatter<W>) -> fmt::Result {
        match self {
            Misfit::Moved { disk } => write!(f, "is the image of disk {disk}"),
            Misfit::Foreign => write!(f, "is of another array"),
            Misfit::Old { generation, known } => write!(
                f,
                "is an old copy: its label has generation {generation}, where the others know {known}"
            ),
            Misfit::New { generation, known } => write!(
                f,
                "is newer than the others: its label has generation {generation}, where they know {known}"
            ),
            Misfit::Bare { known } => {
                write!(f, "has no label, where the others know generation {known}")
            }
        }
    }
}

/// What is known of an array: what its labels are to say.
#[derive(Clone, Copy)]
pub(crate) struct Identity {
    pub(crate) array: [u8; 16],
    pub(crate) disks: u8,
    /// What the label of an image gets now. Each load has a greater one, and each disk that is
    /// attached.
    pub(crate) generation: u64,
    /// The images that spin have not got it yet.
    pub(crate) is_new: bool,
    /// The generation that each disk's image has at least.
    pub(crate) known: [u64; 8],
    /// The generation that the label of each image has now, 0 where none was read or written.
    pub(crate) seen: [u64; 8],
    /// Images were marked of which the others do not know it yet.
    pub(crate) has_news: bool,
}

impl Identity {
    /// That of an array of which nothing is known.
    pub(crate) fn new(array: [u8; 16], disks: u8) -> Identity
        ensures array { known_array (Some result) ≡ Some (array, disks) }
        ensures none { KnowsNone result }
    {
        Identity {
            array,
            disks,
            generation: 1,
            is_new: true,
            known: [0; 8],
            seen: [0; 8],
            has_news: false,
        }
    }

    /// That of the array which these labels name, if there are any, for the next load.
    pub(crate) fn of(labels: &Labels) -> Option<Identity>
        ensures none { IfNone result (AreUnnamed (label_in labels.now)) }
        ensures some { IfSome result (λ _. AreUnnamed (label_in labels.now) → ⊥) }
        ensures named { IfSome result (IsNamed (label_in labels.now)) }
        ensures learned { IfSome result (IsLearned (label_in labels.now)) }
        ensures seen { IfSome result (AreSeen (label_in labels.now)) }
        ensures due { IfSome result (λ i. i.is_new ≡ true) }
    {
        let named = named(labels)?;
        let mut identity = Identity::new(named.array, named.disks);
        for slot in 0..8 {
            identity.learn_from(labels, slot);
        }
        Some(identity)
    }

    // Takes over what the label of a slot says, if it is of the array.
    fn learn_from(&mut self, labels: &Labels, slot: usize)
        requires { slot < 8 }
        ensures same { known_array (Some self.new) ≡ known_array (Some self.old) }
        ensures kept { IsNoLess self.old self.new }
        ensures taken { IfSome (label_in labels.now slot) (λ l. slot < self.old.disks
            → l.disk ≡ slot → l.array ≡ self.old.array → IsTakenOver self.new l) }
        ensures seen { slice_index self.old.seen slot ≡ 0
            → IsLabelSeen self.new (label_in labels.now slot) slot }
        ensures others { (e : ℕ) → e ≢ slot
            → slice_index self.new.seen e ≡ slice_index self.old.seen e }
    {
        if let Some(label) = labels[slot]
            && self.is_right(&label, slot as u8)
        {
            self.learn(&label, slot);
        }
    }

    // Takes over what a label of the array says.
    fn learn(&mut self, label: &Label, slot: usize)
        ensures same { known_array (Some self.new) ≡ known_array (Some self.old) }
        ensures kept { IsNoLess self.old self.new }
        ensures taken { IsTakenOver self.new label.now }
        ensures seen { slot < 8 → slice_index self.new.seen slot ≡ label.now.generation }
        ensures others { (e : ℕ) → e ≢ slot
            → slice_index self.new.seen e ≡ slice_index self.old.seen e }
    {
        if slot < 8 {
            self.seen[slot] = label.generation;
        }
        self.generation = self.generation.max(label.generation.saturating_add(1));
        for disk in 0..8 {
            raise_known(&mut self.known, disk, label.known[disk]);
        }
    }

    // Whether a label is of this slot and of this array.
    fn is_right(&self, label: &Label, slot: DiskNo) -> bool
        ensures yes { result ≡ true → IsOfSlot self.now label.now slot }
        ensures no { result ≡ false → IsOfSlot self.now label.now slot → ⊥ }
    {
        slot < self.disks && label.disk == slot && label.array == self.array
    }

    /// The label that the image of a slot is to have. Of its own disk it says what is known only
    /// where each other image has heard of that.
    pub(crate) fn label(&self, disk: DiskNo, is_heard: bool) -> Label
        ensures label { IsLabelOf self.now disk result }
        ensures own { disk < 8 → is_heard ≡ false → slice_index result.known disk ≡ 0 }
        ensures heard { is_heard ≡ true → result.known ≡ self.now.known }
    {
        let mut known = self.known;
        if !is_heard && disk < 8 {
            known[disk as usize] = 0;
        }
        Label {
            array: self.array,
            disk,
            disks: self.disks,
            generation: self.generation,
            known,
        }
    }

    /// Why an image with this tail does not belong into a slot of the array.
    pub(crate) fn misfit_of(&self, tail: &Tail, slot: DiskNo) -> Option<Misfit>
        ensures read { slot < self.now.disks → SuitsTail self.now tail.now slot result }
        ensures none { IfSome result (λ _. slot < self.now.disks) }
    {
        if slot >= self.disks {
            return None;
        }
        match tail {
            Tail::Label(label) => self.misfit(label, slot),
            Tail::Blank | Tail::Odd => self.bare_misfit(slot),
            Tail::Torn | Tail::Other | Tail::Unread => None,
        }
    }

    // Why an image without a label does not belong into a slot: the disk is known to have had one.
    fn bare_misfit(&self, slot: DiskNo) -> Option<Misfit>
        ensures { SuitsBare self.now slot result }
    {
        let known = known_in(&self.known, slot);
        if 0 < known {
            Some(Misfit::Bare { known })
        } else {
            None
        }
    }

    fn misfit(&self, label: &Label, slot: DiskNo) -> Option<Misfit>
        ensures { Suits self.now label.now slot result }
    {
        if label.array != self.array {
            return Some(Misfit::Foreign);
        }
        if label.disk != slot {
            return Some(Misfit::Moved { disk: label.disk });
        }
        let known = known_in(&self.known, slot);
        if label.generation < known {
            return Some(Misfit::Old {
                generation: label.generation,
                known,
            });
        }
        None
    }

    /// Why the image of a slot that spins at an opening does not belong there, beside the others
    /// that do, whose labels these are: it may also be of another time than one of them.
    pub(crate) fn misfit_beside(&self, labels: &Labels, tail: &Tail, slot: DiskNo) -> Option<Misfit>
        ensures read { slot < self.now.disks
            → SuitsBeside self.now (label_in labels.now) tail.now slot result }
        ensures none { IfSome result (λ _. slot < self.now.disks) }
    {
        if let Some(misfit) = self.misfit_of(tail, slot) {
            return Some(misfit);
        }
        match tail {
            Tail::Label(label) if slot < self.disks => self.new_misfit(labels, label, slot),
            _ => None,
        }
    }

    // Whether one of the labels does not know this one of a slot, though it is to have heard of it.
    fn new_misfit(&self, labels: &Labels, label: &Label, slot: DiskNo) -> Option<Misfit>
        ensures { SuitsOthers self.now (label_in labels.now) label.now slot result }
    {
        for disk in 0..8 {
            if let Some(known) = self.apart(labels, label, slot, disk) {
                return Some(Misfit::New {
                    generation: label.generation,
                    known,
                });
            }
        }
        None
    }

    // Whether a slot is one of the array, and an image with this label belongs there as far as it
    // is known.
    fn has_fitting(&self, label: &Label, slot: DiskNo) -> bool
        requires { slot < 8 }
        ensures within { result ≡ true → slot < self.now.disks }
        ensures yes { result ≡ true → FitsSlot self.now label.now slot }
        ensures no { result ≡ false → slot < self.now.disks
            → FitsSlot self.now label.now slot → ⊥ }
    {
        slot < self.disks
            && label.disk == slot
            && label.array == self.array
            && known_in(&self.known, slot) <= label.generation
    }

    // What the label of a disk that fits knows of a slot, where it is of another time than this
    // label of the slot.
    fn apart(&self, labels: &Labels, label: &Label, slot: DiskNo, disk: usize) -> Option<u64>
        requires { disk < 8 }
        ensures some { IfSome result (λ known.
            IsApart self.now (label_in labels.now) label.now slot disk
            × Knows (label_in labels.now) disk slot known) }
        ensures none { IfNone result
            (IsApart self.now (label_in labels.now) label.now slot disk → ⊥) }
    {
        let other = labels[disk]?;
        if self.has_fitting(&other, disk as u8) && is_of_another_time(label, &other, slot, disk) {
            return Some(known_in(&other.known, slot));
        }
        None
    }

    /// Why an image with this tail that was parked until now does not belong into a slot: it may
    /// also be newer than the others know it.
    pub(crate) fn late_misfit_of(&self, tail: &Tail, slot: DiskNo) -> Option<Misfit>
        ensures read { slot < self.now.disks → SuitsTailLate self.now tail.now slot result }
        ensures none { IfSome result (λ _. slot < self.now.disks) }
    {
        if slot >= self.disks {
            return None;
        }
        match tail {
            Tail::Label(label) => self.late_misfit(label, slot),
            Tail::Blank | Tail::Odd => self.bare_misfit(slot),
            Tail::Torn | Tail::Other | Tail::Unread => None,
        }
    }

    fn late_misfit(&self, label: &Label, slot: DiskNo) -> Option<Misfit>
        ensures { SuitsLate self.now label.now slot result }
    {
        if let Some(misfit) = self.misfit(label, slot) {
            return Some(misfit);
        }
        if self.is_past_one(label, slot) {
            return Some(Misfit::New {
                generation: label.generation,
                known: known_in(&self.known, slot),
            });
        }
        None
    }

    // Whether one of the images that were seen is of a time before this label of a slot.
    fn is_past_one(&self, label: &Label, slot: DiskNo) -> bool
        ensures one { result ≡ true → (e : ℕ) × ((e < 8) × IsBehind self.now label.now slot e) }
        ensures none { result ≡ false → (e : ℕ) → e < 8 → IsBehind self.now label.now slot e → ⊥ }
    {
        for disk in 0..8 {
            if self.is_behind(label, slot, disk) {
                return true;
            }
        }
        false
    }

    // Whether the image of a disk was seen, and is of a time before this label of a slot: it is
    // older than the label knows it; or it is to have heard how new this image is, by the label,
    // and none has.
    fn is_behind(&self, label: &Label, slot: DiskNo, disk: usize) -> bool
        requires { disk < 8 }
        ensures yes { result ≡ true → IsBehind self.now label.now slot disk }
        ensures no { result ≡ false → IsBehind self.now label.now slot disk → ⊥ }
    {
        0 < self.seen[disk]
            && (self.seen[disk] < label.known[disk] || self.is_unheard(label, slot, disk))
    }

    // Whether no label knows this image to be as new as this one says that the image of a disk has
    // heard.
    fn is_unheard(&self, label: &Label, slot: DiskNo, disk: usize) -> bool
        requires { disk < 8 }
        ensures yes { result ≡ true → IsUnheardOf self.now label.now slot disk }
        ensures no { result ≡ false → IsUnheardOf self.now label.now slot disk → ⊥ }
    {
        let own = known_in(&label.known, slot);
        known_in(&self.known, slot) < own && own <= label.known[disk]
    }

    /// Whether the image of a slot had a label when it was read, or got one since.
    pub(crate) fn is_seen(&self, disk: usize) -> bool
        ensures { IsTrue result ↔ (disk < 8) × (0 < slice_index self.now.seen disk) }
    {
        disk < 8 && 0 < self.seen[disk]
    }

    /// Whether the image of a slot has a label of this generation.
    pub(crate) fn is_marked(&self, disk: usize) -> bool
        ensures { IsTrue result
            ↔ (disk < 8) × (slice_index self.now.seen disk ≡ self.now.generation) }
    {
        disk < 8 && self.seen[disk] == self.generation
    }

    /// What gets a label from now on is newer than each image that has one, and those that spin are
    /// to get one again.
    pub(crate) fn renew(&mut self)
        ensures newer { HasRisen self.old.generation self.new.generation }
        ensures again { self.new.is_new ≡ true }
        ensures known { known_array (Some self.new) ≡ known_array (Some self.old) }
        ensures later { self.old.generation ≤ self.new.generation }
        ensures kept { (self.new.known ≡ self.old.known) × (self.new.seen ≡ self.old.seen) }
    {
        self.generation = self.generation.saturating_add(1);
        self.is_new = true;
    }

    /// The image of a slot has a label of this generation, and its disk keeps it.
    pub(crate) fn mark(&mut self, disk: usize)
        ensures newer { self.new.generation ≡ self.old.generation }
        ensures again { self.new.is_new ≡ self.old.is_new }
        ensures news { disk < 8 → self.new.has_news ≡ true }
        ensures marked { disk < 8 → slice_index self.new.known disk ≡ self.old.generation }
        ensures seen { disk < 8 → slice_index self.new.seen disk ≡ self.old.generation }
        ensures others { KeepsOthers self.old self.new disk }
        ensures known { known_array (Some self.new) ≡ known_array (Some self.old) }
    {
        if disk < 8 {
            self.known[disk] = self.generation;
            self.seen[disk] = self.generation;
            self.has_news = true;
        }
    }
}

// What is known of the image of a slot.
fn known_in(known: &[u64; 8], slot: DiskNo) -> u64
    ensures known { slot < 8 → result ≡ slice_index known.now slot }
    ensures none { 8 ≤ slot → result ≡ 0 }
{
    if slot < 8 { known[slot as usize] } else { 0 }
}

// Whether a label of a slot says that all others were told of it, and that of a disk, which was
// then of that generation, does not know it.
fn is_of_another_time(label: &Label, other: &Label, slot: DiskNo, disk: usize) -> bool
    requires { disk < 8 }
    ensures yes { result ≡ true → IsOfAnotherTime label.now other.now slot disk }
    ensures no { result ≡ false → IsOfAnotherTime label.now other.now slot disk → ⊥ }
{
    let own = known_in(&label.known, slot);
    let heard = label.known[disk];
    own == label.generation
        && known_in(&other.known, slot) < own
        && own <= heard
        && (disk < slot as usize || heard < other.generation)
}

// The image of a disk is at least so new.
fn raise_known(known: &mut [u64; 8], disk: usize, generation: u64)
    requires { disk < 8 }
    ensures here { generation ≤ slice_index known.new disk }
    ensures kept { (e : ℕ) → slice_index known.old e ≤ slice_index known.new e }
{
    known[disk] = known[disk].max(generation);
}

// A label of the array that the images are of: the first one, where no image of its array's slots
// is of another array; else the first of the array that most are of.
//
// So a new array is told from images of an older, wider one, which stand in slots past its own. A
// label in a slot past those of its array names none.
fn named(labels: &Labels) -> Option<Label>
    ensures none { IfNone result (AreUnnamed (label_in labels.now)) }
    ensures some { IfSome result (λ _. AreUnnamed (label_in labels.now) → ⊥) }
    ensures one { IfSome result (IsAmong (label_in labels.now)) }
    ensures deciding { IfSome result (IsDeciding (label_in labels.now)) }
{
    let first = first(labels)?;
    if is_whole(labels, &first) {
        return Some(first);
    }
    let mut most = first;
    for slot in 0..8 {
        most = commoner(labels, most, slot);
    }
    Some(most)
}

// The label of a slot, if more images are of its array than of that of this one, or else this one.
fn commoner(labels: &Labels, most: Label, slot: usize) -> Label
    requires slot { slot < 8 }
    requires one { IsAmong (label_in labels.now) most }
    ensures one { IsAmong (label_in labels.now) result }
    ensures kept { IsCommoner (label_in labels.now) most (label_in labels.now slot) result }
{
    let Some(label) = labels[slot] else {
        return most;
    };
    if count(labels, &most) < count(labels, &label) {
        label
    } else {
        most
    }
}

// Whether a slot is one of the array that a label names.
fn is_within(slot: usize, label: &Label) -> bool
    ensures { IsTrue result ↔ slot < label.now.disks }
{
    slot < label.disks as usize
}

fn first(labels: &Labels) -> Option<Label>
    ensures none { IfNone result (AreUnnamed (label_in labels.now)) }
    ensures some { IfSome result (λ _. AreUnnamed (label_in labels.now) → ⊥) }
    ensures one { IfSome result (IsAmong (label_in labels.now)) }
    ensures first { IfSome result (IsFirst (label_in labels.now)) }
{
    for slot in 0..8 {
        if let Some(label) = named_in(labels, slot) {
            return Some(label);
        }
    }
    None
}

// The label of a slot, if that is one of its array.
fn named_in(labels: &Labels, slot: usize) -> Option<Label>
    requires { slot < 8 }
    ensures none { IfNone result (IfSome (label_in labels.now slot) (λ l. l.disks ≤ slot)) }
    ensures one { IfSome result (λ l. label_in labels.now slot ≡ Some l) }
    ensures within { IfSome result (λ l. slot < l.disks) }
{
    let label = labels[slot]?;
    if is_within(slot, &label) {
        Some(label)
    } else {
        None
    }
}

// Whether the images in the slots of a label's array are all of that one.
fn is_whole(labels: &Labels, named: &Label) -> bool
    ensures yes { result ≡ true → IsUndisputed (label_in labels.now) named.now }
    ensures no { result ≡ false → IsUndisputed (label_in labels.now) named.now → ⊥ }
{
    for slot in 0..8 {
        if is_foreign(labels, named, slot) {
            return false;
        }
    }
    true
}

// Whether the image in a slot of a label's array is of another one.
fn is_foreign(labels: &Labels, named: &Label, slot: usize) -> bool
    requires { slot < 8 }
    ensures yes { result ≡ true → (slot < named.now.disks)
        × IsSomeAnd (label_in labels.now slot) (λ l. l.array ≢ named.now.array) }
    ensures no { result ≡ false → slot < named.now.disks
        → IfSome (label_in labels.now slot) (λ l. l.array ≡ named.now.array) }
{
    match &labels[slot] {
        Some(label) => is_within(slot, named) && label.array != named.array,
        None => false,
    }
}

// How many images in the slots of a label's array are of it.
fn count(labels: &Labels, named: &Label) -> u8
    ensures { result ≡ of_array (label_in labels.now) named.now }
{
    let mut count: u8 = 0;
    for slot in 0..8 {
        count = count.saturating_add(count_in(labels, named, slot));
    }
    count
}

// One if the image in a slot of a label's array is of it.
fn count_in(labels: &Labels, named: &Label, slot: usize) -> u8
    requires { slot < 8 }
    ensures { result ≡ one_of_array named.now slot (label_in labels.now slot) }
{
    match &labels[slot] {
        Some(label) if is_within(slot, named) && label.array == named.array => 1,
        _ => 0,
    }
}
