//! The table of volumes, six blocks in memory.
ghost use Rattle.std.specs.Prelude.{◌≡◌, ◌≢◌, ℕ, ◌<◌, ◌≤◌, ◌↔◌, length, slice_index, IsTrue, true, false, IfSome, IfNone, set, get_or, nat_lt, ◌&&◌, ◌==◌, if◌then◌else◌};
ghost use Rattle.paraid_base.specs.declared.block.Block.{Block as BlockType};

use crate::head::head;
use crate::name::{Name, is_letter};
use crate::size::{extent_count, extent_size};
use paraid_base::{Block, Pairs};

/// The first six blocks of a device that is cut into volumes.
#[derive(Drop)]
pub struct Table {
    pub(crate) blocks: [Block; 6],
    ghost whole: { length blocks ≡ 6 },
}

// Changes one of these blocks.
fn put_in(blocks: &mut [Block; 6], at: usize, bytes: &Block)
    requires { at < 6 }
    ensures { blocks.new ≡ set blocks.old at bytes.now }
{
    blocks[at].copy_from(bytes);
}

// Changes a byte of one of these blocks.
fn set_byte_in(blocks: &mut [Block; 6], block: usize, at: usize, byte: u8)
    requires whole { length blocks.old ≡ 6 }
    requires block { block < 6 }
    requires at { at < 512 }
    ensures here { (d : BlockType) (i : ℕ) → slice_index (get_or blocks.new block d).bytes i
        ≡ (if i == at then byte else slice_index (get_or blocks.old block d).bytes i) }
    ensures rest { (d : BlockType) (k : ℕ)
        → k ≢ block → get_or blocks.new k d ≡ get_or blocks.old k d }
    ensures length { length blocks.new ≡ 6 }
{
    blocks[block].set(at, byte);
}

impl Table {
    ghost use Rattle.paraid_base.specs.Pairs.{pairs_of};
    ghost use Rattle.paraid_base.specs.Xor.{zero_block};
    ghost use Rattle.paraid_volume.specs.Faults.{IsLeastFree};
    ghost use Rattle.paraid_volume.specs.Laid.{AreChanges, IsLaid, table_pairs, IsWith, IsWithout};
    ghost use Rattle.paraid_volume.specs.Names.{IsField, IsFieldAt};
    ghost use Rattle.paraid_volume.specs.NameValues.{IsNameOf};
    ghost use Rattle.paraid_volume.specs.TableBlocks.{in_table};
    ghost use Rattle.paraid_volume.specs.Tables.{head_bytes, name_in, owner_in, extents_owned as owned_in, extent_count as count_of, extent_size as size_of, IsLiveId, IsVolumeTable, AreNames, AreOwners, IsExtent};

    /// Six blocks of zeros.
    pub(crate) fn zero() -> Table
        ensures { (k : ℕ) → in_table result k ≡ zero_block }
    {
        Table {
            blocks: [
                Block::zero(),
                Block::zero(),
                Block::zero(),
                Block::zero(),
                Block::zero(),
                Block::zero(),
            ],
        }
    }

    /// Changes one of the blocks.
    pub(crate) fn put(&mut self, at: u32, bytes: &Block)
        requires { at < 6 }
        ensures here { in_table self.new at ≡ bytes.now }
        ensures rest { (k : ℕ) → k ≢ at → in_table self.new k ≡ in_table self.old k }
    {
        put_in(&mut self.blocks, at as usize, bytes);
    }

    /// A byte of a name.
    pub(crate) fn name_byte(&self, id: u8, at: usize) -> u8
        requires { (1 ≤ id) × (id ≤ 31) × (at < 16) }
        ensures { result ≡ name_in (in_table self.now) id at }
    {
        self.blocks[1].bytes[16 * (id as usize - 1) + at]
    }

    /// The owner of an extent, 0 where it is free.
    pub(crate) fn owner(&self, extent: u32) -> u8
        requires { extent < 2048 }
        ensures { result ≡ owner_in (in_table self.now) extent }
    {
        self.blocks[2 + (extent / 512) as usize].bytes[(extent % 512) as usize]
    }

    /// How many of the first extents this is the owner of.
    #[tactic(auto, unfolding(paraid_base::specs::Sums::sum_before))]
    pub(crate) fn owned(&self, id: u8, extents: u32) -> u32
        requires { extents ≤ 2048 }
        ensures value { result ≡ owned_in (owner_in (in_table self.now)) id extents }
        ensures few { result ≤ extents }
    {
        let mut count = 0;
        for extent in 0..extents {
            if self.owner(extent) == id {
                count += 1;
            }
        }
        count
    }

    /// The extent of this number among those of an owner, in ascending order.
    #[tactic(auto, unfolding(paraid_base::specs::Sums::sum_before))]
    pub(crate) fn extent(&self, id: u8, number: u32, extents: u32) -> Option<u32>
        requires { extents ≤ 2048 }
        ensures some { IfSome result (λ e. (e < extents)
            × IsExtent (owner_in (in_table self.now)) id number e) }
        ensures none { IfNone result
            (owned_in (owner_in (in_table self.now)) id extents ≤ number) }
    {
        let mut left = number;
        for extent in 0..extents {
            if self.owner(extent) == id {
                if left == 0 {
                    return Some(extent);
                }
                left -= 1;
            }
        }
        None
    }

    /// Whether an id has a name.
    pub(crate) fn is_live(&self, id: u8) -> bool
        ensures { IsTrue result ↔ IsLiveId (in_table self.now) id }
    {
        id >= 1 && id <= 31 && self.name_byte(id, 0) != 0
    }

    /// Whether the six blocks are a table for a device of so many blocks.
    pub(crate) fn is_table(&self, count: u32) -> bool
        requires { 7 ≤ count }
        ensures { IsTrue result ↔ IsVolumeTable count (in_table self.now) }
    {
        self.is_head(count) && self.are_names() && self.are_owners(extent_count(count))
    }

    fn is_head(&self, count: u32) -> bool
        requires { 7 ≤ count }
        ensures { IsTrue result
            ↔ ((in_table self.now 0).bytes ≡ head_bytes (size_of count) (count_of count)) }
    {
        let head = head(extent_size(count), extent_count(count));
        self.blocks[0].as_slice() == head.as_slice()
    }

    fn are_names(&self) -> bool
        ensures { IsTrue result ↔ AreNames (in_table self.now) }
    {
        self.are_fields() && self.is_rest_zero() && self.are_distinct()
    }

    fn are_fields(&self) -> bool
        ensures { IsTrue result
            ↔ ((id : ℕ) → 1 ≤ id → id ≤ 31 → IsField (name_in (in_table self.now) id)) }
    {
        for id in 1..32 {
            if !self.is_field(id) {
                return false;
            }
        }
        true
    }

    fn is_field(&self, id: u8) -> bool
        requires { (1 ≤ id) × (id ≤ 31) }
        ensures { IsTrue result ↔ IsField (name_in (in_table self.now) id) }
    {
        for at in 0..16 {
            if !self.is_field_at(id, at) {
                return false;
            }
        }
        true
    }

    // Whether a byte of a name may stand where it does.
    fn is_field_at(&self, id: u8, at: usize) -> bool
        requires { (1 ≤ id) × (id ≤ 31) × (at < 16) }
        ensures { IsTrue result ↔ IsFieldAt (name_in (in_table self.now) id) at }
    {
        let byte = self.name_byte(id, at);
        if byte == 0 {
            return true;
        }
        is_letter(byte) && (at == 0 || self.name_byte(id, at - 1) != 0)
    }

    fn is_rest_zero(&self) -> bool
        ensures { IsTrue result
            ↔ ((k : ℕ) → 496 ≤ k → k < 512 → slice_index (in_table self.now 1).bytes k ≡ 0) }
    {
        for at in 496..512 {
            if self.blocks[1].bytes[at] != 0 {
                return false;
            }
        }
        true
    }

    /// Whether two ids have the same name.
    fn is_same_name(&self, one: u8, other: u8) -> bool
        requires { (1 ≤ one) × (one ≤ 31) × (1 ≤ other) × (other ≤ 31) }
        ensures { IsTrue result ↔ ((k : ℕ) → k < 16
            → name_in (in_table self.now) one k ≡ name_in (in_table self.now) other k) }
    {
        for at in 0..16 {
            if self.name_byte(one, at) != self.name_byte(other, at) {
                return false;
            }
        }
        true
    }

    // Whether no live id before this one has its name.
    fn is_first(&self, id: u8) -> bool
        requires { IsLiveId (in_table self.now) id }
        ensures { IsTrue result ↔ ((i : ℕ) → i < id → IsLiveId (in_table self.now) i → ((k : ℕ)
            → k < 16 → name_in (in_table self.now) i k ≡ name_in (in_table self.now) id k) → ⊥) }
    {
        for other in 1..id {
            if self.is_live(other) && self.is_same_name(other, id) {
                return false;
            }
        }
        true
    }

    fn are_distinct(&self) -> bool
        ensures { IsTrue result ↔ ((j i : ℕ)
            → i < j → IsLiveId (in_table self.now) i → IsLiveId (in_table self.now) j → ((k : ℕ)
            → k < 16 → name_in (in_table self.now) i k ≡ name_in (in_table self.now) j k) → ⊥) }
    {
        for id in 1..32 {
            if self.is_live(id) && !self.is_first(id) {
                return false;
            }
        }
        true
    }

    fn are_owners(&self, extents: u32) -> bool
        requires { extents ≤ 2048 }
        ensures { IsTrue result ↔ AreOwners extents (in_table self.now) }
    {
        self.are_live(extents) && self.is_end_free(extents) && self.are_some(extents)
    }

    fn are_live(&self, extents: u32) -> bool
        requires { extents ≤ 2048 }
        ensures { IsTrue result ↔ ((e : ℕ) → e < extents → owner_in (in_table self.now) e ≢ 0
            → IsLiveId (in_table self.now) (owner_in (in_table self.now) e)) }
    {
        for extent in 0..extents {
            let owner = self.owner(extent);
            if owner != 0 && !self.is_live(owner) {
                return false;
            }
        }
        true
    }

    fn is_end_free(&self, extents: u32) -> bool
        requires { extents ≤ 2048 }
        ensures { IsTrue result
            ↔ ((e : ℕ) → extents ≤ e → e < 2048 → owner_in (in_table self.now) e ≡ 0) }
    {
        for extent in extents..2048 {
            if self.owner(extent) != 0 {
                return false;
            }
        }
        true
    }

    fn are_some(&self, extents: u32) -> bool
        requires { extents ≤ 2048 }
        ensures { IsTrue result ↔ ((id : ℕ) → IsLiveId (in_table self.now) id
            → 0 < owned_in (owner_in (in_table self.now)) id extents) }
    {
        for id in 1..32 {
            if self.is_live(id) && self.owned(id, extents) == 0 {
                return false;
            }
        }
        true
    }

    // Whether an id has this name.
    fn has_name(&self, id: u8, name: &Name) -> bool
        requires { (1 ≤ id) × (id ≤ 31) }
        ensures { IsTrue result ↔ IsNameOf (in_table self.now) id name.now }
    {
        for at in 0..16 {
            if self.name_byte(id, at) != name.text[at] {
                return false;
            }
        }
        true
    }

    /// The id with this name.
    pub(crate) fn find(&self, name: &Name) -> Option<u8>
        ensures some { IfSome result (λ id. IsLiveId (in_table self.now) id
            × IsNameOf (in_table self.now) id name.now) }
        ensures none { IfNone result ((id : ℕ) → IsLiveId (in_table self.now) id
            → IsNameOf (in_table self.now) id name.now → ⊥) }
    {
        for id in 1..32 {
            if self.is_live(id) && self.has_name(id, name) {
                return Some(id);
            }
        }
        None
    }

    /// The name of a live id.
    pub(crate) fn name(&self, id: u8) -> Name
        requires live { IsLiveId (in_table self.now) id }
        requires field { IsField (name_in (in_table self.now) id) }
        ensures { IsNameOf (in_table self.now) id result }
    {
        let mut text = [0; 16];
        for at in 0..16 {
            text[at] = self.name_byte(id, at);
        }
        Name::from_field(text)
    }

    /// The table of a device of so many blocks that holds no volume.
    pub(crate) fn empty(count: u32) -> Table
        requires { 7 ≤ count }
        ensures head { (in_table result 0).bytes ≡ head_bytes (size_of count) (count_of count) }
        ensures rest { (k : ℕ) → 1 ≤ k → in_table result k ≡ zero_block }
        ensures table { IsVolumeTable count (in_table result) }
    {
        let mut table = Table::zero();
        table.put(0, &head(extent_size(count), extent_count(count)));
        table
    }

    /// The same table.
    pub(crate) fn copy(&self) -> Table
        ensures { (k : ℕ) → k < 6 → in_table result k ≡ in_table self.now k }
    {
        let mut table = Table::zero();
        for at in 0..6 {
            table.put(at, &self.blocks[at as usize]);
        }
        table
    }

    // Changes a byte.
    fn set_byte(&mut self, block: usize, at: usize, byte: u8)
        requires { (block < 6) × (at < 512) }
        ensures here { (i : ℕ) → slice_index (in_table self.new block).bytes i
            ≡ (if i == at then byte else slice_index (in_table self.old block).bytes i) }
        ensures rest { (k : ℕ) → k ≢ block → in_table self.new k ≡ in_table self.old k }
    {
        set_byte_in(&mut self.blocks, block, at, byte);
    }

    /// Changes the owner of an extent.
    pub(crate) fn set_owner(&mut self, extent: u32, id: u8)
        requires { extent < 2048 }
        ensures owners { (e : ℕ) → e < 2048 → owner_in (in_table self.new) e
            ≡ (if e == extent then id else owner_in (in_table self.old) e) }
        ensures rest { (k : ℕ) → k < 2 → in_table self.new k ≡ in_table self.old k }
    {
        self.set_byte(2 + (extent / 512) as usize, (extent % 512) as usize, id);
    }

    /// Changes the 16 bytes of a name.
    pub(crate) fn set_name(&mut self, id: u8, text: &[u8; 16])
        requires { (1 ≤ id) × (id ≤ 31) }
        ensures here { (k : ℕ)
            → k < 16 → name_in (in_table self.new) id k ≡ slice_index text.now k }
        ensures others { (i k : ℕ) → 1 ≤ i → i ≢ id → k < 16
            → name_in (in_table self.new) i k ≡ name_in (in_table self.old) i k }
        ensures end { (k : ℕ) → 496 ≤ k → slice_index (in_table self.new 1).bytes k
            ≡ slice_index (in_table self.old 1).bytes k }
        ensures rest { (k : ℕ) → k ≢ 1 → in_table self.new k ≡ in_table self.old k }
    {
        for at in 0..16 {
            self.set_byte(1, 16 * (id as usize - 1) + at, text[at]);
        }
    }

    /// Gives each extent of one owner to another.
    pub(crate) fn give(&mut self, from: u8, to: u8, extents: u32)
        requires { extents ≤ 2048 }
        ensures owners { (e : ℕ) → e < 2048 → owner_in (in_table self.new) e
            ≡ (if nat_lt e extents && owner_in (in_table self.old) e == from then to
            else owner_in (in_table self.old) e) }
        ensures rest { (k : ℕ) → k < 2 → in_table self.new k ≡ in_table self.old k }
    {
        for extent in 0..extents {
            if self.owner(extent) == from {
                self.set_owner(extent, to);
            }
        }
    }

    /// Gives an id the first so many free extents.
    pub(crate) fn take(&mut self, id: u8, count: u32, extents: u32)
        requires few { extents ≤ 2048 }
        ensures owners { (e : ℕ) → e < 2048 → owner_in (in_table self.new) e
            ≡ (if nat_lt e extents && (owner_in (in_table self.old) e == 0
            && nat_lt (owned_in (owner_in (in_table self.old)) 0 e) count) then id
            else owner_in (in_table self.old) e) }
        ensures rest { (k : ℕ) → k < 2 → in_table self.new k ≡ in_table self.old k }
    {
        let mut left = count;
        for extent in 0..extents {
            if left > 0 && self.owner(extent) == 0 {
                self.set_owner(extent, id);
                left -= 1;
            }
        }
    }

    /// The least free id.
    pub(crate) fn free_id(&self) -> Option<u8>
        ensures some { IfSome result (IsLeastFree (in_table self.now)) }
        ensures none { IfNone result ((i : ℕ) → 1 ≤ i → i ≤ 31 → IsLiveId (in_table self.now) i) }
    {
        for id in 1..32 {
            if !self.is_live(id) {
                return Some(id);
            }
        }
        None
    }

    /// All six blocks, as one write.
    pub(crate) fn whole(&self) -> Pairs
        ensures laid { (old : ℕ → BlockType) → IsLaid old (in_table self.now) (pairs_of result) }
        ensures exact { pairs_of result ≡ table_pairs (in_table self.now) 6 }
    {
        let mut pairs = Pairs::one(0, &self.blocks[0]);
        for at in 1..6 {
            pairs.add(at, &self.blocks[at as usize]);
        }
        pairs
    }

    // Whether two tables have the same bytes in a block.
    fn is_same_at(&self, new: &Table, at: u32) -> bool
        requires { at < 6 }
        ensures { IsTrue result ↔ ((in_table self.now at).bytes ≡ (in_table new.now at).bytes) }
    {
        self.blocks[at as usize].as_slice() == new.blocks[at as usize].as_slice()
    }

    /// The second block and each later one that differs from this table's, as one write.
    pub(crate) fn changes(&self, new: &Table) -> Pairs
        requires { in_table self.now 0 ≡ in_table new.now 0 }
        ensures laid { IsLaid (in_table self.now) (in_table new.now) (pairs_of result) }
        ensures exact { AreChanges (in_table self.now) (in_table new.now) 6 (pairs_of result) }
    {
        let mut pairs = Pairs::one(1, &new.blocks[1]);
        for at in 2..6 {
            if !self.is_same_at(new, at) {
                pairs.add(at, &new.blocks[at as usize]);
            }
        }
        pairs
    }

    /// The table without a live id.
    pub(crate) fn without(&self, id: u8, extents: u32) -> Table
        requires id { (1 ≤ id) × (id ≤ 31) }
        requires few { extents ≤ 2048 }
        ensures { IsWithout id extents (in_table self.now) (in_table result) }
    {
        let mut next = self.copy();
        next.set_name(id, &[0; 16]);
        next.give(id, 0, extents);
        next
    }

    /// The table with a new id that has the first so many free extents.
    pub(crate) fn with(&self, id: u8, name: &Name, count: u32, extents: u32) -> Table
        requires id { (1 ≤ id) × (id ≤ 31) }
        requires few { extents ≤ 2048 }
        ensures { IsWith id name.now count extents (in_table self.now) (in_table result) }
    {
        let mut next = self.copy();
        next.set_name(id, &name.text);
        next.take(id, count, extents);
        next
    }
}
