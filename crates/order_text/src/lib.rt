// The registry written as order lines (W-204): kind 1, lowest slot first, in the columns that `orders` reads.
#![tactic(auto)]

ghost use Rattle.std.specs.Prelude.{◌≡◌, List, ◌++◌, map, ◌+◌, ◌*◌, ◌^◌, ◌≤◌, ◌<◌, length, drop, slice_index_or};
ghost use Rattle.std.proofs.Math.Option.{none};
ghost use Rattle.model.specs.Words.{joined};
ghost use Rattle.model.specs.Sizes.{head_columns, hop_columns, slot_count};
ghost use Rattle.model.specs.Orders.{flow_of};
ghost use Rattle.model.specs.Reference.{Slot, held_flows};
ghost use Rattle.model.specs.Handover.{head_text, hop_text, flow_line, handover_text};
ghost use Rattle.queue_table.specs.View.{hop_at};
ghost use Rattle.orders.specs.View.{fields_of};
ghost use Rattle.flow_store.specs.View.{slots_of, Readable};
ghost use Rattle.registry.specs.View.{Sized};
ghost use Rattle.order_text.specs.View.{slot_text, WritesArrays, Writes};

use causes::Cause;
use columns::LF;
use flow_store::{POOL, SLOTS};
use orders::{Flow, HEAD_COLUMNS, HOP_COLUMNS, Kind};
use registry::Registry;
use std::marker::Model;

// An area of so many bytes is always long enough: a line for each slot with its LF, and the columns of all hop entries.
pub const TEXT: usize = SLOTS * (HEAD_COLUMNS + 1) + HOP_COLUMNS * POOL;

// The columns of a registration before its hops, at the front of `part`.
fn write_head(flow: Flow, part: &mut [u8])
    requires { head_columns ≤ length part.old }
    ensures { part.new ≡ head_text (fields_of flow) ++ drop head_columns part.old }
{
    columns::write_at(part, 1, 2, u64::from(u32::from(Kind::Register)));
    columns::write_at(part, 3, 8, u64::from(flow.number));
    columns::write_at(part, 9, 17, flow.share.rate.0);
    columns::write_at(part, 18, 25, flow.share.burst.0);
    columns::write_at(part, 26, 30, flow.share.frame.0);
    columns::write_at(part, 31, 38, flow.deadline.0);
    columns::write_at(part, 39, 41, u64::from(flow.hops));
}

// The columns of the hop that an entry names, at the front of `part`.
fn write_hop(entry: u32, part: &mut [u8])
    requires { hop_columns ≤ length part.old }
    ensures { part.new ≡ hop_text (hop_at entry) ++ drop hop_columns part.old }
{
    let hop = queue_table::hop_at(entry);
    columns::write_at(part, 1, 4, u64::from(hop.link));
    columns::write_at(part, 5, 6, u64::from(hop.level));
}

// Hop after hop.
fn write_path(entries: &[u32], part: &mut [u8])
    requires { hop_columns * length entries.now ≤ length part.old }
    ensures { part.new ≡ joined hop_text (map hop_at entries.now) ++ drop (hop_columns * length entries.now) part.old }
{
    let mut at = 0;
    for entry in entries {
        write_hop(*entry, &mut part[at..]);
        at += HOP_COLUMNS;
    }
}

// A flow's line with its LF, at the front of `part`: how many bytes it has.
pub fn write_line(flow: Flow, entries: &[u32], part: &mut [u8]) -> usize
    requires { (flow.hops ≡ length entries.now) × (head_columns + 1 + hop_columns * length entries.now ≤ length part.old) }
    ensures part_after { part.new ≡ flow_line (flow_of (fields_of flow) (map hop_at entries.now)) ++ drop result part.old }
    ensures value { result ≡ length (flow_line (flow_of (fields_of flow) (map hop_at entries.now))) }
{
    let end = HEAD_COLUMNS + HOP_COLUMNS * entries.len();
    write_head(flow, part);
    write_path(entries, &mut part[HEAD_COLUMNS..]);
    part[end] = LF;
    end + 1
}

// The slots of a registry, as they are written.
#[derive(Drop)]
struct Held<'a> {
    bits: &'a [u64],
    store: &'a [u32],
}

impl<'a> Model for Held<'a> {
    ghost Value = { List Slot };

    ghost view = { λ held. slots_of held.bits.now held.store.now };

    ghost invariant = { λ held. Readable held.bits.now held.store.now };
}

impl Held<'_> {
    // How many slots there are: each has a bit.
    fn len(&self) -> usize
        ensures { (result ≡ length self.now) × (result ≡ slot_count) }
    {
        bit_words::WORD * self.bits.len()
    }

    // How many bytes a slot's line has, 0 where the slot is free.
    fn slot_bytes(&self, slot: usize) -> usize
        requires { slot < slot_count }
        ensures value { result ≡ length (slot_text (slice_index_or self.now slot none)) }
        ensures upper_bound { result < 2 ^ 36 }
    {
        if !flow_store::is_held(slot, self.bits) {
            return 0;
        }
        let flow = flow_store::flow_at(slot, self.store);
        HEAD_COLUMNS + 1 + HOP_COLUMNS * (flow.hops as usize)
    }

    // How many bytes the text has.
    fn text_bytes(&self) -> usize
        ensures { result ≡ length (handover_text (held_flows self.now)) }
    {
        let mut bytes = 0;
        for slot in 0..self.len() {
            bytes += self.slot_bytes(slot);
        }
        bytes
    }

    // A slot's line at the front of `part`, nothing where the slot is free: how many bytes it has.
    fn write_slot(&self, slot: usize, part: &mut [u8]) -> usize
        requires { (slot < slot_count) × (length (slot_text (slice_index_or self.now slot none)) ≤ length part.old) }
        ensures part_after { part.new ≡ slot_text (slice_index_or self.now slot none) ++ drop result part.old }
        ensures value { result ≡ length (slot_text (slice_index_or self.now slot none)) }
    {
        if !flow_store::is_held(slot, self.bits) {
            return 0;
        }
        let path = flow_store::path_of(slot, self.store);
        write_line(flow_store::flow_at(slot, self.store), path, part)
    }

    // Slot after slot.
    fn write_slots(&self, area: &mut [u8])
        requires { length (handover_text (held_flows self.now)) ≤ length area.old }
        ensures { area.new ≡ handover_text (held_flows self.now) ++ drop (length (handover_text (held_flows self.now))) area.old }
    {
        let mut at = 0;
        for slot in 0..self.len() {
            at += self.write_slot(slot, &mut area[at..]);
        }
    }
}

// The text of arrays of any content: how many bytes it has; 42, then 43.
fn write_arrays(
    table: &[u32],
    bits: &[u64],
    store: &[u32],
    figures: &[u64],
    area: &mut [u8],
) -> Result<usize, Cause>
    requires { Sized table.now bits.now store.now figures.now }
    ensures { WritesArrays table.now bits.now store.now figures.now area.old area.new result }
{
    if !registry::is_consistent(table, bits, store, figures) {
        return Err(Cause::Inconsistent);
    }
    let held = Held { bits, store };
    let bytes = held.text_bytes();
    if area.len() < bytes {
        return Err(Cause::AreaTooShort);
    }
    held.write_slots(area);
    Ok(bytes)
}

// Writes the held flows of any registry whatever to the front of the area: how many bytes it filled, or why it wrote nothing.
// The registry is only read.
pub fn write(registry: Registry, area: &mut [u8]) -> Result<usize, Cause>
    ensures { Writes registry area.old area.new result }
{
    write_arrays(
        &registry.table,
        &registry.bits,
        &registry.store,
        &registry.figures,
        area,
    )
}
