// The causes against a registration before its links are checked (document 01, "Order"): 12, 17, 14, 16, 15, 20, and
// then 30 and 31; and whether each held flow meets 11 and those before 30 beside the others.
#![tactic(auto)]

ghost use Rattle.std.specs.Prelude.{◌≡◌, true, ◌&&◌, map, ◌+◌, ◌≤◌, ◌<◌, length, get_or};
ghost use Rattle.std.proofs.Math.Option.{none};
ghost use Rattle.model.specs.Words.{every, is_none};
ghost use Rattle.model.specs.Sizes.{number_most, hops_most, slot_count};
ghost use Rattle.model.specs.Columns.{between};
ghost use Rattle.model.specs.Orders.{head_in_range};
ghost use Rattle.model.specs.Reference.{first_cause, held_flows};
ghost use Rattle.queue_table.specs.View.{WellFormed, hop_at, table_of, AllQueues};
ghost use Rattle.bit_words.specs.View.{is_set, BitChanged};
ghost use Rattle.flow_store.specs.View.{PackedStore, slot_words, store_numbers, slots_of};
ghost use Rattle.orders.specs.View.{fields_of};
ghost use Rattle.causes.specs.View.{finding_of};
ghost use Rattle.flow_check.specs.View.{entry_findings, PathJudged, FlowJudged, RoomJudged, flow_alone, slot_alone, path_findings, number_words, Marked};

use causes::Cause;
use flow_store::{POOL, SLOTS};
use orders::{Flow, MOST_HOPS, MOST_NUMBER, Path};
use queue_table::Hop;
use units::Micros;

// How many words mark flow numbers: number n at bit n % 64 of word n / 64.
const NUMBER_WORDS: usize = MOST_NUMBER / bit_words::WORD + 1;

// Why there is no room for a flow. The lowest free slot stands beside it, past all slots where none is free.
#[derive(Clone, Copy, Debug, PartialEq, Eq)]
pub struct NoRoom {
    pub cause: Cause,
    pub slot: usize,
}

impl From<NoRoom> for Cause {
    ghost from_gives = { λ lack cause. cause ≡ lack.cause };

    fn from(lack: NoRoom) -> Cause {
        lack.cause
    }
}

// 16, 15 and 20 over a path whose entries are queues.
fn judge_entries(deadline: Micros, table: &[u32], entries: &[u32]) -> Result<(), Cause>
    requires { WellFormed table.now × AllQueues table.now entries.now × (length entries.now ≤ hops_most) }
    ensures { finding_of result ≡ first_cause (entry_findings (table_of table.now) deadline.0 (map hop_at entries.now)) }
{
    if let Some(again) = path_check::repeated(entries) {
        let hop = queue_table::hop_at(entries[again]);
        return Err(Cause::MetEarlier(hop.link, hop.level));
    }
    if let Some(apart) = path_check::broken(table, entries) {
        let hop = queue_table::hop_at(entries[apart]);
        return Err(Cause::StartsElsewhere(hop.link, hop.level));
    }
    let sum = path_check::path_delay(table, entries);
    if deadline.0 < sum.0 {
        return Err(Cause::OverDeadline);
    }
    Ok(())
}

// 14, then 16, 15 and 20, over the hops of an order line.
fn judge_path(flow: Flow, hops: &[Hop], table: &[u32]) -> Result<Path, Cause>
    requires { WellFormed table.now × (length hops.now ≡ hops_most) × (flow.hops ≤ hops_most) }
    ensures { PathJudged flow hops.now table.now result }
{
    let path = path_check::locate(table, hops, flow.hops as usize).map_err(|at| Cause::NoQueue(
        hops[at].link,
        hops[at].level,
    ))?;
    judge_entries(flow.deadline, table, path.entries())?;
    Ok(path)
}

// 12, 17, 14, 16, 15 and 20: what is against a flow by itself, or its path.
pub fn judge_flow(
    flow: Flow,
    hops: &[Hop],
    table: &[u32],
    bits: &[u64],
    store: &[u32],
) -> Result<Path, Cause>
    requires { WellFormed table.now × (length hops.now ≡ hops_most) × (flow.hops ≤ hops_most) × (length bits.now ≡ slot_words) × (length store.now ≡ store_numbers) }
    ensures { FlowJudged flow hops.now table.now bits.now store.now result }
{
    if flow_store::find(flow.number, bits, store).is_some() {
        return Err(Cause::NumberHeld);
    }
    if flow.share.burst.0 < flow.share.frame.0 {
        return Err(Cause::FrameAboveBurst);
    }
    judge_path(flow, hops, table)
}

// 30, then 31 for a path of so many hops; else the slot that is free.
pub fn judge_room(hops: u32, bits: &[u64], store: &[u32]) -> Result<usize, NoRoom>
    requires { PackedStore bits.now store.now × (hops ≤ hops_most) }
    ensures { RoomJudged hops bits.now store.now result }
{
    let slot = flow_store::first_free(bits);
    if SLOTS <= slot {
        return Err(NoRoom {
            cause: Cause::NoSlot,
            slot,
        });
    }
    if POOL - (hops as usize) < flow_store::held_entries(bits, store) {
        return Err(NoRoom {
            cause: Cause::NoEntries,
            slot,
        });
    }
    Ok(slot)
}

// Whether none of 14, 16, 15 and 20 is against a path of entries of any value.
fn path_stands(deadline: Micros, table: &[u32], entries: &[u32]) -> bool
    requires { WellFormed table.now × (length entries.now ≤ hops_most) }
    ensures { result ≡ is_none (first_cause (path_findings (table_of table.now) deadline.0 (map hop_at entries.now))) }
{
    path_check::all_queues(table, entries) && judge_entries(deadline, table, entries).is_ok()
}

// Marks a flow number, and says whether it was marked before.
fn mark(number: u32, marks: &mut [u64]) -> bool
    requires { (length marks.old ≡ number_words) × (number ≤ number_most) }
    ensures { (result ≡ is_set marks.old number) × BitChanged number true marks.old marks.new }
{
    let at = number as usize;
    let known = bit_words::is_set(at, &marks[..]);
    bit_words::set_bit(at, marks);
    known
}

// Whether a flow's numbers, its hop count among them, are in their ranges.
#[tactic(auto, unfolding(model::specs::Columns::between))]
fn in_range(flow: Flow) -> bool
    ensures { result ≡ (head_in_range (fields_of flow) && between 1 hops_most flow.hops) }
{
    orders::in_range(flow) && (1..=MOST_HOPS as u32).contains(&flow.hops)
}

// Whether a slot is free, or its flow meets 11, 12, 17, 14, 16, 15 and 20; its numbers can have any value. Its flow number is
// marked beside those of the slots before it.
fn slot_stands(slot: usize, table: &[u32], bits: &[u64], store: &[u32], marks: &mut [u64]) -> bool
    requires { WellFormed table.now × PackedStore bits.now store.now × (slot < slot_count) × Marked (slots_of bits.now store.now) slot marks.old }
    ensures value { result ≡ slot_alone (table_of table.now) (slots_of bits.now store.now) slot (get_or (slots_of bits.now store.now) slot none) }
    ensures marked { result ≡ true → Marked (slots_of bits.now store.now) (slot + 1) marks.new }
{
    if !flow_store::is_held(slot, bits) {
        return true;
    }
    let flow = flow_store::flow_at(slot, store);
    if !in_range(flow) {
        return false;
    }
    if mark(flow.number, marks) {
        return false;
    }
    flow.share.frame.0 <= flow.share.burst.0
        && path_stands(flow.deadline, table, flow_store::path_of(slot, store))
}

// Whether each held flow meets 11, 12, 17, 14, 16, 15 and 20 beside the others; no flow number is marked yet.
fn slots_stand(table: &[u32], bits: &[u64], store: &[u32], marks: &mut [u64]) -> bool
    requires { WellFormed table.now × PackedStore bits.now store.now × Marked (slots_of bits.now store.now) 0 marks.old }
    ensures { result ≡ every (flow_alone (table_of table.now) (held_flows (slots_of bits.now store.now))) (held_flows (slots_of bits.now store.now)) }
{
    for slot in 0..SLOTS {
        if !slot_stands(slot, table, bits, store, marks) {
            return false;
        }
    }
    true
}

// Whether each held flow meets 11, 12, 17, 14, 16, 15 and 20 beside the others.
pub fn held_flows(table: &[u32], bits: &[u64], store: &[u32]) -> bool
    requires { WellFormed table.now × PackedStore bits.now store.now }
    ensures { result ≡ every (flow_alone (table_of table.now) (held_flows (slots_of bits.now store.now))) (held_flows (slots_of bits.now store.now)) }
{
    let mut marks = [0u64; NUMBER_WORDS];
    slots_stand(table, bits, store, &mut marks)
}
