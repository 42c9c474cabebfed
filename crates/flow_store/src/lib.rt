// The flows that are held, and their paths (document 01, "The book": places and hop entries).
//
// The flows stand in two arrays of numbers. `bits` has one bit a slot, and this bit alone says whether the slot is held. `store`
// has the flow numbers, rates, bursts, largest frames, deadlines, hop counts and starts of the slots, SLOTS of each kind, kind
// after kind, so that a scan over the slots reads consecutive numbers; those of a free slot don't count. Behind them it has the
// pool: the hop entries of the held flows one after the other in slot order. A flow's entries are read from its own slot's start,
// so that a wrong number spoils its own flow alone; where the paths before it end only says whether the pool is packed, and what
// stands past the last held entry doesn't count.
#![tactic(auto)]

ghost use Rattle.std.specs.Prelude.{◌≡◌, ℕ, ◌+◌, ◌-◌, ◌^◌, ◌<◌, ◌≤◌, true, false, List, length, ◌≢◌, slice_index_or, slice_set};
ghost use Rattle.std.proofs.Math.Option.{none};
ghost use Rattle.model.specs.Words.{first_index};
ghost use Rattle.model.specs.Sizes.{slot_count};
ghost use Rattle.model.specs.Reference.{holds, changed_slot};
ghost use Rattle.units.specs.View.{aggregate_of};
ghost use Rattle.orders.specs.View.{change_of, fields_of};
ghost use Rattle.bit_words.specs.View.{is_set, LeastClear};
ghost use Rattle.flow_store.specs.View.{store_numbers, slot_words, block_slots, hops_at, start_at, head_at, share_at, entries_in, slots_of, counts_from, Packed, PackedStore, PathInside, end_before, flow_stored, StartsMoved, path_inserted, path_removed, Narrow, ChangeNarrow, Placeable, Placed, FreeFrom, OthersFrom, FoundSlot};

use orders::{Change, Flow};
use units::{Aggregate, Bytes, Micros, Rate};

// How many slots there are, a multiple of BLOCK and of a word's bits, and how many hop entries for all of them together.
pub const SLOTS: usize = 256;

pub const POOL: usize = 1024;

// How many words say which slots are held: slot i at bit i % 64 of word i / 64.
pub const SLOT_WORDS: usize = SLOTS / bit_words::WORD;

// How many numbers the slots have, and where those of each kind start. The flow numbers stand first, the pool behind the last.
const SLOT_NUMBERS: usize = 7 * SLOTS;

pub const STORE_NUMBERS: usize = SLOT_NUMBERS + POOL;

const RATES: usize = SLOTS;

const BURSTS: usize = 2 * SLOTS;

const FRAMES: usize = 3 * SLOTS;

const DEADLINES: usize = 4 * SLOTS;

const HOPS: usize = 5 * SLOTS;

const STARTS: usize = 6 * SLOTS;

// How many slots are compared together.
const BLOCK: usize = 16;

// The numbers that stand at a slot, held or free.
pub fn flow_at(slot: usize, store: &[u32]) -> Flow
    requires { (length store.now ≡ store_numbers) × (slot < slot_count) }
    ensures result_value { fields_of result ≡ head_at store.now slot }
    ensures share_value { aggregate_of result.share ≡ share_at store.now slot }
{
    Flow {
        number: store[slot],
        share: Aggregate {
            rate: Rate(u64::from(store[RATES + slot])),
            burst: Bytes(u64::from(store[BURSTS + slot])),
            frame: Bytes(u64::from(store[FRAMES + slot])),
        },
        deadline: Micros(u64::from(store[DEADLINES + slot])),
        hops: store[HOPS + slot],
    }
}

// Whether a slot is held.
pub fn is_held(slot: usize, bits: &[u64]) -> bool
    requires { (length bits.now ≡ slot_words) × (slot < slot_count) }
    ensures { result ≡ is_set bits.now slot }
{
    bit_words::is_set(slot, bits)
}

// The hop count of a slot, and where its hop entries start in the pool, held or free.
fn hops_at(slot: usize, store: &[u32]) -> usize
    requires { (length store.now ≡ store_numbers) × (slot < slot_count) }
    ensures { (result ≡ hops_at store.now slot) × (result < 2 ^ 32) }
{
    store[HOPS + slot] as usize
}

fn start_at(slot: usize, store: &[u32]) -> usize
    requires { (length store.now ≡ store_numbers) × (slot < slot_count) }
    ensures { (result ≡ start_at store.now slot) × (result < 2 ^ 32) }
{
    store[STARTS + slot] as usize
}

// The hop entries that a slot's start and hop count name: those of its flow, where it holds one.
pub fn path_of(slot: usize, store: &[u32]) -> &[u32]
    requires { (length store.now ≡ store_numbers) × (slot < slot_count) × PathInside store.now slot }
    ensures { result.now ≡ entries_in store.now slot }
{
    let start = SLOT_NUMBERS + start_at(slot, store);
    let hops = hops_at(slot, store);
    &store[start..start + hops]
}

// Whether a flow number may stand in a block of slots, held or free: false only where it doesn't. It goes on past the first,
// so that the slots are compared together.
fn block_names(number: u32, from: usize, store: &[u32]) -> bool
    requires { (length store.now ≡ store_numbers) × (from + block_slots ≤ slot_count) }
    ensures { result ≡ false → OthersFrom number store.now from (from + block_slots) }
{
    let mut any = false;
    for own in &store[from..from + BLOCK] {
        any |= *own == number;
    }
    any
}

// A slot before which no slot has this flow number.
fn skip_others(number: u32, store: &[u32]) -> usize
    requires { length store.now ≡ store_numbers }
    ensures { (result ≤ slot_count) × OthersFrom number store.now 0 result }
{
    for from in (0..SLOTS).step_by(BLOCK) {
        if block_names(number, from, store) {
            return from;
        }
    }
    SLOTS
}

// The slot that holds the flow with this number.
pub fn find(number: u32, bits: &[u64], store: &[u32]) -> Option<usize>
    requires { (length bits.now ≡ slot_words) × (length store.now ≡ store_numbers) }
    ensures { FoundSlot (first_index (holds number) (slots_of bits.now store.now)) result }
{
    for slot in skip_others(number, store)..SLOTS {
        if store[slot] == number && is_held(slot, bits) {
            return Some(slot);
        }
    }
    None
}

// The lowest free slot, SLOTS where none is free.
pub fn first_free(bits: &[u64]) -> usize
    requires { length bits.now ≡ slot_words }
    ensures { LeastClear bits.now result }
{
    bit_words::least_clear(bits)
}

// The same for a caller in another language, who may lend any number of words: SLOTS too where they aren't SLOT_WORDS.
#[unsafe(no_mangle)]
pub extern "C" fn devvonur_first_free(bits: &[u64]) -> usize
    ensures least_clear { length bits.now ≡ slot_words → LeastClear bits.now result }
    ensures value { (length bits.now ≢ slot_words) → result ≡ slot_count }
{
    if bits.len() != SLOT_WORDS {
        return SLOTS;
    }
    first_free(bits)
}

// Whether the held paths of arrays of any content fit the pool and each starts where the ones before it end.
pub fn is_packed(bits: &[u64], store: &[u32]) -> bool
    requires { (length bits.now ≡ slot_words) × (length store.now ≡ store_numbers) }
    ensures packed { result ≡ true → Packed bits.now store.now }
    ensures fact { result ≡ false → Packed bits.now store.now → ⊥ }
{
    let mut end = 0;
    for slot in 0..SLOTS {
        if is_held(slot, bits) {
            if start_at(slot, store) != end {
                return false;
            }
            end += hops_at(slot, store);
            let past = POOL < end;
            if past {
                return false;
            }
        }
    }
    true
}

// Where the entries of the slot before this one end; 0 for the first slot.
fn end_before(slot: usize, store: &[u32]) -> usize
    requires { (length store.now ≡ store_numbers) × (slot ≤ slot_count) }
    ensures { result ≡ end_before store.now slot }
{
    if slot == 0 {
        return 0;
    }
    start_at(slot - 1, store) + hops_at(slot - 1, store)
}

// How many hop entries are held: the position where those of the last held slot end.
pub fn held_entries(bits: &[u64], store: &[u32]) -> usize
    requires { (length bits.now ≡ slot_words) × (length store.now ≡ store_numbers) × Packed bits.now store.now }
    ensures { result ≡ counts_from slot_count 0 bits.now store.now }
{
    end_before(bit_words::past_set(bits), store)
}

// Puts a path at position `start` of a pool that is held up to `end`.
fn insert_path(start: usize, end: usize, entries: &[u32], pool: &mut [u32])
    requires { (start ≤ end) × (end + length entries.now ≤ length pool.old) }
    ensures { pool.new ≡ path_inserted start end entries.now pool.old }
{
    pool.copy_within(start..end, start + entries.len());
    pool[start..start + entries.len()].copy_from_slice(entries);
}

// Stores a flow's numbers and where its path starts. They fit the array: an order line's ranges are below 2^32.
fn store_flow(slot: usize, start: u32, flow: Flow, store: &mut [u32])
    requires { (slot < slot_count) × (length store.old ≡ store_numbers) × Narrow flow }
    ensures { store.new ≡ flow_stored slot start flow store.old }
{
    store[slot] = flow.number;
    store[RATES + slot] = flow.share.rate.0 as u32;
    store[BURSTS + slot] = flow.share.burst.0 as u32;
    store[FRAMES + slot] = flow.share.frame.0 as u32;
    store[DEADLINES + slot] = flow.deadline.0 as u32;
    store[HOPS + slot] = flow.hops;
    store[STARTS + slot] = start;
}

// Adds a number to the starts from slot `from` on, free slots' too, so that several are added at once. The sums wrap, since a
// free slot's start can be any number. By index: over the slice this isn't vectorised in `put`, and load a takes 1.09 times as long.
fn move_starts(from: usize, by: u32, store: &mut [u32])
    requires { (from ≤ slot_count) × (length store.old ≡ store_numbers) }
    ensures { StartsMoved from by store.old store.new }
{
    for i in STARTS + from..SLOT_NUMBERS {
        store[i] = store[i].wrapping_add(by);
    }
}

// Puts a flow in a free slot and its path at position `start` of the pool, where the paths of the slots before end, and those
// of all slots at `end`.
fn put(
    slot: usize,
    start: usize,
    end: usize,
    flow: Flow,
    entries: &[u32],
    bits: &mut [u64],
    store: &mut [u32],
)
    requires placeable { Placeable slot flow entries.now bits.old store.old × (is_set bits.old slot ≡ false) }
    requires start_value { (start ≡ counts_from slot 0 bits.old store.old) × (end ≡ counts_from slot_count 0 bits.old store.old) }
    ensures { Placed slot flow entries.now bits.old store.old bits.new store.new }
{
    insert_path(start, end, entries, &mut store[SLOT_NUMBERS..]);
    move_starts(slot + 1, entries.len() as u32, store);
    store_flow(slot, start as u32, flow, store);
    bit_words::set_bit(slot, bits);
}

// Puts a flow with its path in the lowest free slot.
pub fn insert(slot: usize, flow: Flow, entries: &[u32], bits: &mut [u64], store: &mut [u32])
    requires { Placeable slot flow entries.now bits.old store.old × LeastClear bits.old slot }
    ensures { Placed slot flow entries.now bits.old store.old bits.new store.new }
{
    let start = end_before(slot, store);
    let end = held_entries(bits, store);
    put(slot, start, end, flow, entries, bits, store);
}

// Puts a flow with its path in a slot from which on all are free: its path goes behind all others.
pub fn append(slot: usize, flow: Flow, entries: &[u32], bits: &mut [u64], store: &mut [u32])
    requires { Placeable slot flow entries.now bits.old store.old × FreeFrom bits.old slot }
    ensures { Placed slot flow entries.now bits.old store.old bits.new store.new }
{
    let end = held_entries(bits, store);
    put(slot, end, end, flow, entries, bits, store);
}

// Gives the flow in a slot another rate and burst. They fit the array as those that `insert` stores do.
pub fn change(slot: usize, given: Change, store: &mut [u32])
    requires { (slot < slot_count) × (length store.old ≡ store_numbers) × ChangeNarrow given }
    ensures by_index { (bits : List ℕ) → slots_of bits store.new ≡ slice_set (slots_of bits store.old) slot (changed_slot (change_of given) (slice_index_or (slots_of bits store.old) slot none)) }
    ensures by_index_2 { (bits : List ℕ) → PackedStore bits store.old → PackedStore bits store.new }
{
    store[RATES + slot] = given.rate.0 as u32;
    store[BURSTS + slot] = given.burst.0 as u32;
}

// Takes the `hops` entries at position `start` out of a pool that is held up to `end`.
fn remove_path(start: usize, end: usize, hops: usize, pool: &mut [u32])
    requires { (start + hops ≤ end) × (end ≤ length pool.old) }
    ensures { pool.new ≡ path_removed start end hops pool.old }
{
    pool.copy_within(start + hops..end, start);
}

// Empties a held slot.
pub fn remove(slot: usize, bits: &mut [u64], store: &mut [u32])
    requires { PackedStore bits.old store.old × (slot < slot_count) × (is_set bits.old slot ≡ true) }
    ensures store_after { slots_of bits.new store.new ≡ slice_set (slots_of bits.old store.old) slot none }
    ensures packed_store { PackedStore bits.new store.new }
{
    let start = start_at(slot, store);
    let hops = hops_at(slot, store);
    let end = held_entries(bits, store);
    remove_path(start, end, hops, &mut store[SLOT_NUMBERS..]);
    move_starts(slot + 1, (hops as u32).wrapping_neg(), store);
    bit_words::clear_bit(slot, bits);
}
