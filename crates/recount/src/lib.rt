// Works out anew the figures of the held flows (document 01, "The book"), so that a registry whose figures don't match
// its flows is found out (42); and the largest frames alone, which a release can't take out of the figures.
//
// The arrays are those of `queue_table` (table), `flow_store` (bits, store) and `figures` (figures).
#![tactic(auto)]

ghost use Rattle.std.specs.Prelude.{◌≡◌, true, ℕ, ◌+◌, ◌<◌, length};
ghost use Rattle.model.specs.Words.{All};
ghost use Rattle.model.specs.Sizes.{queues_most, slot_count};
ghost use Rattle.bit_words.specs.View.{is_set};
ghost use Rattle.flow_store.specs.View.{Readable, entries_in};
ghost use Rattle.figures.specs.View.{figure_numbers};
ghost use Rattle.recount.specs.View.{Countable, Counted, Recounted, SlotRaised, FramesRaised};

use flow_store::{SLOTS, flow_at, is_held, path_of};

// Counts the flow of a slot in, where it holds one.
fn count_slot(slot: usize, table: &[u32], bits: &[u64], store: &[u32], figures: &mut [u64])
    requires countable { Countable table.now bits.now store.now × (slot < slot_count) }
    requires counted { Counted table.now bits.now store.now figures.old (slot + 1) }
    ensures { Counted table.now bits.now store.now figures.new slot }
{
    if is_held(slot, bits) {
        figures::add_path(
            flow_at(slot, store).share,
            table,
            path_of(slot, store),
            figures,
        );
    }
}

// Works out anew the figures of the held flows, whatever `figures` holds.
pub fn recount(table: &[u32], bits: &[u64], store: &[u32], figures: &mut [u64])
    requires { Countable table.now bits.now store.now × (length figures.old ≡ figure_numbers) }
    ensures { Recounted table.now bits.now store.now figures.new }
{
    figures::clear(figures);
    for slot in (0..SLOTS).rev() {
        count_slot(slot, table, bits, store, figures);
    }
}

// Raises the largest frames along the path of a slot to its flow's, where it holds one.
fn raise_slot(slot: usize, bits: &[u64], store: &[u32], figures: &mut [u64])
    requires readable { Readable bits.now store.now × (slot < slot_count) × (length figures.old ≡ figure_numbers) }
    requires all { is_set bits.now slot ≡ true → All (λ e. e < queues_most) (entries_in store.now slot) }
    ensures { SlotRaised bits.now store.now slot figures.old figures.new }
{
    if is_held(slot, bits) {
        figures::raise_path(
            flow_at(slot, store).share.frame,
            path_of(slot, store),
            figures,
        );
    }
}

// Raises each queue's largest frame to that of the held flows.
pub fn raise_frames(bits: &[u64], store: &[u32], figures: &mut [u64])
    requires readable { Readable bits.now store.now × (length figures.old ≡ figure_numbers) }
    requires by_index { (i : ℕ) → i < slot_count → is_set bits.now i ≡ true → All (λ e. e < queues_most) (entries_in store.now i) }
    ensures { FramesRaised bits.now store.now figures.old figures.new }
{
    for slot in 0..SLOTS {
        raise_slot(slot, bits, store, figures);
    }
}
