// What an order does to a consistent registry, in place on its arrays: a registration, a release, a change, or 10 and 11. Its cost doesn't
// depend on the calls before.
//
// The arrays are those of `queue_table` (table), `flow_store` (bits, store) and `figures` (figures).
#![tactic(auto)]

ghost use Rattle.std.specs.Prelude.{◌≡◌, true, ◌<◌, set};
ghost use Rattle.std.proofs.Math.Option.{none};
ghost use Rattle.model.specs.Sizes.{slot_count};
ghost use Rattle.model.specs.Orders.{register, release, change, change_in_range};
ghost use Rattle.model.specs.Reference.{index_of};
ghost use Rattle.orders.specs.View.{change_of, line_flow, order_with};
ghost use Rattle.bit_words.specs.View.{is_set};
ghost use Rattle.flow_store.specs.View.{slots_of};
ghost use Rattle.admission.specs.View.{LineRead, OrderRead, ConsistentArrays, Stepped};

use causes::Cause;
use orders::{Change, Flow, Order, Unread};
use queue_table::Hop;
use units::Aggregate;

// What an order is answered: the slot, counted from 1, or why it is refused.
pub type Answer = Result<u32, Cause>;

// Registers the flow of an order line.
fn register_flow(
    flow: Flow,
    hops: &[Hop],
    table: &[u32],
    bits: &mut [u64],
    store: &mut [u32],
    figures: &mut [u64],
) -> Answer
    requires line_read { LineRead flow hops.now }
    requires consistent_arrays { ConsistentArrays table.now bits.old store.old figures.old }
    ensures { Stepped (register (line_flow flow hops.now)) table.now bits.old store.old bits.new store.new figures.new result }
{
    let path = flow_check::judge_flow(flow, hops, table, bits, store)?;
    let entries = path.entries();
    let slot = flow_check::judge_room(flow.hops, bits, store)?;
    figures::check_links(flow.share, table, figures, entries)?;
    flow_store::insert(slot, flow, entries, bits, store);
    figures::add_path(flow.share, table, entries, figures);
    Ok(slot as u32 + 1)
}

// Empties a held slot and takes its flow out at each queue.
fn take_out(slot: usize, table: &[u32], bits: &mut [u64], store: &mut [u32], figures: &mut [u64])
    requires consistent_arrays { ConsistentArrays table.now bits.old store.old figures.old }
    requires slot_lt_slot_count { (slot < slot_count) × (is_set bits.old slot ≡ true) }
    ensures store_after { slots_of bits.new store.new ≡ set (slots_of bits.old store.old) slot none }
    ensures consistent_arrays_2 { ConsistentArrays table.now bits.new store.new figures.new }
{
    let flow = flow_store::flow_at(slot, store);
    let entries = flow_store::path_of(slot, store);
    let lower = figures::remove_path(flow.share, table, entries, figures);
    flow_store::remove(slot, bits, store);
    if lower {
        recount::raise_frames(bits, store, figures);
    }
}

// Releases the flow with this number.
fn release_flow(
    number: u32,
    table: &[u32],
    bits: &mut [u64],
    store: &mut [u32],
    figures: &mut [u64],
) -> Answer
    requires { ConsistentArrays table.now bits.old store.old figures.old }
    ensures { Stepped (release number) table.now bits.old store.old bits.new store.new figures.new result }
{
    let held = flow_store::find(number, bits, store).ok_or(Cause::NumberNotHeld)?;
    take_out(held, table, bits, store, figures);
    Ok(held as u32 + 1)
}

// Changes rate and burst of the flow in a held slot. Its figures are written only after the last link has passed.
fn change_held(
    held: usize,
    given: Change,
    table: &[u32],
    bits: &[u64],
    store: &mut [u32],
    figures: &mut [u64],
) -> Answer
    requires consistent_arrays { ConsistentArrays table.now bits.now store.old figures.old }
    requires held_value { (held ≡ index_of given.number (slots_of bits.now store.old)) × (held < slot_count) }
    requires given_value { change_in_range (change_of given) ≡ true }
    ensures { Stepped (change (change_of given)) table.now bits.now store.old bits.now store.new figures.new result }
{
    let was = flow_store::flow_at(held, store).share;
    if given.burst.0 < was.frame.0 {
        return Err(Cause::FrameAboveBurst);
    }
    let share = Aggregate {
        rate: given.rate,
        burst: given.burst,
        frame: was.frame,
    };
    let entries = flow_store::path_of(held, store);
    figures::check_change(was, share, table, figures, entries)?;
    figures::change_path(was, share, table, entries, figures);
    flow_store::change(held, given, store);
    Ok(held as u32 + 1)
}

// Changes the flow with the number of the change.
fn change_flow(
    given: Change,
    table: &[u32],
    bits: &[u64],
    store: &mut [u32],
    figures: &mut [u64],
) -> Answer
    requires consistent_arrays { ConsistentArrays table.now bits.now store.old figures.old }
    requires given_value { change_in_range (change_of given) ≡ true }
    ensures { Stepped (change (change_of given)) table.now bits.now store.old bits.now store.new figures.new result }
{
    let held = flow_store::find(given.number, bits, store).ok_or(Cause::NumberNotHeld)?;
    change_held(held, given, table, bits, store, figures)
}

// Carries out the order of a line.
pub fn apply(
    order: Result<Order, Unread>,
    hops: &[Hop],
    table: &[u32],
    bits: &mut [u64],
    store: &mut [u32],
    figures: &mut [u64],
) -> Answer
    requires order_read { OrderRead order hops.now }
    requires consistent_arrays { ConsistentArrays table.now bits.old store.old figures.old }
    ensures { Stepped (order_with order hops.now) table.now bits.old store.old bits.new store.new figures.new result }
{
    match order {
        Ok(Order::Register(flow)) => register_flow(flow, hops, table, bits, store, figures),
        Ok(Order::Release(number)) => release_flow(number, table, bits, store, figures),
        Ok(Order::Change(given)) => change_flow(given, table, bits, store, figures),
        Err(Unread::Malformed) => Err(Cause::Malformed),
        Err(Unread::OutOfRange) => Err(Cause::OutOfRange),
    }
}
