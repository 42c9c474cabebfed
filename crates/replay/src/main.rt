// Replays a recorded list of calls, by value or, with an argument (`replay in-place`), on a registry that is held and lent.
// Reads table.txt and calls.txt, one that can't be opened as empty, and prints, the same in either form,
// - where the table is refused, its code in 3 columns and line in 6;
// - the answer to each call: code in 3 columns, place in 4, link in 4 and level in 2;
// - where the list doesn't close with a whole call, `end` and the offset of what follows the last one in 10 columns;
// - each queue of the table: link in 4, level in 2, rate sum in 12, burst sum in 15 and largest frame in 5;
// - each held slot: place in 4 columns, then the columns of its order line from the third on.
#![tactic(auto)]

ghost use Rattle.std.specs.Prelude.{◌+◌, ◌*◌, ◌≤◌, ◌<◌, ◌≡◌, length};
ghost use Rattle.model.specs.Sizes.{queues_most, hops_most, head_columns, hop_columns, slot_count};
ghost use Rattle.queue_table.specs.View.{WellFormed};
ghost use Rattle.flow_store.specs.View.{PackedStore};
ghost use Rattle.figures.specs.View.{figure_numbers};
ghost use Rattle.registry.specs.View.{Consistent};

use flow_store::SLOTS;
use orders::{Flow, HEAD_COLUMNS, HOP_COLUMNS, MOST_HOPS};
use queue_table::{QUEUES, Refusal};
use recording::{ANSWER, ANSWERS, Form, TABLE};
use registry::Registry;
use std::env::{Env, FillError};
use text_files::LIST;

// How many columns more a slot's line has than an order line.
const PLACE: usize = 2;

// The bytes of a slot's line with the most hops, and LF.
const SLOT_LINE: usize = PLACE + HEAD_COLUMNS + HOP_COLUMNS * MOST_HOPS + 1;

// What standard output doesn't take is lost.
fn show(rt: &impl Print, bytes: &[u8]) {
    let _ = rt.write_all(bytes);
}

fn show_verdict(rt: &impl Print, verdict: Result<(), Refusal>) {
    if let Err(refusal) = verdict {
        show(rt, &recording::refusal_line(refusal.fault, refusal.line));
    }
}

// The figures of queue e.
fn show_queue(rt: &impl Print, e: usize, figures: &[u64])
    requires { (e < queues_most) × (length figures.now ≡ figure_numbers) }
{
    let hop = queue_table::hop_at(e as u32);
    let own = figures::figure(e, figures);
    let _ = println!(rt;
        "{:4}{:2}{:12}{:15}{:5}",
        hop.link, hop.level, own.rate.0, own.burst.0, own.frame.0
    );
}

// The queues of the table, link by link and level by level.
fn show_queues(rt: &impl Print, table: &[u32], figures: &[u64])
    requires { WellFormed table.now × (length figures.now ≡ figure_numbers) }
{
    for e in 0..QUEUES {
        if queue_table::is_queue(e, table) {
            show_queue(rt, e, figures);
        }
    }
}

// A held slot's line, at the start of `out`: that of its flow, with the place in 4 columns instead of the kind in 2.
fn write_flow<'a>(slot: usize, flow: Flow, entries: &[u32], out: &'a mut [u8]) -> &'a [u8]
    requires { (slot < slot_count) × (flow.hops ≡ length entries.now) × (2 + head_columns + 1 + hop_columns * length entries.now ≤ length out.old) }
    ensures { length result.now ≤ length out.old }
{
    let bytes = order_text::write_line(flow, entries, &mut out[PLACE..]);
    columns::write_at(out, 1, 4, (slot + 1) as u64);
    &out[..PLACE + bytes]
}

fn show_flow(rt: &impl Print, slot: usize, flow: Flow, entries: &[u32])
    requires { (slot < slot_count) × (flow.hops ≡ length entries.now) × (length entries.now ≤ hops_most) }
{
    let mut out = [b' '; SLOT_LINE];
    show(rt, write_flow(slot, flow, entries, &mut out));
}

// A slot's line where it is held: a path has at most MOST_HOPS hops.
fn show_slot(rt: &impl Print, slot: usize, bits: &[u64], store: &[u32])
    requires { PackedStore bits.now store.now × (slot < slot_count) }
{
    if !flow_store::is_held(slot, bits) {
        return;
    }
    let path = flow_store::path_of(slot, store);
    if MOST_HOPS < path.len() {
        return;
    }
    show_flow(rt, slot, flow_store::flow_at(slot, store), path);
}

fn show_slots(rt: &impl Print, bits: &[u64], store: &[u32])
    requires { PackedStore bits.now store.now }
{
    for slot in 0..SLOTS {
        show_slot(rt, slot, bits, store);
    }
}

fn show_registry(rt: &impl Print, registry: Registry)
    requires { Consistent registry }
{
    show_queues(rt, &registry.table, &registry.figures);
    show_slots(rt, &registry.bits, &registry.store);
}

// Any argument asks for the calls in place; the first counted is the program's name.
fn form_asked(rt: &impl Env) -> Form {
    match rt.arg(1, &mut []) {
        Err(FillError::NotPresent) => Form::ByValue,
        _ => Form::InPlace,
    }
}

fn replay(rt: &impl Print, form: Form, table: &[u8], calls: &[u8]) {
    let mut answers = [0; ANSWERS];
    let replayed = recording::replay(form, table, calls, &mut answers);
    let end = ANSWER * replayed.count;
    show_verdict(rt, replayed.verdict);
    show(rt, &answers[..end]);
    if replayed.end < calls.len() {
        show(rt, &recording::end_line(replayed.end));
    }
    show_registry(rt, replayed.registry);
}

fn main(rt: HostRuntime) {
    let form = form_asked(&rt);
    let mut table_area = [0; TABLE];
    let mut calls_area = [0; LIST];
    let table = text_files::read(&rt, b"table.txt", &mut table_area);
    let calls = text_files::read(&rt, b"calls.txt", &mut calls_area);
    replay(&rt, form, &table_area[..table], &calls_area[..calls]);
}
