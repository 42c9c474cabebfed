// The registry (document 01, "The book"): opened on a table text, and direct calls on it, which take any registry and
// answer 42 first. On arrays that are known to be consistent `admission` carries out an order without that check.
//
// The arrays are those of `queue_table` (table), `flow_store` (bits, store) and `figures` (figures).
#![tactic(auto)]

ghost use Rattle.std.specs.Prelude.{◌≡◌, true, false, length};
ghost use Rattle.model.specs.Columns.{lines};
ghost use Rattle.model.specs.Orders.{registering, releasing, changing, kind_number};
ghost use Rattle.model.specs.Reference.{only_line};
ghost use Rattle.orders.specs.View.{kind_of};
ghost use Rattle.figures.specs.View.{figure_numbers};
ghost use Rattle.recount.specs.View.{Countable, Recounted};
ghost use Rattle.admission.specs.View.{ConsistentArrays};
ghost use Rattle.registry.specs.View.{OpensOn, OtherFigures, Sized, Guarded, call_of, Performs};

use admission::Answer;
use causes::Cause;
use figures::FIGURE_NUMBERS;
use flow_store::{SLOT_WORDS, STORE_NUMBERS};
use orders::Kind;
use queue_table::{Refusal, TABLE_NUMBERS};

// The registry: the queue table, the slots' bits, their numbers with the pool of hop entries, and the figures of all queues.
#[derive(Clone, Copy)]
pub struct Registry {
    pub table: [u32; TABLE_NUMBERS],
    pub bits: [u64; SLOT_WORDS],
    pub store: [u32; STORE_NUMBERS],
    pub figures: [u64; FIGURE_NUMBERS],
}

// What a table text gives: its verdict, and an empty registry.
#[derive(Clone, Copy)]
pub struct Opened {
    pub verdict: Result<(), Refusal>,
    pub registry: Registry,
}

// What a call gives back.
#[derive(Clone, Copy)]
pub struct Called {
    pub answer: Answer,
    pub registry: Registry,
}

// Whether the figures are those of the held flows.
fn figures_right(table: &[u32], bits: &[u64], store: &[u32], figures: &[u64]) -> bool
    requires { Countable table.now bits.now store.now × (length figures.now ≡ figure_numbers) }
    ensures recounted { result ≡ true → Recounted table.now bits.now store.now figures.now }
    ensures other_figures { result ≡ false → OtherFigures table.now bits.now store.now figures.now }
{
    let mut fresh = [0u64; FIGURE_NUMBERS];
    recount::recount(table, bits, store, &mut fresh);
    figures::same(&fresh, figures)
}

// Whether arrays of any content are a consistent registry (42).
pub fn is_consistent(table: &[u32], bits: &[u64], store: &[u32], figures: &[u64]) -> bool
    requires { Sized table.now bits.now store.now figures.now }
    ensures consistent_arrays { result ≡ true → ConsistentArrays table.now bits.now store.now figures.now }
    ensures fact { result ≡ false → ConsistentArrays table.now bits.now store.now figures.now → ⊥ }
{
    if !flow_store::is_packed(bits, store) {
        return false;
    }
    if !queue_table::consistent(table) {
        return false;
    }
    if !flow_check::held_flows(table, bits, store) {
        return false;
    }
    if !figures_right(table, bits, store, figures) {
        return false;
    }
    if !figures::limited(figures) {
        return false;
    }
    figures::links_meet(table, figures)
}

// The order of a direct call's bytes, on arrays of any content: 42 first.
fn call_arrays(
    kind: Kind,
    bytes: &[u8],
    table: &[u32],
    bits: &mut [u64],
    store: &mut [u32],
    figures: &mut [u64],
) -> Answer
    requires { Sized table.now bits.old store.old figures.old }
    ensures { Guarded (only_line (kind_number (kind_of kind)) (lines bytes.now)) table.now bits.old store.old figures.old bits.new store.new figures.new result }
{
    if !is_consistent(table, bits, store, figures) {
        return Err(Cause::Inconsistent);
    }
    let line = orders::read_call(kind, bytes);
    admission::apply(line.order, &line.hops, table, bits, store, figures)
}

// A direct call of any kind on any registry whatever.
fn call(mut registry: Registry, kind: Kind, bytes: &[u8]) -> Called
    ensures { Performs registry (call_of (kind_of kind) bytes.now) result }
{
    let answer = call_arrays(
        kind,
        bytes,
        &registry.table,
        &mut registry.bits,
        &mut registry.store,
        &mut registry.figures,
    );
    Called { answer, registry }
}

// Registers the flow of one order line with its LF.
pub fn register(registry: Registry, bytes: &[u8]) -> Called
    ensures { Performs registry (call_of registering bytes.now) result }
{
    call(registry, Kind::Register, bytes)
}

// Releases the flow that one order line with its LF names.
pub fn release(registry: Registry, bytes: &[u8]) -> Called
    ensures { Performs registry (call_of releasing bytes.now) result }
{
    call(registry, Kind::Release, bytes)
}

// Changes rate and burst of the flow that one order line with its LF names.
pub fn change(registry: Registry, bytes: &[u8]) -> Called
    ensures { Performs registry (call_of changing bytes.now) result }
{
    call(registry, Kind::Change, bytes)
}

// One call of any kind.
pub fn step(registry: Registry, kind: Kind, bytes: &[u8]) -> Called
    ensures { Performs registry (call_of (kind_of kind) bytes.now) result }
{
    match kind {
        Kind::Register => register(registry, bytes),
        Kind::Release => release(registry, bytes),
        Kind::Change => change(registry, bytes),
    }
}

// An empty registry on a table text; without queues where the text is refused.
pub fn open(text: &[u8]) -> Opened
    ensures { OpensOn text.now result }
{
    let read = queue_table::read_table(text);
    let table = read.numbers;
    Opened {
        verdict: read.verdict,
        registry: Registry {
            table,
            bits: [0; SLOT_WORDS],
            store: [0; STORE_NUMBERS],
            figures: [0; FIGURE_NUMBERS],
        },
    }
}
