// A batch over byte areas (document 01, "A batch is table text, order text and an answer area"): what a host links.
//
// The registry stands in local arrays, those of `queue_table`, `flow_store` and `figures`. It was made here, so that it is
// consistent and 42 isn't looked for.
#![tactic(auto)]

ghost use Rattle.std.specs.Prelude.{◌≡◌, List, ℕ, ◌≤◌, ◌<◌, length, count_by, IfOk};
ghost use Rattle.model.specs.Sizes.{order_lines};
ghost use Rattle.model.specs.Columns.{lines};
ghost use Rattle.model.specs.Batch.{batch};
ghost use Rattle.admission.specs.View.{ConsistentArrays};
ghost use Rattle.columns.specs.View.{line_of};
ghost use Rattle.batch.specs.View.{no_bits, no_flows, no_figures, LineDone, Answerable, Answered, OrdersDone, result_of, refused_with, batch_of, result_in, is_lf, Batched};
ghost use Rattle.batch.specs.declared.Refusal.TheVariants.{Table};

use admission::Answer;
use causes::Cause;
use columns::LF;
use figures::FIGURE_NUMBERS;
use flow_store::{SLOT_WORDS, STORE_NUMBERS};
use orders::OrderLine;
use queue_table::TABLE_NUMBERS;

// How many bytes and lines an order text has at the most.
pub const ORDER_BYTES: usize = 60_000;

pub const ORDER_LINES: usize = 2000;

// The bytes of an answer line with its LF.
pub const ANSWER_BYTES: usize = 20;

// What a batch returns: 0 and the count of order lines, or a code and a line.
#[repr(C)]
#[derive(Clone, Copy)]
pub struct BatchResult {
    pub code: u32,
    pub line: u32,
}

// What a batch as a whole is refused for.
#[derive(Clone, Copy, Debug, PartialEq, Eq)]
pub enum Refusal {
    // 1 to 5, with the table's line.
    Table(queue_table::Refusal),
    // 41: too many order bytes or lines.
    OrdersTooLong,
    // 40: no room for the answers.
    AreaTooShort,
}

impl From<queue_table::Refusal> for Refusal {
    ghost from_gives = { λ of_table refusal. refusal ≡ Table of_table };

    fn from(of_table: queue_table::Refusal) -> Refusal {
        Refusal::Table(of_table)
    }
}

// Document 01's code and line of a refusal.
#[tactic(auto, unfolding(model::specs::Batch::refused_batch))]
impl From<Refusal> for BatchResult {
    ghost from_gives = { λ refusal r. (area : List ℕ) → result_of r area ≡ refused_with refusal area };

    fn from(refusal: Refusal) -> BatchResult {
        match refusal {
            Refusal::Table(of_table) => BatchResult {
                code: u32::from(of_table.fault),
                line: of_table.line,
            },
            Refusal::OrdersTooLong => BatchResult { code: 41, line: 0 },
            Refusal::AreaTooShort => BatchResult { code: 40, line: 0 },
        }
    }
}

// So many bytes are counted at once: their LFs fit a byte.
const BLOCK: usize = 128;

// How many LFs stand in a block.
fn count_block(block: &[u8]) -> u8
    requires { length block.now ≤ 128 }
    ensures upper_bound { result ≤ length block.now }
    ensures value { result ≡ count_by is_lf block.now }
{
    let mut count: u8 = 0;
    for byte in block {
        if *byte == LF {
            count += 1;
        }
    }
    count
}

// How many lines a text has: each LF before the last byte ends one, and the last byte belongs to one more.
fn count_lines(text: &[u8]) -> usize
    ensures { result ≡ length (lines text.now) }
{
    let Some((_, before)) = text.split_last() else {
        return 0;
    };
    let mut count = 1;
    for block in before.chunks(BLOCK) {
        count += usize::from(count_block(block));
    }
    count
}

// Carries out the order of a line.
fn carry_out(
    line: Option<&[u8]>,
    table: &[u32],
    bits: &mut [u64],
    store: &mut [u32],
    figures: &mut [u64],
) -> Answer
    requires { ConsistentArrays table.now bits.old store.old figures.old }
    ensures { LineDone (line_of line.entry) table.now bits.old store.old bits.new store.new figures.new result }
{
    let bytes = line.ok_or(Cause::Malformed)?;
    // Taken apart at once: a line kept whole would go through memory.
    let OrderLine { order, hops } = orders::read_order(bytes);
    admission::apply(order, &hops, table, bits, store, figures)
}

// Answers each order line in 20 bytes, order after order.
fn answer_all(
    orders: &[u8],
    table: &[u32],
    bits: &mut [u64],
    store: &mut [u32],
    figures: &mut [u64],
    answers: &mut [u8],
)
    requires consistent_arrays { ConsistentArrays table.now bits.old store.old figures.old }
    requires answerable { Answerable orders.now answers.old }
    ensures { Answered orders.now table.now bits.old store.old answers.old answers.new }
{
    let mut number: u32 = 0;
    let mut offset = 0;
    for line in columns::lines(orders) {
        let answer = carry_out(line, table, bits, store, figures);
        number += 1;
        answer_line::write_line(number, answer, &mut answers[offset..]);
        offset += ANSWER_BYTES;
    }
}

// The answers to the orders on an empty registry.
fn run(orders: &[u8], table: &[u32], answers: &mut [u8])
    requires consistent_arrays { ConsistentArrays table.now no_bits no_flows no_figures }
    requires answerable { Answerable orders.now answers.old }
    ensures { Answered orders.now table.now no_bits no_flows answers.old answers.new }
{
    let mut bits = [0u64; SLOT_WORDS];
    let mut store = [0u32; STORE_NUMBERS];
    let mut figures = [0u64; FIGURE_NUMBERS];
    answer_all(orders, table, &mut bits, &mut store, &mut figures, answers);
}

// 41, then 40, then the orders, on a table that was accepted: how many were answered.
fn judge_orders(orders: &[u8], table: &[u32], answers: &mut [u8]) -> Result<u32, Refusal>
    requires { ConsistentArrays table.now no_bits no_flows no_figures }
    ensures done { OrdersDone table.now orders.now answers.old answers.new result }
    ensures few { IfOk result (λ count. count ≤ order_lines) }
{
    if ORDER_BYTES < orders.len() {
        return Err(Refusal::OrdersTooLong);
    }
    let count = count_lines(orders);
    if ORDER_LINES < count {
        return Err(Refusal::OrdersTooLong);
    }
    if answers.len() < ANSWER_BYTES * count {
        return Err(Refusal::AreaTooShort);
    }
    run(orders, table, answers);
    Ok(count as u32)
}

// A batch over byte areas: how many order lines were answered, in 20 bytes each, the rest of the area left as it was. Refused, it
// writes nothing.
pub fn answer(table: &[u8], orders: &[u8], answers: &mut [u8]) -> Result<u32, Refusal>
    ensures batched { Batched table.now orders.now answers.old answers.new (result_in result) }
    ensures done { batch_of result answers.new ≡ batch table.now orders.now answers.old }
    ensures few { IfOk result (λ count. count ≤ order_lines) }
{
    let mut numbers = [0u32; TABLE_NUMBERS];
    queue_table::read_into(table, &mut numbers)?;
    judge_orders(orders, &numbers, answers)
}

// The same for a host in C.
#[unsafe(no_mangle)]
pub extern "C" fn devvonur_batch(table: &[u8], orders: &[u8], answers: &mut [u8]) -> BatchResult
    ensures { Batched table.now orders.now answers.old answers.new result }
{
    match answer(table, orders, answers) {
        Ok(line) => BatchResult { code: 0, line },
        Err(refusal) => BatchResult::from(refusal),
    }
}
