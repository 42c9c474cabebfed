// Runs the batch of table.txt and orders.txt in the current folder and prints its answers, or for a refused batch one line:
// code in 3 columns, line in 6. A file that can't be opened counts as empty. What stands past the bytes read here makes no
// difference: a text that fills its area is one byte above its limit, and refused for its size. Standard error says in words
// what went wrong with a file, the batch or the output.
#![tactic(auto)]

use batch::{ANSWER_BYTES, BatchResult, ORDER_BYTES, ORDER_LINES, Refusal};
use queue_table::{Fault, TABLE_BYTES};
use std::io;

const TABLE: usize = TABLE_BYTES + 1;

const ORDERS: usize = ORDER_BYTES + 1;

// Room for as many answers as a batch can have.
const ANSWERS: usize = ANSWER_BYTES * ORDER_LINES;

fn words(refusal: Refusal) -> &'static str {
    match refusal {
        Refusal::Table(of_table) => match of_table.fault {
            Fault::Malformed => "its columns are wrong, or the last line has no LF",
            Fault::OutOfRange => "a number is out of range",
            Fault::OutOfTurn => "link or level is out of turn",
            Fault::Disagrees => {
                "from equals to, or from, to, speed, fixed delay or best-effort frame differ within the link"
            }
            Fault::TooLong => "the table is too long",
        },
        // The answer area is always long enough.
        Refusal::OrdersTooLong | Refusal::AreaTooShort => "the orders are too long, or too many",
    }
}

// What standard error doesn't take is lost.
fn tell_refusal(err: &impl Print, refusal: Refusal, line: u32) {
    let words = words(refusal);
    let _ = match line {
        0 => println!(err; "admit: refused: {words}"),
        _ => println!(err; "admit: refused: table.txt, line {line}: {words}"),
    };
}

fn tell_unwritten(err: &impl Print, printed: io::Result<()>) {
    if printed.is_err() {
        let _ = println!(err; "admit: the output can't be written");
    }
}

fn run(rt: &impl Print, err: &impl Print, table: &[u8], orders: &[u8]) {
    let mut answers = [0u8; ANSWERS];
    match batch::answer(table, orders, &mut answers) {
        Ok(count) => {
            let printed = rt.write_all(&answers[..ANSWER_BYTES * count as usize]);
            tell_unwritten(err, printed);
        }
        Err(refusal) => {
            let BatchResult { code, line } = BatchResult::from(refusal);
            tell_unwritten(err, println!(rt; "{code:3}{line:6}"));
            tell_refusal(err, refusal, line);
        }
    }
}

fn main(rt: HostRuntime) {
    let err = rt.stderr();
    let mut table_area = [0u8; TABLE];
    let mut orders_area = [0u8; ORDERS];
    let table = text_files::read_or_tell(&rt, &err, b"admit", b"table.txt", &mut table_area);
    let orders = text_files::read_or_tell(&rt, &err, b"admit", b"orders.txt", &mut orders_area);
    run(&rt, &err, &table_area[..table], &orders_area[..orders]);
}
