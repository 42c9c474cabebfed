// Opens a registry on each table text, the files t00, t01, .. beside it until one is missing, hands it the lines of o00,
// o01, .. one by one and prints what each is answered: code in 3 columns, slot in 4, link in 4 and level in 2.
//
// What follows an r at a line's start is handed to `release`, what follows a c to `change`, every other line to `register`. A
// line that starts with x isn't handed on: it sets one number of the registry. Array 2-3 (0 the table, 1 the bits: one for each
// slot, clear for 0, 2 the store, 3 figures), index 4-8, the number 9-17. A w lends an area of so many dots, 2-5, to the writer
// of order lines: code in 3 columns, bytes in 6, then the whole area and LF.
#![tactic(auto)]

ghost use Rattle.std.specs.Prelude.{◌+◌, ◌≤◌, ◌<◌};

use admission::Answer;
use causes::Numbers;
use columns::LF;
use orders::Kind;
use queue_table::TABLE_BYTES;
use registry::Registry;
use std::rt::Files;

// One byte above the longest table text.
const TABLE: usize = TABLE_BYTES + 1;

// The longest area that is lent to the writer.
const AREA: usize = 300;

fn show(rt: &impl Print, answer: Answer) {
    let mut out = *b"             \n";
    answer_line::write_answer(answer, &mut out);
    let _ = rt.write_all(&out);
}

// The number in these columns of an x or w line, 0 where there is none.
fn number(line: &[u8], first: usize, last: usize) -> u32
    requires { (1 ≤ first) × ((first ≤ last) × (last < first + 9)) }
{
    columns::read_at(line, first, last).unwrap_or(0)
}

fn set<T: Copy>(numbers: &mut [T], index: usize, n: T) {
    if index < numbers.len() {
        numbers[index] = n;
    }
}

fn set_bit(bits: &mut [u64], index: usize, n: u32) {
    if bits.len() <= index / bit_words::WORD {
        return;
    }
    match n {
        0 => bit_words::clear_bit(index, bits),
        _ => bit_words::set_bit(index, bits),
    }
}

fn change(mut registry: Registry, array: u32, index: usize, n: u32) -> Registry {
    match array {
        0 => set(&mut registry.table, index, n),
        1 => set_bit(&mut registry.bits, index, n),
        2 => set(&mut registry.store, index, n),
        _ => set(&mut registry.figures, index, u64::from(n)),
    }
    registry
}

fn call(rt: &impl Print, registry: Registry, kind: Kind, line: &[u8]) -> Registry {
    let called = registry::step(registry, kind, line);
    show(rt, called.answer);
    called.registry
}

// What the writer says of an area, and what stands in the area then.
fn show_text(rt: &impl Print, registry: Registry, area: &mut [u8]) {
    let (code, bytes) = match order_text::write(registry, area) {
        Ok(bytes) => (0, bytes),
        Err(cause) => (Numbers::from(cause).code, 0),
    };
    let _ = println!(rt; "{code:3}{bytes:6}");
    let _ = rt.write_all(area);
    let _ = rt.write_all(b"\n");
}

// An area of at most AREA bytes.
fn hand_over(rt: &impl Print, registry: Registry, size: usize) {
    let mut area = [b'.'; AREA];
    if size <= AREA {
        show_text(rt, registry, &mut area[AREA - size..]);
    }
}

fn step(rt: &impl Print, registry: Registry, line: &[u8]) -> Registry {
    match line {
        [b'r', rest @ ..] => call(rt, registry, Kind::Release, rest),
        [b'c', rest @ ..] => call(rt, registry, Kind::Change, rest),
        [b'w', ..] => {
            hand_over(rt, registry, number(line, 2, 5) as usize);
            registry
        }
        [b'x', ..] => {
            let index = number(line, 4, 8) as usize;
            change(registry, number(line, 2, 3), index, number(line, 9, 17))
        }
        _ => call(rt, registry, Kind::Register, line),
    }
}

// Each line is handed on with its LF.
fn walk(rt: &impl Print, text: &[u8], mut registry: Registry) {
    for line in text.split_inclusive(|byte| *byte == LF) {
        registry = step(rt, registry, line);
    }
}

fn judge(rt: &impl Print, table: &[u8], orders: &[u8]) {
    walk(rt, orders, registry::open(table).registry);
}

// None where there are no such files.
fn judge_files(rt: &(impl Files + Print), table_name: &[u8], orders_name: &[u8]) -> Option<()> {
    let mut table_area = [0; TABLE];
    let table = text_files::try_read(rt, table_name, &mut table_area)?;
    let mut orders_area = [0; 16384];
    let orders = text_files::try_read(rt, orders_name, &mut orders_area)?;
    judge(rt, &table_area[..table], &orders_area[..orders]);
    Some(())
}

fn main(rt: HostRuntime) {
    for k in 0..100u8 {
        let table_name = [b't', b'0' + k / 10, b'0' + k % 10];
        let orders_name = [b'o', b'0' + k / 10, b'0' + k % 10];
        if judge_files(&rt, &table_name, &orders_name).is_none() {
            return;
        }
    }
}
