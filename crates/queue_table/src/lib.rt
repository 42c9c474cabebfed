// The queue table: links with their levels, read from a text (document 01, "Columns", table lines; codes 1 to 5).
//
// The table is one array of numbers. Link i, counted from 0, has its from node, to node, speed, number of levels, fixed
// delay and best-effort frame from `link_position(i)` on; queue e, which `entry_at` counts, has its threshold and buffer
// from `queue_position(e)` on; the last number is how many links there are. What stands past them and their levels is free.
#![tactic(auto)]

mod access;
mod consistency;
mod row;

ghost use Rattle.std.specs.Prelude.{◌≡◌, ◌<◌, length};
ghost use Rattle.columns.specs.View.{line_of};
ghost use Rattle.queue_table.specs.View.{table_numbers, fault_code, Linked, Placed, numbers_of, row_stored, LineAdded, LinesRead, TableFilled};

pub use access::{
    Hop, Link, Queue, entry_at, hop_at, is_queue, level_of, link_at, link_count, link_of, queue_at,
};
use access::{link_position, queue_position};
pub use consistency::consistent;
use row::{Links, Row};

// How many links a table has at the most, how many levels a link, and so queues.
pub const LINKS: usize = 64;

pub const LEVELS: usize = 8;

pub const QUEUES: usize = LINKS * LEVELS;

// How many numbers a link has in the array, and a queue; where the number of links stands.
const LINK_NUMBERS: usize = 6;

const QUEUE_NUMBERS: usize = 2;

const COUNT: usize = LINK_NUMBERS * LINKS + QUEUE_NUMBERS * QUEUES;

// How many numbers the array has.
pub const TABLE_NUMBERS: usize = COUNT + 1;

// How many columns a table line has: up to the buffer, up to the fixed delay, up to the best-effort frame, and the longest;
// how many bytes a table text has at the most.
const BASE_COLUMNS: usize = 36;

const DELAY_COLUMNS: usize = 43;

const BEST_EFFORT_COLUMNS: usize = 48;

const ROW_COLUMNS: usize = BEST_EFFORT_COLUMNS;

pub const TABLE_BYTES: usize = QUEUES * (ROW_COLUMNS + 1);

// What a table text can be refused for.
#[derive(Clone, Copy, Debug, PartialEq, Eq)]
pub enum Fault {
    // 1: columns wrong.
    Malformed,
    // 2: out of range.
    OutOfRange,
    // 3: out of turn, or past the most links or levels.
    OutOfTurn,
    // 4: from equals to, or a number of the link differs within it.
    Disagrees,
    // 5: text too long.
    TooLong,
}

// Document 01's code of a fault.
impl From<Fault> for u32 {
    ghost from_gives = { λ fault code. code ≡ fault_code fault };

    fn from(fault: Fault) -> u32 {
        match fault {
            Fault::Malformed => 1,
            Fault::OutOfRange => 2,
            Fault::OutOfTurn => 3,
            Fault::Disagrees => 4,
            Fault::TooLong => 5,
        }
    }
}

// Why a table text is refused: the first fault, and its line.
#[derive(Clone, Copy, Debug, PartialEq, Eq)]
pub struct Refusal {
    pub fault: Fault,
    pub line: u32,
}

// A table by value. A refused text has no links.
#[derive(Clone, Copy)]
pub struct QueueTable {
    pub verdict: Result<(), Refusal>,
    pub numbers: [u32; TABLE_NUMBERS],
}

// Stores a line's numbers. Within a link those of the link are stored again as they were.
#[tactic(auto, unfolding(crate::specs::View::link_stored, crate::specs::View::queue_stored))]
fn store_row(r: Row, table: &mut [u32])
    requires { Placed (numbers_of r) table.old }
    ensures { table.new ≡ row_stored (numbers_of r) table.old }
{
    let link = r.link as usize;
    let level = r.level as usize;
    let at = link_position(link - 1);
    table[at] = r.from;
    table[at + 1] = r.to;
    table[at + 2] = r.speed;
    table[at + 3] = r.level;
    table[at + 4] = r.fixed;
    table[at + 5] = r.besteffort;
    let q = queue_position(entry_at(link - 1, level - 1));
    table[q] = r.threshold;
    table[q + 1] = r.buffer;
}

// Judges a line after n links and adds it where nothing is against it. Gives the number of links from then on.
#[tactic(auto, using(crate::proofs::TurnLaws::placed, crate::proofs::TurnLaws::step_malformed, crate::proofs::TurnLaws::line_refused))]
fn add_line(line: Option<&[u8]>, n: usize, table: &mut [u32]) -> Result<usize, Fault>
    requires { Linked n table.old }
    ensures { LineAdded n table.old table.new (line_of line.entry) result }
{
    let bytes = line.ok_or(Fault::Malformed)?;
    let row = Row::read(bytes).ok_or(Fault::Malformed)?;
    Links { count: n, table }.judge(row)?;
    store_row(row, table);
    Ok(row.link as usize)
}

// Reads the lines of a text into the array. Gives the number of links.
#[tactic(auto, using(crate::proofs::ReadLaws::reading_begun, crate::proofs::ReadLaws::reading_next, crate::proofs::ReadLaws::reading_ended))]
fn read_lines(text: &[u8], table: &mut [u32]) -> Result<usize, Refusal>
    requires { length table.old ≡ table_numbers }
    ensures { LinesRead text.now table.new result }
{
    if TABLE_BYTES < text.len() {
        return Err(Refusal {
            fault: Fault::TooLong,
            line: 0,
        });
    }
    let mut number: u32 = 1;
    let mut n = 0;
    for line in columns::lines(text) {
        n = add_line(line, n, table).map_err(|fault| Refusal {
            fault,
            line: number,
        })?;
        number += 1;
    }
    Ok(n)
}

// Fills the array from a table text, whatever stood there. No link counts where it is refused.
pub fn read_into(text: &[u8], table: &mut [u32]) -> Result<(), Refusal>
    requires { length table.old ≡ table_numbers }
    ensures { TableFilled text.now result table.new }
{
    let read = read_lines(text, table);
    table[COUNT] = read.unwrap_or(0) as u32;
    read.map(|_| ())
}

// The table of a text, by value.
pub fn read_table(text: &[u8]) -> QueueTable
    ensures { TableFilled text.now result.verdict result.numbers }
{
    let mut numbers = [0u32; TABLE_NUMBERS];
    let verdict = read_into(text, &mut numbers);
    QueueTable { verdict, numbers }
}
