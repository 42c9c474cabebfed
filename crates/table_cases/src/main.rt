// Reads table texts, the files t00, t01, .. beside it until one is missing, and prints what each says: code in 3 columns,
// line in 6, links in 4 and queues in 5.
#![tactic(auto)]

ghost use Rattle.queue_table.specs.View.{WellFormed};

use queue_table::{QUEUES, TABLE_BYTES};
use std::rt::Files;

// One byte above the longest table text, so that 5 is seen.
const TEXT: usize = TABLE_BYTES + 1;

// What standard output doesn't take is lost.
fn show(rt: &impl Print, code: u32, line: u32, links: usize, queues: usize) {
    let _ = println!(rt; "{code:3}{line:6}{links:4}{queues:5}");
}

fn count_queues(table: &[u32]) -> usize
    requires { WellFormed table.now }
{
    (0..QUEUES)
        .filter(|e| queue_table::is_queue(*e, table))
        .count()
}

fn show_table(rt: &impl Print, table: &[u32])
    requires { WellFormed table.now }
{
    let links = queue_table::link_count(table);
    show(rt, 0, 0, links, count_queues(table));
}

fn judge(rt: &impl Print, text: &[u8]) {
    let table = queue_table::read_table(text);
    match table.verdict {
        Ok(()) => show_table(rt, &table.numbers),
        Err(refusal) => show(rt, u32::from(refusal.fault), refusal.line, 0, 0),
    }
}

// Whether there is such a file.
fn judge_file(rt: &(impl Files + Print), name: &[u8]) -> bool {
    let mut area = [0u8; TEXT];
    let Some(bytes) = text_files::try_read(rt, name, &mut area) else {
        return false;
    };
    judge(rt, &area[..bytes]);
    true
}

fn main(rt: HostRuntime) {
    for k in 0..100u8 {
        let name = [b't', b'0' + k / 10, b'0' + k % 10];
        if !judge_file(&rt, &name) {
            return;
        }
    }
}
