// Writes the flows that a recorded list of calls leaves held as order lines, lowest place first (W-204), so that
// `handover > orders.txt` feeds `admit`. Reads table.txt and calls.txt as `replay` does. Where that isn't all that was to be
// handed over, standard error says so: a file that can't be opened and counts as empty, a list that is too long, and what
// `replay` prints of a refused table and of a list that doesn't close with a whole call.
#![tactic(auto)]

use order_text::TEXT;
use queue_table::Refusal;
use recording::{ANSWERS, Form, TABLE};
use registry::Registry;
use text_files::LIST_AREA;

fn tell_verdict(err: &impl Print, verdict: Result<(), Refusal>) {
    if let Err(refusal) = verdict {
        let _ = err.write_all(&recording::refusal_line(refusal.fault, refusal.line));
    }
}

// Nothing is refused here: what a replay leaves is consistent, and the area always has room.
fn print_text(rt: &impl Print, err: &impl Print, registry: Registry) {
    let mut area = [0; TEXT];
    let Ok(bytes) = order_text::write(registry, &mut area) else {
        return;
    };
    if rt.write_all(&area[..bytes]).is_err() {
        let _ = println!(err; "handover: the output can't be written");
    }
}

fn hand_over(rt: &impl Print, err: &impl Print, table: &[u8], calls: &[u8]) {
    let mut answers = [0; ANSWERS];
    let replayed = recording::replay(Form::ByValue, table, calls, &mut answers);
    tell_verdict(err, replayed.verdict);
    if replayed.end < calls.len() {
        let _ = err.write_all(&recording::end_line(replayed.end));
    }
    print_text(rt, err, replayed.registry);
}

fn main(rt: HostRuntime) {
    let err = rt.stderr();
    let mut table_area = [0; TABLE];
    let mut calls_area = [0; LIST_AREA];
    let table = text_files::read_or_tell(&rt, &err, b"handover", b"table.txt", &mut table_area);
    let calls = text_files::read_list(&rt, &err, b"handover", b"calls.txt", &mut calls_area);
    hand_over(&rt, &err, &table_area[..table], &calls_area[..calls]);
}
