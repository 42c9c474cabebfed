// A list of offers to a gate as a text, and what is printed of it (W-207).
#![tactic(auto)]

ghost use Rattle.std.specs.Prelude.{◌≡◌, ◌+◌, ◌<◌, ◌≤◌, ◌++◌, ◌^◌, length, drop};
ghost use Rattle.std.proofs.Math.Option.{some};
ghost use Rattle.model.specs.OfferList.{read_opening, read_step, gate_line, steps_text, opening_text, offers_text};
ghost use Rattle.sender_gate.specs.View.{gate_of, answer_of};
ghost use Rattle.offer_list.specs.View.{gate_line_bytes, pair_at, pair_in, opening_of, opening_in, step_in};

use columns::{END, LF, LineIter};
use sender_gate::{Gate, GateAnswer};
use units::{Bytes, Rate};

// The columns of the first line, and of each further one.
const OPENING_COLUMNS: usize = 31;

const STEP_COLUMNS: usize = 14;

// The bytes of an answer line with its LF.
const ANSWER: usize = 18;

// So many bytes are always enough for what is printed of a list of 200,000: 18 for the 32 of its first line and for the 15 of each
// further one, and the line that says where it breaks off.
pub const PRINTED: usize = 240_000 + END;

#[derive(Clone, Copy)]
struct Opening {
    rate: Rate,
    burst: Bytes,
    // The largest frame.
    frame: Bytes,
    reading: u32,
}

// A frame's bytes, and the µs since the line before.
#[derive(Clone, Copy)]
struct Step {
    length: Bytes,
    micros: u32,
}

// The fields in columns `first` to `middle` and after them to `last`, counted from 1, up to 9 each; none where one is malformed.
fn read_pair(line: &[u8], first: usize, middle: usize, last: usize) -> Option<(u32, u32)>
    requires { (1 ≤ first) × ((first ≤ middle) × ((middle < first + 9) × ((middle < last) × (last ≤ middle + 9)))) }
    ensures { pair_in result ≡ pair_at first middle last line.now }
{
    let a = columns::read_at(line, first, middle)?;
    let b = columns::read_at(line, middle + 1, last)?;
    Some((a, b))
}

fn read_opening(line: &[u8]) -> Option<Opening>
    ensures { opening_in result ≡ read_opening line.now }
{
    if line.len() != OPENING_COLUMNS {
        return None;
    }
    let (rate, burst) = read_pair(line, 1, 9, 17)?;
    let (frame, reading) = read_pair(line, 18, 22, 31)?;
    Some(Opening {
        rate: Rate(u64::from(rate)),
        burst: Bytes(u64::from(burst)),
        frame: Bytes(u64::from(frame)),
        reading,
    })
}

fn read_step(line: &[u8]) -> Option<Step>
    ensures { step_in result ≡ read_step line.now }
{
    if line.len() != STEP_COLUMNS {
        return None;
    }
    let (length, micros) = read_pair(line, 1, 5, 14)?;
    Some(Step {
        length: Bytes(u64::from(length)),
        micros,
    })
}

// An answer line at the front of `part`.
fn write_answer(answer: GateAnswer, part: &mut [u8])
    requires { gate_line_bytes ≤ length part.old }
    ensures { part.new ≡ gate_line (answer_of answer) ++ drop gate_line_bytes part.old }
{
    columns::write_at(part, 1, 3, u64::from(answer.code));
    columns::write_at(part, 4, 17, answer.gate.tokens.0);
    part[17] = LF;
}

// Offer after offer, written to the front of `part`: how many bytes that takes.
fn answer_steps(offers: LineIter<'_>, first: Gate, reading: u32, part: &mut [u8]) -> usize
    requires few { length offers < 2 ^ 63 }
    requires room { length (steps_text 2 reading (gate_of first) offers) ≤ length part.old }
    ensures part_after { part.new ≡ steps_text 2 reading (gate_of first) offers.entry ++ drop result part.old }
    ensures value { result ≡ length (steps_text 2 reading (gate_of first) offers.entry) }
{
    let mut gate = first;
    let mut clock = reading;
    let mut number: u64 = 2;
    let mut filled = 0;
    for line in offers {
        let Some(step) = line.and_then(read_step) else {
            columns::write_end(&mut part[filled..], number);
            return filled + END;
        };
        clock = clock.wrapping_add(step.micros);
        let answer = sender_gate::offer(gate, step.length, clock);
        write_answer(answer, &mut part[filled..]);
        gate = answer.gate;
        number += 1;
        filled += ANSWER;
    }
    filled
}

// The same from the opening on.
fn answer_opening(opening: Opening, offers: LineIter<'_>, area: &mut [u8]) -> usize
    requires few { length offers < 2 ^ 63 }
    requires room { length (opening_text (some (opening_of opening)) offers) ≤ length area.old }
    ensures area_after { area.new ≡ opening_text (some (opening_of opening)) offers.entry ++ drop result area.old }
    ensures value { result ≡ length (opening_text (some (opening_of opening)) offers.entry) }
{
    let opened = sender_gate::open(opening.rate, opening.burst, opening.frame, opening.reading);
    write_answer(opened, area);
    if opened.code != 0 {
        return ANSWER;
    }
    ANSWER + answer_steps(offers, opened.gate, opening.reading, &mut area[ANSWER..])
}

// What is printed of a list, written to the front of the area: how many bytes that takes.
pub fn answer(text: &[u8], area: &mut [u8]) -> usize
    requires { length (offers_text text.now) ≤ length area.old }
    ensures area_after { area.new ≡ offers_text text.now ++ drop result area.old }
    ensures value { result ≡ length (offers_text text.now) }
{
    let mut lines = columns::lines(text);
    let Some(line) = lines.next() else {
        return 0;
    };
    let Some(opening) = line.and_then(read_opening) else {
        columns::write_end(area, 1);
        return END;
    };
    answer_opening(opening, lines, area)
}
