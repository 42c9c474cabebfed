// A recorded list of calls on a registry, and its replay.
#![tactic(auto)]

ghost use Rattle.std.specs.Prelude.{◌≡◌, ◌∷◌, ◌++◌, ◌≤◌, length, drop};
ghost use Rattle.model.specs.Columns.{end_line};
ghost use Rattle.model.specs.Answers.{answer_columns};
ghost use Rattle.orders.specs.View.{kind_of};
ghost use Rattle.queue_table.specs.View.{fault_code};
ghost use Rattle.admission.specs.View.{answer_of};
ghost use Rattle.registry.specs.View.{call_of, Performs};
ghost use Rattle.recording.specs.Calls.{header};
ghost use Rattle.recording.specs.View.{header_of, FirstCall, MakesCalls};
ghost use Rattle.recording.specs.Replay.{call_answer_bytes, refusal_line, Runs, Replays};

use columns::{END, LF};
use orders::Kind;
use queue_table::{Fault, Refusal, TABLE_BYTES};
use registry::{Called, Registry};

// The bytes of a header line with its LF.
const HEADER: usize = 9;

// The bytes of an answer line with its LF.
pub const ANSWER: usize = 14;

// The areas of the programs that replay a list from files. The table has one byte above the longest text: such a text is refused
// for its length alone.
pub const TABLE: usize = TABLE_BYTES + 1;

// An answer line to each of 22,223 calls: none takes less than 9 of the 200,000 bytes of a list that count.
pub const ANSWERS: usize = ANSWER * 22_223;

// How the calls are made: on a registry by value, or on one that is held and lent. The answers are the same.
#[derive(Clone, Copy)]
pub enum Form {
    ByValue,
    InPlace,
}

// What the calls of a list leave behind: how many there were, and where the last one ends.
#[derive(Clone, Copy)]
struct Ran {
    registry: Registry,
    count: usize,
    end: usize,
}

// What a replay gives: the table's verdict too.
#[derive(Clone, Copy)]
pub struct Replayed {
    pub verdict: Result<(), Refusal>,
    pub registry: Registry,
    pub count: usize,
    pub end: usize,
}

// A header line: which call it is, and the number of bytes that it is given.
#[derive(Clone, Copy)]
struct Header {
    kind: Kind,
    size: u32,
}

// The header line that the bytes start with.
#[tactic(auto, unfolding(crate::specs::Calls::header))]
fn read_header(bytes: &[u8]) -> Option<Header>
    ensures { header_of result ≡ header bytes.now }
{
    let kind = Kind::try_from(columns::read_at(bytes, 1, 2)?).ok()?;
    let size = columns::read_at(bytes, 3, 8)?;
    if bytes.len() < HEADER || bytes[HEADER - 1] != LF {
        return None;
    }
    Some(Header { kind, size })
}

// The call that the bytes start with, whose bytes are all there.
#[tactic(auto, unfolding(crate::specs::Calls::first_call))]
fn first_call(bytes: &[u8]) -> Option<Header>
    ensures { FirstCall bytes.now result }
{
    let header = read_header(bytes)?;
    if bytes.len() < HEADER + header.size as usize {
        return None;
    }
    Some(header)
}

// One call, and its answer line at the start of `part`.
fn answer_call<F: Fn(Registry, Kind, &[u8]) -> Called>(
    step: &F,
    registry: Registry,
    kind: Kind,
    bytes: &[u8],
    part: &mut [u8],
) -> Called
    requires callable { F.IsAlwaysCallable step.now }
    requires makes { MakesCalls (F.post step.now) }
    requires room { call_answer_bytes ≤ length part.old }
    ensures performs { Performs registry (call_of (kind_of kind) bytes.now) result }
    ensures part_after { part.new ≡ answer_columns (answer_of result.answer) ++ (10 ∷ drop call_answer_bytes part.old) }
{
    let called = step(registry, kind, bytes);
    answer_line::write_answer(called.answer, part);
    part[13] = LF;
    called
}

// Call after call, up to the first that isn't whole, as many as the area has room to answer.
fn run<F: Fn(Registry, Kind, &[u8]) -> Called>(
    step: F,
    first: Registry,
    calls: &[u8],
    answers: &mut [u8],
) -> Ran
    requires callable { F.IsAlwaysCallable step }
    requires makes { MakesCalls (F.post step) }
    ensures { Runs first calls.now answers.old answers.new result }
{
    let most = answers.len() / ANSWER;
    let mut registry = first;
    let mut at = 0;
    for count in 0..most {
        let Some(header) = first_call(&calls[at..]) else {
            return Ran {
                registry,
                count,
                end: at,
            };
        };
        let start = at + HEADER;
        let end = start + header.size as usize;
        let line = ANSWER * count;
        let called = answer_call(
            &step,
            registry,
            header.kind,
            &calls[start..end],
            &mut answers[line..],
        );
        registry = called.registry;
        at = end;
    }
    Ran {
        registry,
        count: most,
        end: at,
    }
}

// Opens a registry on the table text and makes the recorded calls on it by `step`.
fn replay_by<F: Fn(Registry, Kind, &[u8]) -> Called>(
    step: F,
    table: &[u8],
    calls: &[u8],
    answers: &mut [u8],
) -> Replayed
    requires callable { F.IsAlwaysCallable step }
    requires makes { MakesCalls (F.post step) }
    ensures { Replays table.now calls.now answers.old answers.new result }
{
    let opened = registry::open(table);
    let ran = run(step, opened.registry, calls, answers);
    let registry = ran.registry;
    Replayed {
        verdict: opened.verdict,
        registry,
        count: ran.count,
        end: ran.end,
    }
}

// Opens a registry on the table text and makes the recorded calls on it, one after the other, as many as the area has room to answer.
pub fn replay(form: Form, table: &[u8], calls: &[u8], answers: &mut [u8]) -> Replayed
    ensures { Replays table.now calls.now answers.old answers.new result }
{
    match form {
        Form::ByValue => replay_by(registry::step, table, calls, answers),
        Form::InPlace => replay_by(registry_in_place::step, table, calls, answers),
    }
}

// What is said of a refused table: its code in 3 columns and line in 6.
pub fn refusal_line(fault: Fault, line: u32) -> [u8; 10]
    ensures { result ≡ refusal_line (fault_code fault) line }
{
    let mut out = *b"         \n";
    columns::write_at(&mut out, 1, 3, u64::from(u32::from(fault)));
    columns::write_at(&mut out, 4, 9, u64::from(line));
    out
}

// What is said of a list that doesn't close with a whole call: the offset of what follows the last one, in 10 columns.
pub fn end_line(offset: usize) -> [u8; END]
    ensures { result ≡ end_line offset }
{
    let mut out = [0u8; END];
    columns::write_end(&mut out, offset as u64);
    out
}
