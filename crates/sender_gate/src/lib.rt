// The gate at a sender (W-207, source 002's "Shaping"): a token bucket by value that lets a frame pass or drops it.
//
// A gate may hold anything: its numbers are judged before one is used.
#![tactic(auto)]

ghost use Rattle.std.specs.Prelude.{◌≡◌, ◌≤◌, true};
ghost use Rattle.model.specs.Gate.{gate_in_range, length_in_range, time_passed, tokens_at, gate_with, metered, no_gate};
ghost use Rattle.sender_gate.specs.View.{gate_of, code_of, answer_of, Opens, Offers};

use orders::SMALLEST_FRAME;
use units::{Bytes, Micros, Rate, Tokens};

#[repr(C)]
#[derive(Clone, Copy)]
pub struct Gate {
    pub rate: Rate,
    pub burst: Bytes,
    // The largest frame.
    pub frame: Bytes,
    pub tokens: Tokens,
    // The last reading of the clock, a counter of microseconds.
    pub reading: u32,
}

// What becomes of an opening or an offer.
#[derive(Clone, Copy)]
enum Outcome {
    // Opened or passed.
    Done = 0,
    Dropped = 1,
    FrameOutOfRange = 60,
    GateOutOfRange = 61,
}

// The code, and the gate then.
#[repr(C)]
#[derive(Clone, Copy)]
pub struct GateAnswer {
    pub gate: Gate,
    pub code: u32,
}

// With so many tokens at this reading.
#[tactic(auto, unfolding(model::specs::Gate::gate_with))]
fn answer(outcome: Outcome, gate: Gate, tokens: Tokens, reading: u32) -> GateAnswer
    ensures { answer_of result ≡ record { code = code_of outcome; gate = gate_with (gate_of gate) tokens.0 reading } }
{
    GateAnswer {
        gate: Gate {
            tokens,
            reading,
            ..gate
        },
        code: outcome as u32,
    }
}

fn in_range(gate: Gate) -> bool
    ensures { result ≡ gate_in_range (gate_of gate) }
{
    orders::rate_in_range(gate.rate)
        && orders::burst_in_range(gate.burst)
        && orders::frame_in_range(gate.frame)
        && gate.frame.0 <= gate.burst.0
        && gate.tokens.0 <= units::tokens_of(gate.burst).0
}

// Round the corner where the clock has rolled over.
#[tactic(auto, unfolding(model::specs::Gate::time_passed))]
fn time_passed(last: u32, now: u32) -> Micros
    ensures { result.0 ≡ time_passed last now }
{
    Micros(u64::from(now.wrapping_sub(last)))
}

// A frame that finds so many tokens there.
#[tactic(auto, unfolding(model::specs::Gate::metered))]
fn meter(gate: Gate, length: Bytes, now: u32, there: Tokens) -> GateAnswer
    requires { length.0 ≤ 1000000 }
    ensures { answer_of result ≡ metered (gate_of gate) length.0 now there.0 }
{
    let taken = units::tokens_of(length);
    if taken.0 <= there.0 {
        return answer(Outcome::Done, gate, Tokens(there.0 - taken.0), now);
    }
    answer(Outcome::Dropped, gate, there, now)
}

// A frame at a reading; the tokens are never above full. One call for both cases would make the processor wait for the lesser of two sums.
fn meter_at(gate: Gate, length: Bytes, now: u32) -> GateAnswer
    requires { (gate_in_range (gate_of gate) ≡ true) × (length_in_range (gate_of gate) length.0 ≡ true) }
    ensures { answer_of result ≡ metered (gate_of gate) length.0 now (tokens_at (gate_of gate) now) }
{
    let full = units::tokens_of(gate.burst);
    let added = units::tokens_added(gate.rate, time_passed(gate.reading, now));
    if full.0 - gate.tokens.0 < added.0 {
        return meter(gate, length, now, full);
    }
    meter(gate, length, now, Tokens(gate.tokens.0 + added.0))
}

// What there is after a refused opening: an offer to it is 61.
#[tactic(auto, unfolding(model::specs::Gate::no_gate))]
fn no_gate() -> Gate
    ensures { gate_of result ≡ no_gate }
{
    Gate {
        rate: Rate(0),
        burst: Bytes(0),
        frame: Bytes(0),
        tokens: Tokens(0),
        reading: 0,
    }
}

// A gate at this reading, full. Its numbers are judged without tokens first: those of a burst out of range may need more than 64
// bits.
pub fn open(rate: Rate, burst: Bytes, frame: Bytes, now: u32) -> GateAnswer
    ensures { Opens rate.0 burst.0 frame.0 now result }
{
    let empty = Gate {
        rate,
        burst,
        frame,
        tokens: Tokens(0),
        reading: now,
    };
    if !in_range(empty) {
        return answer(Outcome::GateOutOfRange, no_gate(), Tokens(0), 0);
    }
    answer(Outcome::Done, empty, units::tokens_of(burst), now)
}

// A frame of so many bytes is offered at this reading. Refused, 61 or 60, it leaves the gate as it was.
pub fn offer(gate: Gate, length: Bytes, now: u32) -> GateAnswer
    ensures { Offers gate length.0 now result }
{
    if !in_range(gate) {
        return answer(Outcome::GateOutOfRange, gate, gate.tokens, gate.reading);
    }
    if !columns::within(SMALLEST_FRAME, gate.frame.0, length.0) {
        return answer(Outcome::FrameOutOfRange, gate, gate.tokens, gate.reading);
    }
    meter_at(gate, length, now)
}

// The same for senders in C.
#[unsafe(no_mangle)]
pub extern "C" fn devvonur_gate_open(rate: u64, burst: u64, frame: u64, now: u32) -> GateAnswer
    ensures { Opens rate burst frame now result }
{
    open(Rate(rate), Bytes(burst), Bytes(frame), now)
}

#[unsafe(no_mangle)]
pub extern "C" fn devvonur_gate_offer(gate: Gate, length: u64, now: u32) -> GateAnswer
    ensures { Offers gate length now result }
{
    offer(gate, Bytes(length), now)
}
