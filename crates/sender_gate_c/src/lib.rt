// The gate of `sender_gate` for senders in C: host/devvonur_gate.h.
#![tactic(auto)]

ghost use Rattle.sender_gate.specs.View.{Opens, Offers};

use sender_gate::{Gate, GateAnswer};

#[unsafe(no_mangle)]
pub extern "C" fn devvonur_gate_open(rate: u64, burst: u64, frame: u64, now: u32) -> GateAnswer
    ensures { Opens rate burst frame now result }
{
    sender_gate::devvonur_gate_open(rate, burst, frame, now)
}

#[unsafe(no_mangle)]
pub extern "C" fn devvonur_gate_offer(gate: Gate, length: u64, now: u32) -> GateAnswer
    ensures { Offers gate length now result }
{
    sender_gate::devvonur_gate_offer(gate, length, now)
}
