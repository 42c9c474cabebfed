// Bytes on the wire, kilobits per second and microseconds, each a type of its own, and the named formulas that take
// one to another (document 01, "Units" and "The book"); tokens, of which bytes take some and a rate adds some (W-207).
//
// Why nothing overflows. A rate is at most 10,000,000 kbit/s: a flow's by its range, a sum because a link's speed is at most
// 10,000 Mbit/s and the rate rule comes before every formula that takes one. A path has at most 12 hops and a threshold is at most 100,000 µs, so
// S is at most 1,200,000 and a burst at a hop is below 2^31. A queue's backlog passed its check, so its burst
// sum is at most its buffer, below 2^32; with one flow more, the eight burst sums of a link and Y stay below 2^40, whatever
// the number of flows. Then 8000 × 2^40 and 10,000,000 × 2^40 + 10,000,000 are below 2^64, and so is a rate times a threshold or a
// buffer, which are numbers of 32 bits. Two readings of a clock of 32 bits are
// less than 2^32 µs apart, so a rate adds at most 4.3 × 10^16 tokens between them; a full bucket has 8 × 10^9 at the most.
#![tactic(auto)]

ghost use Rattle.std.specs.Prelude.{◌≡◌, ◌+◌, ◌*◌, ◌^◌, max, ◌≤◌, ◌<◌, leb};
ghost use Rattle.model.specs.Sizes.{thresholds_most};
ghost use Rattle.model.specs.Formula.{ceil_div, shortest_sending, hop_growth, burst_at_hop, residual, within_rate, delay_bound, backlog_bound};
ghost use Rattle.model.specs.Aggregates.{grown};
ghost use Rattle.model.specs.WithFlow.{together};
ghost use Rattle.model.specs.Gate.{turn, tokens_of};
ghost use Rattle.units.specs.View.{aggregate_of, AtSource};

// Bytes on the wire.
#[repr(C)]
#[derive(Clone, Copy)]
pub struct Bytes(pub u64);

// Kilobits per second.
#[repr(C)]
#[derive(Clone, Copy)]
pub struct Rate(pub u64);

// Microseconds.
#[derive(Clone, Copy)]
pub struct Micros(pub u64);

// 8000ths of a byte: a rate adds a whole number of them in a microsecond.
#[repr(C)]
#[derive(Clone, Copy)]
pub struct Tokens(pub u64);

// Rate, burst and largest frame: of one flow at a hop, its share there, or summed over the flows of a queue (document 01: its
// figures; the largest frame is 0 where none).
#[derive(Clone, Copy)]
pub struct Aggregate {
    pub rate: Rate,
    pub burst: Bytes,
    pub frame: Bytes,
}

// The quotient rounded up. Not by `div_ceil`, which asks for the remainder too: load e takes 1.06 times as long then.
fn ceil_div(a: u64, b: u64) -> u64
    requires { (1 ≤ b) × (a + b < 2 ^ 64) }
    ensures { result ≡ ceil_div a b }
{
    (a + (b - 1)) / b
}

// The shortest sending time on a link of `speed` Mbit/s: that of the smallest frame, 672 bits. 0 where the speed is 0, which no table has.
#[tactic(auto, unfolding(model::specs::Formula::shortest_sending))]
pub fn shortest_sending(speed: u32) -> Micros
    ensures { result.0 ≡ shortest_sending speed }
{
    if speed == 0 {
        return Micros(0);
    }
    Micros(ceil_div(672, u64::from(speed)))
}

// A hop's part of S, never below 0.
#[tactic(auto, unfolding(model::specs::Formula::hop_growth))]
pub fn hop_growth(threshold: Micros, speed: u32) -> Micros
    ensures { result.0 ≡ hop_growth threshold.0 speed }
{
    Micros(threshold.0.saturating_sub(shortest_sending(speed).0))
}

// The burst of a flow at a hop, where S over the earlier hops is `sum`.
#[tactic(auto, unfolding(model::specs::Formula::burst_at_hop))]
pub fn burst_at_hop(rate: Rate, burst: Bytes, sum: Micros) -> Bytes
    requires { (rate.0 ≤ 10000000) × ((burst.0 ≤ 1000000) × (sum.0 ≤ thresholds_most)) }
    ensures { result.0 ≡ burst_at_hop rate.0 burst.0 sum.0 }
{
    Bytes(burst.0 + ceil_div(rate.0 * sum.0, 8000))
}

// Res: the rate that the levels above leave of a link of `speed` Mbit/s.
#[tactic(auto, unfolding(model::specs::Formula::residual))]
pub fn residual_rate(speed: u64, above: Rate) -> Rate
    requires { (speed ≤ 10000) × (above.0 ≤ 1000 * speed) }
    ensures { result.0 ≡ residual speed above.0 }
{
    Rate(1000 * speed - above.0)
}

// The rate rule: the rate sum of all levels of a link stays below its speed.
#[tactic(auto, unfolding(model::specs::Formula::within_rate))]
pub fn within_rate(speed: u64, sum: Rate) -> bool
    requires { speed ≤ 10000 }
    ensures { result ≡ within_rate speed sum.0 }
{
    sum.0 < 1000 * speed
}

// Delay, eq. 12.
#[tactic(auto, unfolding(model::specs::Formula::delay_bound))]
pub fn delay_bound(y: Bytes, burst: Bytes, res: Rate) -> Micros
    requires { (1 ≤ res.0) × ((res.0 ≤ 10000000) × (y.0 + burst.0 ≤ 2 ^ 40)) }
    ensures { result.0 ≡ delay_bound y.0 burst.0 res.0 }
{
    Micros(ceil_div(8000 * (y.0 + burst.0), res.0))
}

// Backlog, eq. 13.
#[tactic(auto, unfolding(model::specs::Formula::backlog_bound))]
pub fn backlog_bound(rate: Rate, burst: Bytes, y: Bytes, res: Rate) -> Bytes
    requires { (rate.0 ≤ 10000000) × ((1 ≤ res.0) × ((res.0 ≤ 10000000) × (y.0 + burst.0 ≤ 2 ^ 40))) }
    ensures { result.0 ≡ backlog_bound rate.0 burst.0 y.0 res.0 }
{
    Bytes(burst.0 + ceil_div(rate.0 * y.0, res.0))
}

// Whether the delay stays within a threshold, by a product: no quotient is worked out where only a comparison is asked.
pub fn within_delay(y: Bytes, burst: Bytes, res: Rate, threshold: Micros) -> bool
    requires { (1 ≤ res.0) × (res.0 ≤ 10000000) × (y.0 + burst.0 ≤ 2 ^ 40) × (threshold.0 < 2 ^ 32) }
    ensures { result ≡ leb (delay_bound y.0 burst.0 res.0) threshold.0 }
{
    8000 * (y.0 + burst.0) <= threshold.0 * res.0
}

// Whether the backlog stays within a buffer, by a product too; the burst sum alone may be above it.
pub fn within_backlog(rate: Rate, burst: Bytes, y: Bytes, res: Rate, buffer: Bytes) -> bool
    requires { (rate.0 ≤ 10000000) × (1 ≤ res.0) × (res.0 ≤ 10000000) × (y.0 ≤ 2 ^ 40) × (buffer.0 < 2 ^ 32) }
    ensures { result ≡ leb (backlog_bound rate.0 burst.0 y.0 res.0) buffer.0 }
{
    burst.0 <= buffer.0 && rate.0 * y.0 <= (buffer.0 - burst.0) * res.0
}

// The tokens that a burst or a frame takes.
#[tactic(auto, unfolding(model::specs::Gate::tokens_of))]
pub fn tokens_of(bytes: Bytes) -> Tokens
    requires { bytes.0 ≤ 1000000 }
    ensures { result.0 ≡ tokens_of bytes.0 }
{
    Tokens(8000 * bytes.0)
}

// The tokens that a rate adds in the time between two readings of a clock of 32 bits.
pub fn tokens_added(rate: Rate, passed: Micros) -> Tokens
    requires { (rate.0 ≤ 10000000) × (passed.0 < turn) }
    ensures { result.0 ≡ rate.0 * passed.0 }
{
    Tokens(rate.0 * passed.0)
}

pub fn larger(a: Bytes, b: Bytes) -> Bytes
    ensures { result.0 ≡ max a.0 b.0 }
{
    Bytes(a.0.max(b.0))
}

impl Aggregate {
    // The aggregate with a flow's share counted in.
    pub fn with_flow(self, share: Aggregate) -> Aggregate
        requires { (self.rate.0 + share.rate.0 ≤ 2 ^ 40) × (self.burst.0 + share.burst.0 ≤ 2 ^ 40) }
        ensures { aggregate_of result ≡ together (aggregate_of self) (aggregate_of share) }
    {
        Aggregate {
            rate: Rate(self.rate.0 + share.rate.0),
            burst: Bytes(self.burst.0 + share.burst.0),
            frame: larger(self.frame, share.frame),
        }
    }

    // A flow's share at a hop: `self` is the one at its source, and `sum` is S over the earlier hops.
    pub fn grown(self, sum: Micros) -> Aggregate
        requires { AtSource (aggregate_of self) × (sum.0 ≤ thresholds_most) }
        ensures { aggregate_of result ≡ grown (aggregate_of self) sum.0 }
    {
        Aggregate {
            burst: burst_at_hop(self.rate, self.burst, sum),
            ..self
        }
    }
}
