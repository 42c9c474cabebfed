// The levels of one link taken together (document 01, "The book"): the rate rule for the link, then delay and backlog
// level by level. Why nothing overflows is said in `units`.
#![tactic(auto)]

ghost use Rattle.std.specs.Prelude.{◌≡◌, [], ◌+◌, ◌*◌, ◌^◌, ◌≤◌, ◌<◌, Err};
ghost use Rattle.std.proofs.Math.Option.{some};
ghost use Rattle.model.specs.Words.{All};
ghost use Rattle.model.specs.Total.{total, largest};
ghost use Rattle.model.specs.LinkCheck.{levels_finding, link_finding};
ghost use Rattle.model.specs.Reference.{link_cause};
ghost use Rattle.model.specs.Laws.LinkSteps.{level_finding, blockings};
ghost use Rattle.units.specs.View.{aggregate_of};
ghost use Rattle.causes.specs.View.{cause_of, finding_of};
ghost use Rattle.link_check.specs.View.{aggregates_of, queue_of, queues_of, Narrow, bytes_of, level_finding_of};

use causes::Cause;
use queue_table::{LEVELS, Queue};
use units::{
    Aggregate, Bytes, Rate, larger, residual_rate, within_backlog, within_delay, within_rate,
};

// The bound that a level exceeds, with the level, counted from 1.
#[derive(Clone, Copy, Debug, PartialEq, Eq)]
enum OverBound {
    Delay(u32),
    Backlog(u32),
}

// What the check found, and the link's levels as they were: they are taken and given back by value (document 01).
#[derive(Clone, Copy)]
pub struct Checked {
    pub finding: Result<(), Cause>,
    pub levels: [Aggregate; LEVELS],
}

// The rate sum of all levels.
fn rate_sum(levels: [Aggregate; LEVELS]) -> Rate
    requires { total (λ a. a.rate) (aggregates_of levels) < 2 ^ 40 }
    ensures { result.0 ≡ total (λ a. a.rate) (aggregates_of levels) }
{
    let mut sum = 0;
    for own in &levels {
        sum += own.rate.0;
    }
    Rate(sum)
}

// Blocking at each level: the larger of the greatest frame of all levels below and the best-effort frame.
fn blockings(besteffort: Bytes, levels: [Aggregate; LEVELS]) -> [Bytes; LEVELS]
    ensures { bytes_of result ≡ blockings besteffort.0 (aggregates_of levels) }
{
    let mut blocked = [Bytes(0); LEVELS];
    let mut largest = besteffort;
    for i in (0..LEVELS).rev() {
        blocked[i] = largest;
        largest = larger(levels[i].frame, largest);
    }
    blocked
}

// One level: eq. 15, if it carries a flow. `above` has the sums of the levels above, `blocked` the frame that may block it.
#[tactic(auto, unfolding(model::specs::Formula::residual, model::specs::Laws::LinkSteps::level_finding, model::specs::LinkCheck::level_code, model::specs::LinkCheck::is_empty, model::specs::LinkCheck::or_else))]
fn check_level(
    speed: u64,
    level: u32,
    queue: Queue,
    above: Aggregate,
    own: Aggregate,
    blocked: Bytes,
) -> Result<(), OverBound>
    requires speed_bound { speed ≤ 10000 }
    requires rate_bound { above.rate.0 + own.rate.0 < 1000 * speed }
    requires burst_bound { above.burst.0 + blocked.0 + own.frame.0 + own.burst.0 ≤ 2 ^ 40 }
    requires narrow { Narrow queue }
    ensures { level_finding_of result ≡ level_finding speed level (queue_of queue) (aggregate_of above) (aggregate_of own) blocked.0 }
{
    if own.frame.0 == 0 {
        return Ok(());
    }
    let res = residual_rate(speed, above.rate);
    let y = Bytes(above.burst.0 + blocked.0 + own.frame.0);
    if !within_delay(y, own.burst, res, queue.threshold) {
        return Err(OverBound::Delay(level));
    }
    if !within_backlog(own.rate, own.burst, y, res, queue.buffer) {
        return Err(OverBound::Backlog(level));
    }
    Ok(())
}

// All levels, from 1 on.
fn check_levels(
    speed: u64,
    besteffort: Bytes,
    queues: [Queue; LEVELS],
    levels: [Aggregate; LEVELS],
) -> Result<(), OverBound>
    requires speed_bound { speed ≤ 10000 }
    requires levels_bound { total (λ a. a.rate) (aggregates_of levels) < 1000 * speed }
    requires besteffort_bound { total (λ a. a.burst) (aggregates_of levels) + 2 * largest (λ a. a.frame) (aggregates_of levels) + besteffort.0 ≤ 2 ^ 40 }
    requires all { All Narrow queues }
    ensures { level_finding_of result ≡ levels_finding speed besteffort.0 1 [] (queues_of queues) (aggregates_of levels) }
{
    let blocked = blockings(besteffort, levels);
    let mut above = Aggregate {
        rate: Rate(0),
        burst: Bytes(0),
        frame: Bytes(0),
    };
    for i in 0..LEVELS {
        let own = levels[i];
        check_level(speed, i as u32 + 1, queues[i], above, own, blocked[i])?;
        above = above.with_flow(own);
    }
    Ok(())
}

// A bound that a level of a link exceeds, as a cause that names the link.
#[tactic(auto, unfolding(model::specs::Reference::link_cause))]
fn on_link(link: u32, over: OverBound) -> Cause
    ensures { some (cause_of result) ≡ link_cause link (level_finding_of (Err over)) }
{
    match over {
        OverBound::Delay(level) => Cause::OverDelay(link, level),
        OverBound::Backlog(level) => Cause::OverBacklog(link, level),
    }
}

// 21 for the link, counted from 1, then level by level from 1, 22 before 23. A link with fewer levels has empty ones behind.
pub fn check_link(
    link: u32,
    speed: u64,
    besteffort: Bytes,
    queues: [Queue; LEVELS],
    levels: [Aggregate; LEVELS],
) -> Checked
    requires speed_bound { speed ≤ 10000 }
    requires levels_bound { total (λ a. a.rate) (aggregates_of levels) < 2 ^ 40 }
    requires besteffort_bound { total (λ a. a.burst) (aggregates_of levels) + 2 * largest (λ a. a.frame) (aggregates_of levels) + besteffort.0 ≤ 2 ^ 40 }
    requires all { All Narrow queues }
    ensures levels_value { result.levels ≡ levels }
    ensures finding_value { finding_of result.finding ≡ link_cause link (link_finding speed besteffort.0 (queues_of queues) (aggregates_of levels)) }
{
    let finding = if within_rate(speed, rate_sum(levels)) {
        check_levels(speed, besteffort, queues, levels).map_err(|over| on_link(link, over))
    } else {
        Err(Cause::OverRate(link))
    };
    Checked { finding, levels }
}
