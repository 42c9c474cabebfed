// The sums to check by hand of document 01, W-202 and W-208, worked out by `units`. One line for each: the result in 8 columns.
#![tactic(auto)]

ghost use Rattle.std.specs.Prelude.{◌≤◌};

use units::{Bytes, Micros, Rate};

// What standard output doesn't take is lost.
fn show(rt: &impl Print, n: u64) {
    let _ = println!(rt; "{n:8}");
}

// With a best-effort frame of 1,542: level 1 alone, level 1 with level 2 below it, level 2.
#[tactic(auto, unfolding(model::specs::Formula::residual))]
fn with_best_effort(rt: &impl Print) {
    let res = units::residual_rate(100, Rate(0));
    let below = units::residual_rate(100, Rate(1000));
    let alone = units::larger(Bytes(0), Bytes(1542));
    let beside = units::larger(Bytes(1542), Bytes(1542));
    show(
        rt,
        units::delay_bound(Bytes(alone.0 + 1542), Bytes(1542), res).0,
    );
    show(
        rt,
        units::delay_bound(Bytes(beside.0 + 1542), Bytes(1542), res).0,
    );
    show(
        rt,
        units::delay_bound(Bytes(1542 + alone.0 + 1542), Bytes(1542), below).0,
    );
}

// The burst behind two hops with these thresholds on links of this speed; a threshold of 0 stands for no hop.
fn show_burst(rt: &impl Print, first: u64, second: u64, speed: u32)
    requires { (first ≤ 1000) × (second ≤ 1000) }
{
    let a = units::hop_growth(Micros(first), speed);
    let b = units::hop_growth(Micros(second), speed);
    show(
        rt,
        units::burst_at_hop(Rate(1000), Bytes(1542), Micros(a.0 + b.0)).0,
    );
}

// After a threshold of 371 and after two, after 375 and 376; after 371 at 10 Mbit/s, after a threshold below the shortest sending time.
fn show_bursts(rt: &impl Print) {
    show_burst(rt, 371, 0, 100);
    show_burst(rt, 371, 371, 100);
    show_burst(rt, 375, 0, 100);
    show_burst(rt, 376, 0, 100);
    show_burst(rt, 371, 0, 10);
    show_burst(rt, 6, 0, 100);
}

#[tactic(auto, unfolding(model::specs::Formula::residual))]
fn main(rt: HostRuntime) {
    // Level 1 alone, then level 2 below it, then level 1 with level 2 below it.
    let res = units::residual_rate(100, Rate(0));
    let below = units::residual_rate(100, Rate(1000));
    show(&rt, units::delay_bound(Bytes(1542), Bytes(1542), res).0);
    show(
        &rt,
        units::backlog_bound(Rate(1000), Bytes(1542), Bytes(1542), res).0,
    );
    show(&rt, units::delay_bound(Bytes(3084), Bytes(1542), below).0);
    show(
        &rt,
        units::backlog_bound(Rate(1000), Bytes(1542), Bytes(3084), below).0,
    );
    show(&rt, units::delay_bound(Bytes(3084), Bytes(1542), res).0);
    show(
        &rt,
        units::backlog_bound(Rate(1000), Bytes(1542), Bytes(3084), res).0,
    );
    with_best_effort(&rt);
    show_bursts(&rt);
    // Held rates 99,000, and 999 or 1,000 more: 1 where the rate rule is met.
    show(&rt, u64::from(units::within_rate(100, Rate(99_999))));
    show(&rt, u64::from(units::within_rate(100, Rate(100_000))));
}
