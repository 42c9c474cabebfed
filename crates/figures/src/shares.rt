// What a hop adds to S for the hops after it; a queue's figures with a flow's share, grown as it is there, counted in or in
// place of another.
ghost use Rattle.std.specs.Prelude.{◌≡◌, ◌+◌, ◌^◌, ◌≤◌, ◌<◌, length};
ghost use Rattle.model.specs.Sizes.{queues_most, thresholds_most};
ghost use Rattle.model.specs.Aggregates.{grown};
ghost use Rattle.units.specs.View.{aggregate_of, AtSource};
ghost use Rattle.queue_table.specs.View.{table_numbers};
ghost use Rattle.figures.specs.View.{figure_numbers, Below, Limited, growth_at, counted_at, replaced, changed_at, RoomAt};

use crate::figure;
use queue_table::{link_at, link_of, queue_at};
use units::{Aggregate, Bytes, Micros, Rate, hop_growth};

// S past queue e, where S over the hops before it is `sum`.
pub(crate) fn sum_past(sum: Micros, e: usize, table: &[u32]) -> Micros
    requires { (sum.0 ≤ thresholds_most) × (e < queues_most) × (length table.now ≡ table_numbers) }
    ensures { result.0 ≡ sum.0 + growth_at table.now e }
{
    let queue = queue_at(e, table);
    let link = link_at(link_of(e), table);
    Micros(sum.0 + hop_growth(queue.threshold, link.speed).0)
}

// A flow's share at a hop, of which `share` is the one at its source. S over the hops before is `sum`.
pub(crate) fn share_at(share: Aggregate, sum: Micros) -> Aggregate
    requires { AtSource (aggregate_of share) × (sum.0 ≤ thresholds_most) }
    ensures { aggregate_of result ≡ grown (aggregate_of share) sum.0 }
{
    share.grown(sum)
}

// The figures of queue e with a flow counted in there, whose share at its source is `share`. S over the hops before is `sum`.
pub(crate) fn counted_at(share: Aggregate, sum: Micros, e: usize, figures: &[u64]) -> Aggregate
    requires at_source { AtSource (aggregate_of share) × (sum.0 ≤ thresholds_most) }
    requires e_lt_queues_most { (e < queues_most) × Limited figures.now }
    ensures { aggregate_of result ≡ counted_at (aggregate_of share) figures.now e sum.0 }
{
    figure(e, figures).with_flow(share_at(share, sum))
}

// Figures with a flow counted by `share` in place of `was`. The largest frame stays.
#[tactic(auto, unfolding(crate::specs::View::replaced))]
fn replaced(own: Aggregate, was: Aggregate, share: Aggregate) -> Aggregate
    requires rate_le_rate { (was.rate.0 ≤ own.rate.0) × (was.burst.0 ≤ own.burst.0) }
    requires rate_bound { (own.rate.0 + share.rate.0 < 2 ^ 64) × (own.burst.0 + share.burst.0 < 2 ^ 64) }
    ensures { aggregate_of result ≡ replaced (aggregate_of own) (aggregate_of was) (aggregate_of share) }
{
    Aggregate {
        rate: Rate(own.rate.0 - was.rate.0 + share.rate.0),
        burst: Bytes(own.burst.0 - was.burst.0 + share.burst.0),
        ..own
    }
}

// The figures of queue e with a flow counted there by `share` in place of `was`, both as at its source.
pub(crate) fn changed_at(
    was: Aggregate,
    share: Aggregate,
    sum: Micros,
    e: usize,
    figures: &[u64],
) -> Aggregate
    requires at_source { AtSource (aggregate_of was) × (AtSource (aggregate_of share) × (sum.0 ≤ thresholds_most)) }
    requires figures_len { (e < queues_most) × ((length figures.now ≡ figure_numbers) × Below (2 ^ 63) figures.now) }
    requires room_at { RoomAt (aggregate_of was) figures.now e sum.0 }
    ensures { aggregate_of result ≡ changed_at (aggregate_of was) (aggregate_of share) figures.now e sum.0 }
{
    replaced(figure(e, figures), share_at(was, sum), share.grown(sum))
}
