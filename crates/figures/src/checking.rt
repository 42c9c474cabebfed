// The check of links (document 01, codes 21 to 23): those of a path with its flow counted in or by another share, and all of
// a table with the figures as they are.
ghost use Rattle.std.specs.Prelude.{◌≡◌, ℕ, ◌+◌, ◌≤◌, ◌<◌, length, get_or, eqb};
ghost use Rattle.model.specs.Words.{All};
ghost use Rattle.model.specs.Sizes.{links_most, levels_most, queues_most};
ghost use Rattle.model.specs.Reference.{link_cause};
ghost use Rattle.units.specs.View.{aggregate_of, AtSource};
ghost use Rattle.queue_table.specs.View.{up_to, table_numbers, link_in, speed_at, queue_at, WellFormed};
ghost use Rattle.causes.specs.View.{finding_of};
ghost use Rattle.link_check.specs.View.{aggregates_of, queues_of, Narrow};
ghost use Rattle.figures.specs.View.{Summable, LimitedLevel, Hops, Limited, Speeds, OnTable, PathCounted, finding_at, cause_with, PathChecked, ChangeChecked, code_at, LinkSpeeds, LinksMet};
ghost use Rattle.figures.specs.Checks.{SumAt, Answered};

use crate::link_levels;
use crate::shares::{changed_at, counted_at, sum_past};
use causes::Cause;
use link_check::check_link;
use queue_table::{LEVELS, Queue, entry_at, level_of, link_at, link_count, link_of, queue_at};
use std::array;
use units::{Aggregate, Micros};

// The queues of a link's eight levels, the link counted from 0.
fn link_queues(link: usize, table: &[u32]) -> [Queue; LEVELS]
    requires { (link < links_most) × (length table.now ≡ table_numbers) }
    ensures { (queues_of result ≡ up_to levels_most (queue_at table.now link)) × All Narrow result }
{
    array::from_fn(|p| queue_at(entry_at(link, p), table))
}

// What the check of a link, counted from 0, finds with these levels.
fn find_on(link: usize, levels: [Aggregate; LEVELS], table: &[u32]) -> Result<(), Cause>
    requires link_lt_links_most { (link < links_most) × (length table.now ≡ table_numbers) }
    requires link_bound { speed_at table.now link ≤ 10000 }
    requires summable { Summable (aggregates_of levels) }
    ensures { finding_of result ≡ link_cause (link + 1) (finding_at table.now link (aggregates_of levels)) }
{
    let queues = link_queues(link, table);
    let own = link_at(link, table);
    check_link(
        link as u32 + 1,
        u64::from(own.speed),
        own.besteffort,
        queues,
        levels,
    )
    .finding
}

// The check of the link of queue e, with these figures there.
fn check_hop(e: usize, own: Aggregate, table: &[u32], figures: &[u64]) -> Result<(), Cause>
    requires e_lt_queues_most { (e < queues_most) × ((length table.now ≡ table_numbers) × Limited figures.now) }
    requires e_bound { speed_at table.now (link_in e) ≤ 10000 }
    requires limited_level { LimitedLevel (aggregate_of own) }
    ensures { finding_of result ≡ cause_with table.now figures.now e (aggregate_of own) }
{
    let link = link_of(e);
    let mut levels = link_levels(link, figures);
    levels[level_of(e)] = own;
    find_on(link, levels, table)
}

// The links of a path one by one, each with the figures that `own_at` gives for the path's queue, with S over the hops before:
// 21 for the link, then level by level 22 before 23.
fn check_path<F: Fn(usize, Micros) -> Aggregate>(
    own_at: F,
    table: &[u32],
    figures: &[u64],
    entries: &[u32],
) -> Result<(), Cause>
    requires hops { Hops table.now entries.now }
    requires speeds { Speeds table.now entries.now × Limited figures.now }
    requires callable { (i : ℕ) (sum : Micros) → SumAt table.now entries.now i sum.0 → F.pre own_at (get_or entries.now i 0) sum }
    requires limited { (i : ℕ) (sum : Micros) (own : Aggregate) → SumAt table.now entries.now i sum.0 → F.post own_at (get_or entries.now i 0) sum own → LimitedLevel (aggregate_of own) }
    ensures { Answered (F.post own_at) table.now figures.now entries.now result }
{
    let mut sum = Micros(0);
    for &entry in entries {
        let e = entry as usize;
        check_hop(e, own_at(e, sum), table, figures)?;
        sum = sum_past(sum, e, table);
    }
    Ok(())
}

// The links of a path with the flow counted in at its levels, with its share at each. The answer is free where the path
// meets a link twice or leaves the table, or where the figures are no flows' on the table.
pub fn check_links(
    share: Aggregate,
    table: &[u32],
    figures: &[u64],
    entries: &[u32],
) -> Result<(), Cause>
    requires at_source { AtSource (aggregate_of share) }
    requires hops { Hops table.now entries.now }
    requires speeds { Speeds table.now entries.now × Limited figures.now }
    ensures { PathChecked (aggregate_of share) table.now figures.now entries.now result }
{
    check_path(
        |e, sum| counted_at(share, sum, e, figures),
        table,
        figures,
        entries,
    )
}

// The same with a flow that the figures hold: it is counted by `share` in place of `was`, whose largest frame it keeps.
pub fn check_change(
    was: Aggregate,
    share: Aggregate,
    table: &[u32],
    figures: &[u64],
    entries: &[u32],
) -> Result<(), Cause>
    requires at_source { AtSource (aggregate_of was) × AtSource (aggregate_of share) }
    requires hops { Hops table.now entries.now }
    requires speeds { Speeds table.now entries.now × Limited figures.now }
    requires on_table { OnTable table.now entries.now × PathCounted (aggregate_of was) table.now entries.now figures.now }
    ensures { ChangeChecked (aggregate_of was) (aggregate_of share) table.now figures.now entries.now result }
{
    check_path(
        |e, sum| changed_at(was, share, sum, e, figures),
        table,
        figures,
        entries,
    )
}

// Whether a link, counted from 0, meets 21 to 23 with these figures.
fn link_meets(link: usize, table: &[u32], figures: &[u64]) -> bool
    requires link_lt_links_most { (link < links_most) × ((length table.now ≡ table_numbers) × Limited figures.now) }
    requires link_bound { speed_at table.now link ≤ 10000 }
    ensures { result ≡ eqb (code_at table.now figures.now link) 0 }
{
    find_on(link, link_levels(link, figures), table).is_ok()
}

// Whether every link meets 21 to 23 with these figures. The answer is free where they are no flows' on the table.
pub fn links_meet(table: &[u32], figures: &[u64]) -> bool
    requires well_formed { WellFormed table.now × Limited figures.now }
    requires link_speeds { LinkSpeeds table.now }
    ensures { LinksMet table.now figures.now result }
{
    (0..link_count(table)).all(|link| link_meets(link, table, figures))
}
