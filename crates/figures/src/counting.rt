// A flow counted in at each queue of its path, counted there by another share and taken out, and largest frames raised again.
ghost use Rattle.std.specs.Prelude.{◌≡◌, false, ◌+◌, ◌*◌, ◌^◌, ◌≤◌, ◌<◌, length};
ghost use Rattle.model.specs.Words.{All};
ghost use Rattle.model.specs.Sizes.{queues_most};
ghost use Rattle.model.specs.WithFlow.{together};
ghost use Rattle.units.specs.View.{aggregate_of, AtSource};
ghost use Rattle.figures.specs.View.{frame_position, figure_numbers, figure_at, Below, LimitedShare, figure_stored, Hops, PathAdded, PathCounted, PathChanged, HopRemoved, PathRemoved, FrameRaised};

use crate::shares::{changed_at, share_at, sum_past};
use crate::{BURST, FRAME, OWN_NUMBERS};
use units::{Aggregate, Bytes, Micros};

// Counts a flow in at queue e, with its share there.
fn add_hop(e: usize, share: Aggregate, figures: &mut [u64])
    requires e_lt_queues_most { (e < queues_most) × ((length figures.old ≡ figure_numbers) × Below (2 ^ 63) figures.old) }
    requires limited_share { LimitedShare (aggregate_of share) }
    ensures { figures.new ≡ figure_stored figures.old e (together (figure_at figures.old e) (aggregate_of share)) }
{
    let at = OWN_NUMBERS * e;
    figures[at] += share.rate.0;
    figures[at + BURST] += share.burst.0;
    figures[at + FRAME] = figures[at + FRAME].max(share.frame.0);
}

// Counts a flow in at each queue of its path.
pub fn add_path(share: Aggregate, table: &[u32], entries: &[u32], figures: &mut [u64])
    requires at_source { AtSource (aggregate_of share) }
    requires hops { Hops table.now entries.now }
    requires figures_len { (length figures.old ≡ figure_numbers) × Below (2 ^ 62) figures.old }
    ensures { PathAdded (aggregate_of share) table.now entries.now figures.old figures.new }
{
    let mut sum = Micros(0);
    for &entry in entries {
        let e = entry as usize;
        add_hop(e, share_at(share, sum), figures);
        sum = sum_past(sum, e, table);
    }
}

// Stores the figures of queue e.
#[tactic(auto, unfolding(crate::specs::View::figure_stored))]
fn store_hop(e: usize, own: Aggregate, figures: &mut [u64])
    requires { (e < queues_most) × (length figures.old ≡ figure_numbers) }
    ensures { figures.new ≡ figure_stored figures.old e (aggregate_of own) }
{
    let first = OWN_NUMBERS * e;
    figures[first] = own.rate.0;
    figures[first + BURST] = own.burst.0;
    figures[first + FRAME] = own.frame.0;
}

// Counts a flow by `share` in place of `was` at each queue of its path. Largest frames stay.
pub fn change_path(
    was: Aggregate,
    share: Aggregate,
    table: &[u32],
    entries: &[u32],
    figures: &mut [u64],
)
    requires at_source { AtSource (aggregate_of was) × AtSource (aggregate_of share) }
    requires hops { Hops table.now entries.now }
    requires below { Below (2 ^ 62) figures.old × PathCounted (aggregate_of was) table.now entries.now figures.old }
    ensures { PathChanged (aggregate_of was) (aggregate_of share) table.now entries.now figures.old figures.new }
{
    let mut sum = Micros(0);
    for &entry in entries {
        let e = entry as usize;
        store_hop(e, changed_at(was, share, sum, e, figures), figures);
        sum = sum_past(sum, e, table);
    }
}

// Takes a flow out at queue e, with its share there. Answers whether the largest frame, 0 then, must be worked out anew.
#[tactic(auto, unfolding(crate::specs::View::figure_at))]
fn remove_hop(e: usize, share: Aggregate, figures: &mut [u64]) -> bool
    requires e_lt_queues_most { (e < queues_most) × (length figures.old ≡ figure_numbers) }
    requires rate_bound { (share.rate.0 ≤ (figure_at figures.old e).rate) × (share.burst.0 ≤ (figure_at figures.old e).burst) }
    ensures { HopRemoved (aggregate_of share) figures.old e figures.new result }
{
    let first = OWN_NUMBERS * e;
    figures[first] -= share.rate.0;
    figures[first + BURST] -= share.burst.0;
    if figures[first] == 0 {
        figures[first + FRAME] = 0;
        return false;
    }
    if share.frame.0 < figures[first + FRAME] {
        return false;
    }
    figures[first + FRAME] = 0;
    true
}

// Takes a flow out at each queue of its path. Answers whether a queue of it may hold too small a largest frame then: one
// that was the flow's own is 0 until the frames are raised again.
pub fn remove_path(share: Aggregate, table: &[u32], entries: &[u32], figures: &mut [u64]) -> bool
    requires at_source { AtSource (aggregate_of share) }
    requires hops { Hops table.now entries.now }
    requires path_counted { PathCounted (aggregate_of share) table.now entries.now figures.old }
    ensures { PathRemoved (aggregate_of share) table.now entries.now figures.old figures.new result }
{
    let mut sum = Micros(0);
    let mut again = false;
    for &entry in entries {
        let e = entry as usize;
        again |= remove_hop(e, share_at(share, sum), figures);
        sum = sum_past(sum, e, table);
    }
    again
}

// Where the largest frame of the queue of a hop entry stands.
fn frame_index(entry: u32) -> usize
    requires { entry < queues_most }
    ensures { (result ≡ frame_position entry) × (result < figure_numbers) }
{
    OWN_NUMBERS * (entry as usize) + FRAME
}

// Whether a queue of the path may have a smaller largest frame. It only reads, which is faster than a loop that may store.
fn any_lower(frame: Bytes, entries: &[u32], figures: &[u64]) -> bool
    requires { All (λ e. e < queues_most) entries.now × (length figures.now ≡ figure_numbers) }
    ensures { result ≡ false → FrameRaised frame.0 entries.now figures.now figures.now }
{
    for &entry in entries {
        if figures[frame_index(entry)] < frame.0 {
            return true;
        }
    }
    false
}

// Raises the largest frame at each queue of a path to at least this one, queue by queue.
fn raise_each(frame: Bytes, entries: &[u32], figures: &mut [u64])
    requires { All (λ e. e < queues_most) entries.now × (length figures.old ≡ figure_numbers) }
    ensures { FrameRaised frame.0 entries.now figures.old figures.new }
{
    for &entry in entries {
        let at = frame_index(entry);
        figures[at] = figures[at].max(frame.0);
    }
}

// Raises the largest frame at each queue of a path to at least this one.
pub fn raise_path(frame: Bytes, entries: &[u32], figures: &mut [u64])
    requires { All (λ e. e < queues_most) entries.now × (length figures.old ≡ figure_numbers) }
    ensures { FrameRaised frame.0 entries.now figures.old figures.new }
{
    if any_lower(frame, entries, figures) {
        raise_each(frame, entries, figures);
    }
}
