// The figures of the queues (document 01, "The book"), in one array, and how they are read. `shares` says what a flow adds
// at each hop, `counting` holds what a path adds to the figures, changes and takes out, `checking` the check of each link on
// a path with its flow counted in, and of every link.
//
// A hop entry names a queue as in `queue_table`. Queue e has its rate sum, burst sum and largest frame one after the
// other in `figures`; only this crate indexes that array. Why nothing overflows is said in `units`.
#![tactic(auto)]

mod checking;
mod counting;
mod shares;

ghost use Rattle.std.specs.Prelude.{◌≡◌, true, false, ◌↔◌, ◌<◌, length};
ghost use Rattle.model.specs.Sizes.{links_most, queues_most};
ghost use Rattle.units.specs.View.{aggregate_of};
ghost use Rattle.link_check.specs.View.{aggregates_of};
ghost use Rattle.figures.specs.View.{figure_numbers, figure_at, level_figures, Below, Limited};

pub use checking::{check_change, check_links, links_meet};
pub use counting::{add_path, change_path, raise_path, remove_path};
use queue_table::{LEVELS, QUEUES, entry_at};
use std::array;
use units::{Aggregate, Bytes, Rate};

// How many numbers a queue has in the array, and where they stand among these: the rate sum stands first.
const OWN_NUMBERS: usize = 3;

const BURST: usize = 1;

const FRAME: usize = 2;

// How many numbers the array has.
pub const FIGURE_NUMBERS: usize = OWN_NUMBERS * QUEUES;

// The figures of queue e.
#[tactic(auto, unfolding(crate::specs::View::figure_at))]
pub fn figure(e: usize, figures: &[u64]) -> Aggregate
    requires { (e < queues_most) × (length figures.now ≡ figure_numbers) }
    ensures { aggregate_of result ≡ figure_at figures.now e }
{
    Aggregate {
        rate: Rate(figures[OWN_NUMBERS * e]),
        burst: Bytes(figures[OWN_NUMBERS * e + BURST]),
        frame: Bytes(figures[OWN_NUMBERS * e + FRAME]),
    }
}

// The figures of a link's eight levels, the link counted from 0.
pub(crate) fn link_levels(link: usize, figures: &[u64]) -> [Aggregate; LEVELS]
    requires { (link < links_most) × (length figures.now ≡ figure_numbers) }
    ensures { aggregates_of result ≡ level_figures figures.now link }
{
    array::from_fn(|p| figure(entry_at(link, p), figures))
}

// The largest burst sum of a queue of a consistent registry: its buffer is a number of 32 bits.
const MOST_BURST: u64 = 4_294_967_296;

// Whether the figures are small enough for the formulas. Those of a consistent registry are.
pub fn limited(figures: &[u64]) -> bool
    requires { length figures.now ≡ figure_numbers }
    ensures { (result ≡ true) ↔ Limited figures.now }
{
    (0..QUEUES).all(|e| {
        let own = figure(e, figures);
        own.rate.0 <= 10_000_000 && own.burst.0 <= MOST_BURST && own.frame.0 <= 1542
    })
}

// The figures of no flow.
pub fn clear(figures: &mut [u64])
    requires { length figures.old ≡ figure_numbers }
    ensures { (length figures.new ≡ figure_numbers) × Below 0 figures.new }
{
    figures.fill(0);
}

// Whether two arrays of figures are equal.
pub fn same(a: &[u64], b: &[u64]) -> bool
    requires { (length a.now ≡ figure_numbers) × (length b.now ≡ figure_numbers) }
    ensures a_value { result ≡ true → a.now ≡ b.now }
    ensures fact { result ≡ false → a.now ≡ b.now → ⊥ }
{
    a == b
}
