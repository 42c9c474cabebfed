// Where the numbers of links and queues stand in the array, and how they are read.
//
// A hop entry names a queue by one number, `entry_at`: eight to a link, link and level counted from 0.
ghost use Rattle.std.specs.Prelude.{◌≡◌, ◌+◌, ◌≤◌, ◌<◌, ◌^◌, length};
ghost use Rattle.model.specs.Sizes.{links_most, levels_most, queues_most};
ghost use Rattle.queue_table.specs.View.{table_numbers, link_position, queue_position, link_count, from_at, to_at, speed_at, levels_at, fixed_delay_at, best_effort_at, threshold_at, buffer_at, entry_at, link_in, level_in, is_queue};

use crate::{COUNT, LEVELS, LINK_NUMBERS, LINKS, QUEUE_NUMBERS};
use units::{Bytes, Micros};

// The numbers of a link; its speed is in Mbit/s, `fixed` is its fixed delay, `besteffort` its best-effort frame.
#[derive(Clone, Copy)]
pub struct Link {
    pub from: u32,
    pub to: u32,
    pub speed: u32,
    pub levels: u32,
    pub fixed: Micros,
    pub besteffort: Bytes,
}

#[derive(Clone, Copy)]
pub struct Queue {
    pub threshold: Micros,
    pub buffer: Bytes,
}

// A queue as an order line names it: its link and level, both counted from 1.
#[derive(Clone, Copy, Debug, PartialEq, Eq)]
pub struct Hop {
    pub link: u32,
    pub level: u32,
}

// The entry of level `level` on link `link`, both counted from 0.
pub fn entry_at(link: usize, level: usize) -> usize
    requires { (link < links_most) × (level < levels_most) }
    ensures { (result ≡ entry_at link level) × (result < queues_most) }
{
    LEVELS * link + level
}

// The link of an entry.
pub fn link_of(e: usize) -> usize
    ensures { result ≡ link_in e }
{
    e / LEVELS
}

// The level of an entry.
pub fn level_of(e: usize) -> usize
    ensures { (result ≡ level_in e) × (result < levels_most) }
{
    e % LEVELS
}

// The hop of an entry.
pub fn hop_at(entry: u32) -> Hop
    ensures { (result.link ≡ link_in entry + 1) × (result.level ≡ level_in entry + 1) }
{
    let e = entry as usize;
    Hop {
        link: link_of(e) as u32 + 1,
        level: level_of(e) as u32 + 1,
    }
}

pub(crate) fn link_position(i: usize) -> usize
    requires { i < links_most }
    ensures { result ≡ link_position i }
{
    LINK_NUMBERS * i
}

pub(crate) fn queue_position(e: usize) -> usize
    requires { e < queues_most }
    ensures { result ≡ queue_position e }
{
    LINK_NUMBERS * LINKS + QUEUE_NUMBERS * e
}

// How many links there are.
#[tactic(auto, unfolding(crate::specs::View::link_count))]
pub fn link_count(table: &[u32]) -> usize
    requires { length table.now ≡ table_numbers }
    ensures { (result ≡ link_count table.now) × (result < 2 ^ 32) }
{
    table[COUNT] as usize
}

// Link i.
#[tactic(auto, unfolding(crate::specs::View::from_at, crate::specs::View::to_at, crate::specs::View::speed_at, crate::specs::View::levels_at, crate::specs::View::fixed_delay_at, crate::specs::View::best_effort_at))]
pub fn link_at(i: usize, table: &[u32]) -> Link
    requires { (i < links_most) × (length table.now ≡ table_numbers) }
    ensures from_value { (result.from ≡ from_at table.now i) × (result.to ≡ to_at table.now i) }
    ensures speed_value { (result.speed ≡ speed_at table.now i) × (result.levels ≡ levels_at table.now i) × (result.fixed.0 ≡ fixed_delay_at table.now i) × (result.fixed.0 < 2 ^ 32) × (result.besteffort.0 ≡ best_effort_at table.now i) × (result.besteffort.0 < 2 ^ 32) }
{
    let at = link_position(i);
    Link {
        from: table[at],
        to: table[at + 1],
        speed: table[at + 2],
        levels: table[at + 3],
        fixed: Micros(u64::from(table[at + 4])),
        besteffort: Bytes(u64::from(table[at + 5])),
    }
}

// Queue e.
#[tactic(auto, unfolding(crate::specs::View::threshold_at, crate::specs::View::buffer_at))]
pub fn queue_at(e: usize, table: &[u32]) -> Queue
    requires { (e < queues_most) × (length table.now ≡ table_numbers) }
    ensures threshold_value { (result.threshold.0 ≡ threshold_at table.now e) × (result.buffer.0 ≡ buffer_at table.now e) }
    ensures threshold_bound { (result.threshold.0 < 2 ^ 32) × (result.buffer.0 < 2 ^ 32) }
{
    let at = queue_position(e);
    Queue {
        threshold: Micros(u64::from(table[at])),
        buffer: Bytes(u64::from(table[at + 1])),
    }
}

// Whether an entry of any value names a queue of the table.
#[tactic(auto, unfolding(crate::specs::View::is_queue))]
pub fn is_queue(e: usize, table: &[u32]) -> bool
    requires { (length table.now ≡ table_numbers) × (link_count table.now ≤ links_most) }
    ensures { result ≡ is_queue table.now e }
{
    let i = link_of(e);
    i < link_count(table) && level_of(e) < link_at(i, table).levels as usize
}
