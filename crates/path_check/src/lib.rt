// What a path must meet by itself (document 01, "Who can cause which refusal"): 14, 16, 15 at their first hop, and the
// sum of thresholds and fixed delays that 20 asks for.
//
// A path's entries name its queues, one number each (`queue_table::entry_at`). A search answers the index of the hop that
// it finds; of hops with the same link and level it may answer any.
#![tactic(auto)]

ghost use Rattle.std.specs.Prelude.{◌≡◌, true, [], ◌∷◌, map, ◌≤◌, ◌<◌, ◌^◌, length, IfSome};
ghost use Rattle.model.specs.Words.{All, is_none};
ghost use Rattle.model.specs.Sizes.{queues_most, hops_most};
ghost use Rattle.model.specs.Reference.{at_hop, no_queue, met_earlier, starts_elsewhere, path_delay};
ghost use Rattle.queue_table.specs.View.{table_numbers, table_of, hop_at, is_queue, AllQueues, WellFormed};
ghost use Rattle.orders.specs.View.{hop_named};
ghost use Rattle.path_check.specs.View.{delay_at, found_cause, EntryOf, PathLocated};

use orders::Path;
use queue_table::Hop;
use units::Micros;

// The entry of a hop, whose link and level can have any value; none where the table has no such queue.
fn entry_of(table: &[u32], hop: Hop) -> Option<u32>
    requires { WellFormed table.now }
    ensures { EntryOf table.now (hop_named hop) result }
{
    let i = hop.link.checked_sub(1)? as usize;
    if queue_table::link_count(table) <= i {
        return None;
    }
    let j = hop.level.checked_sub(1)?;
    let found = queue_table::link_at(i, table);
    if found.levels <= j {
        return None;
    }
    Some(queue_table::entry_at(i, j as usize) as u32)
}

// 14 no such queue, over the hops of an order line: the path, or the index of the first hop without a queue.
pub fn locate(table: &[u32], hops: &[Hop], count: usize) -> Result<Path, usize>
    requires { WellFormed table.now × (length hops.now ≡ hops_most) × (count ≤ hops_most) }
    ensures { PathLocated table.now hops.now count result }
{
    let mut path = Path::new();
    for i in 0..count {
        let entry = entry_of(table, hops[i]).ok_or(i)?;
        path.push(entry);
    }
    Ok(path)
}

// Whether no entry is against 14.
pub fn all_queues(table: &[u32], entries: &[u32]) -> bool
    requires { WellFormed table.now }
    ensures { result ≡ is_none (at_hop 14 (no_queue (table_of table.now)) [] (map hop_at entries.now)) }
{
    entries
        .iter()
        .all(|entry| queue_table::is_queue(*entry as usize, table))
}

// 16 a link met earlier on the path, in one pass: a link is a bit of `met`, set once a hop is on it.
pub fn repeated(entries: &[u32]) -> Option<usize>
    requires { All (λ e. e < queues_most) entries.now }
    ensures entries_value { at_hop 16 met_earlier [] (map hop_at entries.now) ≡ found_cause 16 (map hop_at entries.now) result }
    ensures within { IfSome result (λ i. i < length entries.now) }
{
    let mut met: u64 = 0;
    for (i, entry) in entries.iter().enumerate() {
        let link = queue_table::link_of(*entry as usize);
        if (met >> link) % 2 == 1 {
            return Some(i);
        }
        met |= 1 << link;
    }
    None
}

// Whether a hop doesn't start where the one before it ended.
fn starts_elsewhere(table: &[u32], before: u32, here: u32) -> bool
    requires { WellFormed table.now × (is_queue table.now before ≡ true) × (is_queue table.now here ≡ true) }
    ensures { result ≡ starts_elsewhere (table_of table.now) (hop_at before ∷ []) (hop_at here) }
{
    let end = queue_table::link_at(queue_table::link_of(before as usize), table).to;
    let start = queue_table::link_at(queue_table::link_of(here as usize), table).from;
    start != end
}

// 15 a link doesn't start where the one before ended.
pub fn broken(table: &[u32], entries: &[u32]) -> Option<usize>
    requires { WellFormed table.now × AllQueues table.now entries.now }
    ensures entries_value { at_hop 15 (starts_elsewhere (table_of table.now)) [] (map hop_at entries.now) ≡ found_cause 15 (map hop_at entries.now) result }
    ensures within { IfSome result (λ i. i < length entries.now) }
{
    for i in 1..entries.len() {
        if starts_elsewhere(table, entries[i - 1], entries[i]) {
            return Some(i);
        }
    }
    None
}

// A hop's part of the sum held against the deadline: the threshold of its queue and the fixed delay of its link, of 32 bits each.
fn hop_delay(entry: usize, table: &[u32]) -> Micros
    requires { (entry < queues_most) × (length table.now ≡ table_numbers) }
    ensures { (result.0 ≡ delay_at table.now entry) × (result.0 < 2 ^ 33) }
{
    let queue = queue_table::queue_at(entry, table);
    let link = queue_table::link_at(queue_table::link_of(entry), table);
    Micros(queue.threshold.0 + link.fixed.0)
}

// The sum of the thresholds and fixed delays along a path; MOST_HOPS of them fit.
pub fn path_delay(table: &[u32], entries: &[u32]) -> Micros
    requires { WellFormed table.now × AllQueues table.now entries.now × (length entries.now ≤ hops_most) }
    ensures { result.0 ≡ path_delay (table_of table.now) (map hop_at entries.now) }
{
    let mut sum: u64 = 0;
    for entry in entries {
        sum += hop_delay(*entry as usize, table).0;
    }
    Micros(sum)
}
