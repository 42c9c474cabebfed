// Whether an array of any content holds a table that passes 2 to 4 (document 01, code 42).
ghost use Rattle.std.specs.Prelude.{◌≡◌, ◌<◌, length};
ghost use Rattle.model.specs.Sizes.{links_most, levels_most};
ghost use Rattle.model.specs.QueueTable.{row_in_range};
ghost use Rattle.model.specs.Consistent as model;
ghost use Rattle.queue_table.specs.View.{table_numbers, queue_at, link_at, table_of};

use crate::access::{entry_at, link_at, link_count, queue_at};
use crate::row::Row;
use crate::{LEVELS, LINKS};

// 2 of level p of link i, both counted from 0.
#[tactic(auto, unfolding(model::specs::Consistent::row_of, crate::specs::View::queue_at, crate::specs::View::link_at))]
fn level_in_range(i: usize, p: usize, table: &[u32]) -> bool
    requires { (i < links_most) × (p < levels_most) × (length table.now ≡ table_numbers) }
    ensures { result ≡ row_in_range (model.row_of (link_at table.now i) (queue_at table.now i p)) }
{
    let link = link_at(i, table);
    let queue = queue_at(entry_at(i, p), table);
    let row = Row {
        link: 0,
        from: link.from,
        to: link.to,
        speed: link.speed,
        level: 0,
        threshold: queue.threshold.0 as u32,
        buffer: queue.buffer.0 as u32,
        fixed: link.fixed.0 as u32,
        besteffort: link.besteffort.0 as u32,
    };
    row.in_range()
}

// Whether link i passes 2 to 4. Its number of levels is of any value, so it is judged before they are read.
#[tactic(auto, using(crate::proofs::ConsistentLaws::link_at_numbers), unfolding(model::specs::Columns::between))]
fn link_consistent(i: usize, table: &[u32]) -> bool
    requires { (i < links_most) × (length table.now ≡ table_numbers) }
    ensures { result ≡ model.link_consistent (link_at table.now i) }
{
    let link = link_at(i, table);
    let levels = link.levels as usize;
    levels != 0
        && levels <= LEVELS
        && link.from != link.to
        && (0..levels).all(|p| level_in_range(i, p, table))
}

// Whether an array of any content holds a table that passes 2 to 4.
#[tactic(auto, using(crate::proofs::ConsistentLaws::table_at))]
pub fn consistent(table: &[u32]) -> bool
    requires { length table.now ≡ table_numbers }
    ensures { result ≡ model.table_consistent (table_of table.now) }
{
    let n = link_count(table);
    n <= LINKS && (0..n).all(|i| link_consistent(i, table))
}
