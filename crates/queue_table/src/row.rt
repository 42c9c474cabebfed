// One table line: its numbers, and what is against it after the links before (document 01, codes 1 to 4).
ghost use Rattle.std.specs.Prelude.{◌≡◌, ◌+◌, ◌≤◌, ◌<◌, List, length};
ghost use Rattle.columns.specs.View.{value_of};
ghost use Rattle.model.specs.Sizes.{links_most};
ghost use Rattle.model.specs.QueueTable.{Link, is_row_length, later_field, row, best_effort_in_range, row_in_range, begins, continues, row_in_turn, same_link, row_agrees, row_cause};
ghost use Rattle.queue_table.specs.View.{table_numbers, row_of, numbers_of, links_of, code_of};

use crate::access::link_at;
use crate::{BASE_COLUMNS, BEST_EFFORT_COLUMNS, DELAY_COLUMNS, Fault, LEVELS, LINKS};
use std::marker::Model;

// The numbers of one table line.
#[derive(Clone, Copy)]
pub(crate) struct Row {
    pub(crate) link: u32,
    pub(crate) from: u32,
    pub(crate) to: u32,
    pub(crate) speed: u32,
    pub(crate) level: u32,
    pub(crate) threshold: u32,
    pub(crate) buffer: u32,
    pub(crate) fixed: u32,
    pub(crate) besteffort: u32,
}

// A line may have so many columns.
#[tactic(auto, unfolding(model::specs::QueueTable::is_row_length))]
fn is_row_length(columns: usize) -> bool
    ensures { result ≡ is_row_length columns }
{
    columns == BASE_COLUMNS || columns == DELAY_COLUMNS || columns == BEST_EFFORT_COLUMNS
}

// A field that shorter lines haven't: there it is 0.
#[tactic(auto, unfolding(model::specs::QueueTable::later_field))]
fn later_field(line: &[u8], first: usize, last: usize) -> Option<u32>
    requires { (1 ≤ first) × ((first ≤ last) × (last < first + 9)) }
    ensures { value_of result ≡ later_field first last line.now }
{
    if line.len() < last {
        return Some(0);
    }
    columns::read_at(line, first, last)
}

// A best-effort frame: none, or as long as a frame is.
#[tactic(auto, unfolding(model::specs::QueueTable::best_effort_in_range))]
fn best_effort_in_range(bytes: u32) -> bool
    ensures { result ≡ best_effort_in_range bytes }
{
    bytes == 0 || columns::within(84, 1542, u64::from(bytes))
}

impl Row {
    // 1: the numbers of a line, none where its columns are wrong.
    #[tactic(auto, unfolding(model::specs::QueueTable::row, model::specs::QueueTable::row_fields))]
    pub(crate) fn read(line: &[u8]) -> Option<Self>
        ensures { row_of result ≡ row line.now }
    {
        if !is_row_length(line.len()) {
            return None;
        }
        Some(Row {
            link: columns::read_at(line, 1, 4)?,
            from: columns::read_at(line, 5, 8)?,
            to: columns::read_at(line, 9, 12)?,
            speed: columns::read_at(line, 13, 18)?,
            level: columns::read_at(line, 19, 20)?,
            threshold: columns::read_at(line, 21, 27)?,
            buffer: columns::read_at(line, 28, 36)?,
            fixed: later_field(line, 37, 43)?,
            besteffort: later_field(line, 44, 48)?,
        })
    }

    // 2: each number is in its range.
    #[tactic(auto, unfolding(model::specs::QueueTable::row_in_range))]
    pub(crate) fn in_range(self) -> bool
        ensures { result ≡ row_in_range (numbers_of self) }
    {
        columns::within(1, 9999, u64::from(self.from))
            && columns::within(1, 9999, u64::from(self.to))
            && columns::within(1, 10_000, u64::from(self.speed))
            && columns::within(1, 100_000, u64::from(self.threshold))
            && columns::within(1, 16_777_215, u64::from(self.buffer))
            && columns::within(0, 10_000, u64::from(self.fixed))
            && best_effort_in_range(self.besteffort)
    }
}

// The first `count` links of an array: while a table is read, the links so far.
#[derive(Drop)]
pub(crate) struct Links<'a> {
    pub(crate) count: usize,
    pub(crate) table: &'a [u32],
}

impl<'a> Model for Links<'a> {
    ghost Value = { List Link };

    ghost view = { λ links. links_of links.count links.table.now };

    ghost invariant = { λ links. (links.count ≤ links_most) × (length links.table.now ≡ table_numbers) };
}

impl Links<'_> {
    // The line is level 1 of the next link.
    #[tactic(auto, using(crate::proofs::ViewLaws::begins_at))]
    fn begins(&self, r: Row) -> bool
        ensures { result ≡ begins self.now (numbers_of r) }
    {
        r.link as usize == self.count + 1 && r.level == 1
    }

    // The line is the next level of the newest link.
    #[tactic(auto, using(crate::proofs::ViewLaws::continues_none, crate::proofs::ViewLaws::continues_at))]
    fn continues(&self, r: Row) -> bool
        ensures { result ≡ continues self.now (numbers_of r) }
    {
        self.count != 0
            && r.link as usize == self.count
            && r.level != 0
            && link_at(self.count - 1, self.table).levels == r.level - 1
    }

    // 3: link and level are in turn, and not past the most of either.
    #[tactic(auto, unfolding(model::specs::QueueTable::row_in_turn))]
    fn in_turn(&self, r: Row) -> bool
        ensures { result ≡ row_in_turn self.now (numbers_of r) }
    {
        r.link as usize <= LINKS
            && r.level as usize <= LEVELS
            && (self.begins(r) || self.continues(r))
    }

    // The line has all that is the link's as the newest link has it.
    #[tactic(auto, using(crate::proofs::ViewLaws::same_none, crate::proofs::ViewLaws::same_at))]
    fn same_link(&self, r: Row) -> bool
        ensures { result ≡ same_link self.now (numbers_of r) }
    {
        if self.count == 0 {
            return false;
        }
        let newest = link_at(self.count - 1, self.table);
        r.from == newest.from
            && r.to == newest.to
            && r.speed == newest.speed
            && u64::from(r.fixed) == newest.fixed.0
            && u64::from(r.besteffort) == newest.besteffort.0
    }

    // 4: from and to are two nodes, and all that is the link's is the same within a link.
    #[tactic(auto, unfolding(model::specs::QueueTable::row_agrees))]
    fn agrees(&self, r: Row) -> bool
        ensures { result ≡ row_agrees self.now (numbers_of r) }
    {
        r.from != r.to && (self.begins(r) || self.same_link(r))
    }

    // The first cause, 2 to 4, against a further line.
    #[tactic(auto, unfolding(model::specs::QueueTable::row_cause))]
    pub(crate) fn judge(&self, r: Row) -> Result<(), Fault>
        ensures { code_of result ≡ row_cause self.now (numbers_of r) }
    {
        if !r.in_range() {
            return Err(Fault::OutOfRange);
        }
        if !self.in_turn(r) {
            return Err(Fault::OutOfTurn);
        }
        if !self.agrees(r) {
            return Err(Fault::Disagrees);
        }
        Ok(())
    }
}
