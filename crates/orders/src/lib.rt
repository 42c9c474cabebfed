// What an order line says (document 01, "Columns", order lines).
#![tactic(auto)]

mod path;

ghost use Rattle.std.specs.Prelude.{◌≡◌, List, ◌≤◌, Ok, IfOk};
ghost use Rattle.model.specs.Sizes.{hops_most};
ghost use Rattle.model.specs.Columns.{field_at, lines};
ghost use Rattle.model.specs.Orders.{kind_number, kind_of_number, read_order, release_line, change_line, registration, change_fields, number_in_range, rate_in_range, burst_in_range, frame_in_range, change_in_range, head_fields, head_in_range, hop_field, path_fields};
ghost use Rattle.model.specs.Reference.{line_of_kind, only_line};
ghost use Rattle.queue_table.specs.declared.access.Hop.{Hop};
ghost use Rattle.orders.specs.declared.Unread.TheVariants.{OutOfRange};
ghost use Rattle.orders.specs.View.{kind_of, kind_in, change_of, order_with, read_as, order_of, hops_fit, fields_of, source_of, head_of, hop_of, path_of};

pub use path::Path;
use queue_table::Hop;
use units::{Aggregate, Bytes, Micros, Rate};

// The bytes of the smallest frame.
pub const SMALLEST_FRAME: u64 = 84;

// The greatest flow number.
pub const MOST_NUMBER: usize = 65535;

// How many hops a path has at the most.
pub const MOST_HOPS: usize = 12;

// Columns of a registration before its hops, and of each hop.
pub const HEAD_COLUMNS: usize = 41;

pub const HOP_COLUMNS: usize = 6;

// A flow as its line gives it. Its hops stand beside it, in an `OrderLine`.
#[derive(Clone, Copy)]
pub struct Flow {
    pub number: u32,
    // Rate, burst and largest frame at its source.
    pub share: Aggregate,
    pub deadline: Micros,
    // How many hops the path has.
    pub hops: u32,
}

// What a line or a call asks for.
#[derive(Clone, Copy, Debug, PartialEq, Eq)]
pub enum Kind {
    Register,
    Release,
    Change,
}

// A number that stands for no kind.
#[derive(Clone, Copy, Debug, PartialEq, Eq)]
pub struct OtherKind;

#[derive(Clone, Copy)]
pub enum Order {
    // With a whole flow.
    Register(Flow),
    // With a flow number.
    Release(u32),
    // With a flow number, and its new rate and burst.
    Change(Change),
}

// Why a line gives no order.
#[derive(Clone, Copy, Debug, PartialEq, Eq)]
pub enum Unread {
    // 10: columns wrong.
    Malformed,
    // 11: out of range.
    OutOfRange,
}

// The rate and burst that a line gives to the flow with this number.
#[derive(Clone, Copy)]
pub struct Change {
    pub number: u32,
    pub rate: Rate,
    pub burst: Bytes,
}

// What stands where no hops were read: no queue has this link or level.
const NO_HOPS: [Hop; MOST_HOPS] = [Hop { link: 0, level: 0 }; MOST_HOPS];

// An order with its hops, or why a line gives none.
type Reading = Result<(Order, [Hop; MOST_HOPS]), Unread>;

// What a line gives, and the hops of its path where that is a registration: the first `hops` of them. The rest is free.
#[derive(Clone, Copy)]
pub struct OrderLine {
    pub order: Result<Order, Unread>,
    pub hops: [Hop; MOST_HOPS],
}

#[tactic(auto, unfolding(model::specs::Orders::release_line, model::specs::Orders::release_of))]
fn read_release(line: &[u8]) -> Result<Order, Unread>
    ensures result_value { (hops : List Hop) → order_with result hops ≡ release_line line.now }
    ensures hops_fit { hops_fit result }
{
    if line.len() != 8 {
        return Err(Unread::Malformed);
    }
    let number = columns::read_at(line, 3, 8).ok_or(Unread::Malformed)?;
    if !number_in_range(number) {
        return Err(Unread::OutOfRange);
    }
    Ok(Order::Release(number))
}

// The flow number, rate and burst, with which a registration and a change begin.
#[tactic(auto, unfolding(model::specs::Orders::change_fields))]
fn read_source(line: &[u8]) -> Option<Change>
    ensures { source_of result ≡ change_fields line.now }
{
    let number = columns::read_at(line, 3, 8)?;
    let rate = columns::read_at(line, 9, 17)?;
    let burst = columns::read_at(line, 18, 25)?;
    Some(Change {
        number,
        rate: Rate(u64::from(rate)),
        burst: Bytes(u64::from(burst)),
    })
}

// The columns of a registration before its hops.
#[tactic(auto, unfolding(model::specs::Orders::head_fields))]
fn read_head(line: &[u8]) -> Option<Flow>
    ensures { head_of result ≡ head_fields line.now }
{
    let source = read_source(line)?;
    let frame = columns::read_at(line, 26, 30)?;
    let deadline = columns::read_at(line, 31, 38)?;
    let hops = columns::read_at(line, 39, 41)?;
    Some(Flow {
        number: source.number,
        share: Aggregate {
            rate: source.rate,
            burst: source.burst,
            frame: Bytes(u64::from(frame)),
        },
        deadline: Micros(u64::from(deadline)),
        hops,
    })
}

// The range of a flow number.
#[tactic(auto, unfolding(model::specs::Orders::number_in_range))]
fn number_in_range(number: u32) -> bool
    ensures { result ≡ number_in_range number }
{
    columns::within(1, MOST_NUMBER as u64, u64::from(number))
}

// The ranges of a rate, a burst and a largest frame.
pub fn rate_in_range(rate: Rate) -> bool
    ensures { result ≡ rate_in_range rate.0 }
{
    columns::within(1, 10_000_000, rate.0)
}

pub fn burst_in_range(burst: Bytes) -> bool
    ensures { result ≡ burst_in_range burst.0 }
{
    columns::within(SMALLEST_FRAME, 1_000_000, burst.0)
}

pub fn frame_in_range(frame: Bytes) -> bool
    ensures { result ≡ frame_in_range frame.0 }
{
    columns::within(SMALLEST_FRAME, 1542, frame.0)
}

// The ranges of a change.
#[tactic(auto, unfolding(model::specs::Orders::change_in_range))]
fn source_in_range(source: Change) -> bool
    ensures { result ≡ change_in_range (change_of source) }
{
    number_in_range(source.number) && rate_in_range(source.rate) && burst_in_range(source.burst)
}

// The ranges of a registration, its hop count aside.
#[tactic(auto, unfolding(model::specs::Orders::head_in_range, model::specs::Orders::change_in_range))]
pub fn in_range(flow: Flow) -> bool
    ensures { result ≡ head_in_range (fields_of flow) }
{
    let source = Change {
        number: flow.number,
        rate: flow.share.rate,
        burst: flow.share.burst,
    };
    source_in_range(source)
        && frame_in_range(flow.share.frame)
        && columns::within(1, 10_000_000, flow.deadline.0)
}

// The link and level of the hop that these columns begin with.
#[tactic(auto, unfolding(model::specs::Orders::hop_field))]
fn read_hop(columns: &[u8]) -> Option<Hop>
    ensures { hop_of result ≡ hop_field columns.now }
{
    let link = columns::read_at(columns, 1, 4)?;
    let level = columns::read_at(columns, 5, 6)?;
    Some(Hop { link, level })
}

// So many hops after the head's columns.
#[tactic(auto, using(crate::proofs::PathLaws::path_laws), unfolding(model::specs::Orders::path_fields))]
fn read_path(line: &[u8], count: u32) -> Option<[Hop; MOST_HOPS]>
    requires { count ≤ hops_most }
    ensures { path_of result count ≡ path_fields count line.now }
{
    let n = count as usize;
    if line.len() != HEAD_COLUMNS + HOP_COLUMNS * n {
        return None;
    }
    let mut hops = NO_HOPS;
    for i in 0..n {
        hops[i] = read_hop(&line[HEAD_COLUMNS + HOP_COLUMNS * i..])?;
    }
    Some(hops)
}

#[tactic(auto, unfolding(model::specs::Orders::registration, model::specs::Orders::registration_of, model::specs::Orders::with_path, model::specs::Orders::hops_in_range, model::specs::Columns::between))]
fn read_registration(line: &[u8]) -> Reading
    ensures result_value { read_as result ≡ registration line.now }
    ensures hops_fit { IfOk result (λ read. hops_fit (Ok read.0)) }
{
    let flow = read_head(line).ok_or(Unread::Malformed)?;
    if !columns::within(1, MOST_HOPS as u64, u64::from(flow.hops)) {
        return Err(Unread::OutOfRange);
    }
    let hops = read_path(line, flow.hops).ok_or(Unread::Malformed)?;
    if !in_range(flow) {
        return Err(Unread::OutOfRange);
    }
    Ok((Order::Register(flow), hops))
}

#[tactic(auto, unfolding(model::specs::Orders::change_line, model::specs::Orders::change_of))]
fn read_change(line: &[u8]) -> Result<Order, Unread>
    ensures result_value { (hops : List Hop) → order_with result hops ≡ change_line line.now }
    ensures hops_fit { hops_fit result }
{
    if line.len() != 25 {
        return Err(Unread::Malformed);
    }
    let source = read_source(line).ok_or(Unread::Malformed)?;
    if !source_in_range(source) {
        return Err(Unread::OutOfRange);
    }
    Ok(Order::Change(source))
}

// Document 01's number of a kind.
impl From<Kind> for u32 {
    ghost from_gives = { λ kind n. n ≡ kind_number (kind_of kind) };

    #[tactic(auto, unfolding(model::specs::Orders::kind_number))]
    fn from(kind: Kind) -> u32 {
        match kind {
            Kind::Register => 1,
            Kind::Release => 2,
            Kind::Change => 3,
        }
    }
}

impl TryFrom<u32> for Kind {
    type Error = OtherKind;

    ghost try_from_gives = { λ number r. kind_in r ≡ kind_of_number number };

    #[tactic(auto, unfolding(model::specs::Orders::kind_of_number, model::specs::Orders::kind_number))]
    fn try_from(number: u32) -> Result<Kind, OtherKind> {
        match number {
            1 => Ok(Kind::Register),
            2 => Ok(Kind::Release),
            3 => Ok(Kind::Change),
            _ => Err(OtherKind),
        }
    }
}

// Another kind is out of range.
impl From<OtherKind> for Unread {
    ghost from_gives = { λ _ unread. unread ≡ OutOfRange };

    fn from(_kind: OtherKind) -> Unread {
        Unread::OutOfRange
    }
}

// The order of a line, without its LF, and its hops.
#[tactic(auto, unfolding(model::specs::Orders::read_order, model::specs::Orders::order_of_kind, model::specs::Orders::kind_order))]
fn read_line(line: &[u8]) -> Reading
    ensures result_value { read_as result ≡ read_order line.now }
    ensures hops_fit { IfOk result (λ read. hops_fit (Ok read.0)) }
{
    let number = columns::read_at(line, 1, 2).ok_or(Unread::Malformed)?;
    match Kind::try_from(number)? {
        Kind::Register => read_registration(line),
        Kind::Release => Ok((read_release(line)?, NO_HOPS)),
        Kind::Change => Ok((read_change(line)?, NO_HOPS)),
    }
}

// The order of a line that has to be of this kind.
#[tactic(auto, unfolding(model::specs::Reference::line_of_kind))]
fn read_own_kind(kind: Kind, line: &[u8]) -> Reading
    ensures result_value { read_as result ≡ line_of_kind (kind_number (kind_of kind)) line.now (field_at 1 2 line.now) }
    ensures hops_fit { IfOk result (λ read. hops_fit (Ok read.0)) }
{
    let found = columns::read_at(line, 1, 2).ok_or(Unread::Malformed)?;
    if found != u32::from(kind) {
        return Err(Unread::OutOfRange);
    }
    read_line(line)
}

// The order of the one line that these bytes have to be.
#[tactic(auto, using(crate::proofs::CallLaws::call_laws), unfolding(model::specs::Reference::only_line))]
fn read_only_line(kind: Kind, bytes: &[u8]) -> Reading
    ensures result_value { read_as result ≡ only_line (kind_number (kind_of kind)) (lines bytes.now) }
    ensures hops_fit { IfOk result (λ read. hops_fit (Ok read.0)) }
{
    if bytes.is_empty() {
        return Err(Unread::Malformed);
    }
    let end = columns::next_line(bytes, 0).ok_or(Unread::Malformed)?;
    if end + 1 < bytes.len() {
        return Err(Unread::Malformed);
    }
    read_own_kind(kind, &bytes[..end])
}

// What was read of a line, as an `OrderLine`.
fn with_hops(read: Reading) -> OrderLine
    requires { IfOk read (λ read. hops_fit (Ok read.0)) }
    ensures result_value { order_of result ≡ read_as read }
    ensures hops_fit { hops_fit result.order }
{
    match read {
        Ok(found) => {
            let hops = found.1;
            OrderLine {
                order: Ok(found.0),
                hops,
            }
        }
        Err(unread) => OrderLine {
            order: Err(unread),
            hops: NO_HOPS,
        },
    }
}

// The order of a line, without its LF.
pub fn read_order(line: &[u8]) -> OrderLine
    ensures result_value { order_of result ≡ read_order line.now }
    ensures hops_fit { hops_fit result.order }
{
    with_hops(read_line(line))
}

// The order of a direct call: exactly one line with its LF, of the call's own kind; another kind is 11, its rest unread.
pub fn read_call(kind: Kind, bytes: &[u8]) -> OrderLine
    ensures result_value { order_of result ≡ only_line (kind_number (kind_of kind)) (lines bytes.now) }
    ensures hops_fit { hops_fit result.order }
{
    with_hops(read_only_line(kind, bytes))
}
