// Reads the order lines of the file orders.txt beside it and prints what each says: code in 3 columns, flow number in 6,
// rate in 9, burst in 8, largest frame in 5, deadline in 9, hops in 3, and the last hop's link in 5 and level in 3.
#![tactic(auto)]

use causes::{Cause, Numbers};
use orders::{Flow, MOST_HOPS, Order, Unread};
use units::{Aggregate, Bytes, Micros, Rate};

// Written column by column: with `println!` 910 lines took over four times the instructions. What standard output doesn't take is lost.
fn show(rt: &impl Print, code: u32, flow: Flow, link: u32, level: u32) {
    let mut out = *b"                                                   \n";
    columns::write_at(&mut out, 1, 3, u64::from(code));
    columns::write_at(&mut out, 4, 9, u64::from(flow.number));
    columns::write_at(&mut out, 10, 18, flow.share.rate.0);
    columns::write_at(&mut out, 19, 26, flow.share.burst.0);
    columns::write_at(&mut out, 27, 31, flow.share.frame.0);
    columns::write_at(&mut out, 32, 40, flow.deadline.0);
    columns::write_at(&mut out, 41, 43, u64::from(flow.hops));
    columns::write_at(&mut out, 44, 48, u64::from(link));
    columns::write_at(&mut out, 49, 51, u64::from(level));
    let _ = rt.write_all(&out);
}

// A line with a code, a flow number, a rate and a burst only.
fn bare(rt: &impl Print, code: u32, number: u32, rate: Rate, burst: Bytes) {
    let flow = Flow {
        number,
        share: Aggregate {
            rate,
            burst,
            frame: Bytes(0),
        },
        deadline: Micros(0),
        hops: 0,
    };
    show(rt, code, flow, 0, 0);
}

fn refused(rt: &impl Print, cause: Cause) {
    bare(rt, Numbers::from(cause).code, 0, Rate(0), Bytes(0));
}

fn judge(rt: &impl Print, line: &[u8]) {
    let read = orders::read_order(line);
    match read.order {
        Ok(Order::Register(flow)) => {
            let n = flow.hops as usize;
            if 1 <= n && n <= MOST_HOPS {
                let last = read.hops[n - 1];
                show(rt, 0, flow, last.link, last.level);
            }
        }
        Ok(Order::Release(number)) => bare(rt, 0, number, Rate(0), Bytes(0)),
        Ok(Order::Change(change)) => bare(rt, 0, change.number, change.rate, change.burst),
        Err(Unread::Malformed) => refused(rt, Cause::Malformed),
        Err(Unread::OutOfRange) => refused(rt, Cause::OutOfRange),
    }
}

fn main(rt: HostRuntime) {
    let mut area = [0u8; 8192];
    let bytes = text_files::read(&rt, b"orders.txt", &mut area);
    walk(&rt, &area[..bytes]);
}

fn walk(rt: &impl Print, text: &[u8]) {
    for line in columns::lines(text) {
        match line {
            Some(line) => judge(rt, line),
            None => refused(rt, Cause::Malformed),
        }
    }
}
