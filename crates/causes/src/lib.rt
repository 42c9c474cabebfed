// What an order line, a direct call or a writer of texts can be refused for (document 01, "Who can cause which refusal"), each
// cause with what an answer line names beside its code.
#![tactic(auto)]

ghost use Rattle.std.specs.Prelude.{◌≡◌};
ghost use Rattle.causes.specs.View.{cause_of, numbers_in};

#[derive(Clone, Copy, Debug, PartialEq, Eq)]
pub enum Cause {
    // 10: columns wrong.
    Malformed,
    // 11: out of range.
    OutOfRange,
    // 12: flow number held already.
    NumberHeld,
    // 13: flow number not held.
    NumberNotHeld,
    // 14: no such queue. A hop's link and level, here and below.
    NoQueue(u32, u32),
    // 15: a link doesn't start where the one before ended.
    StartsElsewhere(u32, u32),
    // 16: a link met earlier on the path.
    MetEarlier(u32, u32),
    // 17: largest frame above burst.
    FrameAboveBurst,
    // 20: the deadline.
    OverDeadline,
    // 21: the rates of a link.
    OverRate(u32),
    // 22: the delay of a queue, by its link and level.
    OverDelay(u32, u32),
    // 23: the backlog of a queue.
    OverBacklog(u32, u32),
    // 30: all slots held.
    NoSlot,
    // 31: too few hop entries.
    NoEntries,
    // 42: a registry that isn't consistent.
    Inconsistent,
    // 43: a lent area too short for a text.
    AreaTooShort,
}

// What an answer line has for a cause.
#[derive(Clone, Copy, Debug, PartialEq, Eq)]
pub struct Numbers {
    pub code: u32,
    pub link: u32,
    pub level: u32,
}

// A cause that names neither link nor level.
fn bare(code: u32) -> Numbers
    ensures { numbers_in result ≡ record { code = code; link = 0; level = 0 } }
{
    Numbers {
        code,
        link: 0,
        level: 0,
    }
}

fn named(code: u32, link: u32, level: u32) -> Numbers
    ensures { numbers_in result ≡ record { code = code; link = link; level = level } }
{
    Numbers { code, link, level }
}

// Document 01's code of a cause, and the link and level that it names.
impl From<Cause> for Numbers {
    ghost from_gives = { λ cause numbers. numbers_in numbers ≡ cause_of cause };

    fn from(cause: Cause) -> Numbers {
        match cause {
            Cause::Malformed => bare(10),
            Cause::OutOfRange => bare(11),
            Cause::NumberHeld => bare(12),
            Cause::NumberNotHeld => bare(13),
            Cause::NoQueue(link, level) => named(14, link, level),
            Cause::StartsElsewhere(link, level) => named(15, link, level),
            Cause::MetEarlier(link, level) => named(16, link, level),
            Cause::FrameAboveBurst => bare(17),
            Cause::OverDeadline => bare(20),
            Cause::OverRate(link) => named(21, link, 0),
            Cause::OverDelay(link, level) => named(22, link, level),
            Cause::OverBacklog(link, level) => named(23, link, level),
            Cause::NoSlot => bare(30),
            Cause::NoEntries => bare(31),
            Cause::Inconsistent => bare(42),
            Cause::AreaTooShort => bare(43),
        }
    }
}
