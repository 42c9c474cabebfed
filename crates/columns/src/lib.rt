// Decimal fields in fixed columns, and the lines of a text (document 01, "Columns").
#![tactic(auto)]

ghost use Rattle.std.specs.Prelude.{◌≡◌, ◌++◌, cond, ◌+◌, ◌%◌, ◌≤◌, ◌<◌, List, eqb, length, drop};
ghost use Rattle.std.specs.Iterator.{YieldsFirstBy, item_count};
ghost use Rattle.model.specs.Columns.{Line, lines, field, field_at, digits, justified, written_at, end_line, between};
ghost use Rattle.columns.specs.View.{value_of, line_of, AfterBlanks, lf_within, SameLine, FirstLine};

use std::marker::Model;

const BLANK: u8 = b' ';

pub const LF: u8 = b'\n';

// The position of the first byte that is no blank, or the field's width.
fn skip_blanks(s: &[u8]) -> usize
    ensures { AfterBlanks s.now result }
{
    for (i, byte) in s.iter().enumerate() {
        if *byte != BLANK {
            return i;
        }
    }
    s.len()
}

// The number of a run of digits, none where another byte stands among them.
fn read_digits(s: &[u8]) -> Option<u32>
    requires { length s.now ≤ 9 }
    ensures { value_of result ≡ digits 0 s.now }
{
    let mut n: u32 = 0;
    for byte in s {
        if !byte.is_ascii_digit() {
            return None;
        }
        n = n * 10 + u32::from(*byte - b'0');
    }
    Some(n)
}

// The number of a field, none where it is malformed.
fn read_field(s: &[u8]) -> Option<u32>
    requires { length s.now ≤ 9 }
    ensures { value_of result ≡ field s.now }
{
    let at = skip_blanks(s);
    if s.len() <= at {
        return None;
    }
    if s[at] == b'0' {
        if at + 1 < s.len() {
            return None;
        }
        return Some(0);
    }
    read_digits(&s[at..])
}

// The number of the field in columns `first` to `last` of a line, counted from 1, up to 9 of them; none where it is malformed.
pub fn read_at(line: &[u8], first: usize, last: usize) -> Option<u32>
    requires { (1 ≤ first) × ((first ≤ last) × (last < first + 9)) }
    ensures { value_of result ≡ field_at first last line.now }
{
    if line.len() < last {
        return None;
    }
    let start = first - 1;
    read_field(&line[start..last])
}

fn digit(n: u64) -> u8
    ensures { result ≡ 48 + n % 10 }
{
    b'0' + (n % 10) as u8
}

fn digit_or_blank(n: u64) -> u8
    ensures { result ≡ cond (eqb n 0) 32 (48 + n % 10) }
{
    if n == 0 {
        return BLANK;
    }
    digit(n)
}

// Whether a number is in a range, both ends in it.
#[tactic(auto, unfolding(model::specs::Columns::between))]
pub fn within(low: u64, high: u64, n: u64) -> bool
    ensures { result ≡ between low high n }
{
    low <= n && n <= high
}

// Writes a number right-justified into the first `width` bytes of a part of a line already begun.
fn write_field(part: &mut [u8], width: usize, n: u64)
    requires { (1 ≤ width) × (width ≤ length part.old) }
    ensures { part.new ≡ justified width n ++ drop width part.old }
{
    part[width - 1] = digit(n);
    let mut rest = n / 10;
    for at in (0..width - 1).rev() {
        part[at] = digit_or_blank(rest);
        rest /= 10;
    }
}

// Writes a number into columns `first` to `last` of a line already begun, counted from 1.
pub fn write_at(line: &mut [u8], first: usize, last: usize, n: u64)
    requires { (1 ≤ first) × ((first ≤ last) × (last ≤ length line.old)) }
    ensures { line.new ≡ written_at first last n line.old }
{
    let start = first - 1;
    write_field(&mut line[start..], last - start, n);
}

// The bytes of what is said of a list that breaks off, with its LF.
pub const END: usize = 14;

// Writes what is said of a list that breaks off, and where, to the front of `part`.
pub fn write_end(part: &mut [u8], n: u64)
    requires { 14 ≤ length part.old }
    ensures { part.new ≡ end_line n ++ drop 14 part.old }
{
    part[0] = b'e';
    part[1] = b'n';
    part[2] = b'd';
    write_at(part, 4, 13, n);
    part[13] = LF;
}

// Whether an LF stands in the 8 bytes from `at` on. All of them are looked at, so that it can be done at once.
fn has_lf(text: &[u8], at: usize) -> bool
    requires { at + 8 ≤ length text.now }
    ensures { result ≡ lf_within text.now at 8 }
{
    let mut found = false;
    for i in 0..8 {
        if text[at + i] == LF {
            found = true;
        }
    }
    found
}

// Passes whole blocks of 8 bytes without an LF.
fn skip_blocks(text: &[u8], at: usize) -> usize
    requires { at < length text.now }
    ensures { SameLine text.now at result }
{
    let mut i = at;
    while 8 <= text.len() - i {
        if has_lf(text, i) {
            return i;
        }
        i += 8;
    }
    i
}

// The position of the LF in which the line that starts at `at` ends, none where no LF follows.
pub fn next_line(text: &[u8], at: usize) -> Option<usize>
    requires { at < length text.now }
    ensures { FirstLine text.now at result }
{
    for i in skip_blocks(text, at)..text.len() {
        if text[i] == LF {
            return Some(i);
        }
    }
    None
}

// The lines of a text, one after the other: each without its LF, and none for the bytes after the last LF, which are one malformed line.
#[derive(Drop)]
pub struct LineIter<'a> {
    rest: &'a [u8],
}

impl<'a> Model for LineIter<'a> {
    ghost Value = { List Line };

    ghost view = { λ it. lines it.rest.now };
}

impl<'a> Iterator for LineIter<'a> {
    type Item = Option<&'a [u8]>;

    ghost next_gives = { YieldsFirstBy line_of (λ left. left) };

    ghost remaining = { item_count (λ left. left) };

    #[tactic(auto, unfolding(model::specs::Columns::lines))]
    fn next(&mut self) -> Option<Option<&'a [u8]>> {
        let text = self.rest;
        if text.is_empty() {
            return None;
        }
        let Some(end) = next_line(text, 0) else {
            self.rest = &[];
            return Some(None);
        };
        self.rest = &text[end + 1..];
        Some(Some(&text[..end]))
    }
}

pub fn lines(text: &[u8]) -> LineIter<'_>
    ensures { result ≡ lines text.now }
{
    LineIter { rest: text }
}
