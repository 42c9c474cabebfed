// The files that programs read, and what they say where a file is not as it should be.
#![tactic(auto)]

ghost use Rattle.std.specs.Prelude.{◌≤◌, IfSome};
ghost use Rattle.text_files.specs.Counts.{IsPrefixLen};

use std::fs::File;
use std::io::Read;
use std::rt::Files;
use std::str;

// Only so many bytes of a list of calls or offers count. The area has one more, so that a longer list shows.
pub const LIST: usize = 200_000;

pub const LIST_AREA: usize = LIST + 1;

// The file of this name, where it can be opened. A name is UTF-8.
fn open<R: Files>(rt: &R, name: &[u8]) -> Option<R::File> {
    let path = str::from_utf8(name).ok()?;
    File::open(rt, path).ok()
}

// How many bytes one read puts at the start of `text`; none where it fails.
fn read_some<F: Read>(file: &mut F, text: &mut [u8]) -> usize
    ensures { IsPrefixLen result text.new }
{
    file.read(text).unwrap_or(0)
}

// How many bytes of an open file stand at the start of `text`: up to its end, the end of `text` or a read that fails. The file is
// closed then.
fn take<F: Read + Drop>(mut file: F, text: &mut [u8]) -> usize
    ensures { IsPrefixLen result text.new }
{
    let mut done = 0;
    while done < text.len() {
        let n = read_some(&mut file, &mut text[done..]);
        if n == 0 {
            break;
        }
        done += n;
    }
    done
}

// How many bytes of the file stand at the start of `text`, where it can be opened.
pub fn try_read<R: Files>(rt: &R, name: &[u8], text: &mut [u8]) -> Option<usize>
    ensures { IfSome result (λ n. IsPrefixLen n text.new) }
{
    let file = open(rt, name)?;
    Some(take(file, text))
}

// The same, and none where it can't be opened.
pub fn read<R: Files>(rt: &R, name: &[u8], text: &mut [u8]) -> usize
    ensures { IsPrefixLen result text.new }
{
    try_read(rt, name, text).unwrap_or(0)
}

// The same, and `program` says so where the file can't be opened.
pub fn read_or_tell<R: Files, E: Print>(
    rt: &R,
    err: &E,
    program: &[u8],
    name: &[u8],
    text: &mut [u8],
) -> usize
    ensures { IsPrefixLen result text.new }
{
    let Some(n) = try_read(rt, name, text) else {
        tell(err, program, name, b": can't be opened, counts as empty\n");
        return 0;
    };
    n
}

// The same of a list, of which no more than LIST bytes count; `program` says so where there are more.
pub fn read_list<R: Files, E: Print>(
    rt: &R,
    err: &E,
    program: &[u8],
    name: &[u8],
    text: &mut [u8],
) -> usize
    ensures { IsPrefixLen result text.new × (result ≤ 200000) }
{
    let n = read_or_tell(rt, err, program, name, text);
    if LIST < n {
        tell(
            err,
            program,
            name,
            b": only the first 200,000 bytes count\n",
        );
        return LIST;
    }
    n
}

// What `program` says of a file on `err`. What `err` doesn't take is lost.
fn tell<E: Print>(err: &E, program: &[u8], name: &[u8], words: &[u8]) {
    let _ = err.write_all(program);
    let _ = err.write_all(b": ");
    let _ = err.write_all(name);
    let _ = err.write_all(words);
}
