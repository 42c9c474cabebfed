// Prints what a gate answers to a list of offers (W-207). Reads offers.txt, one that can't be opened as empty: the opening in its first
// line, then a line for each offer. Standard error says where the file can't be opened or is too long.
#![tactic(auto)]

ghost use Rattle.std.specs.Prelude.{◌≤◌, length};

use offer_list::PRINTED;
use text_files::LIST_AREA;

fn print_answers(rt: &impl Print, err: &impl Print, text: &[u8])
    requires { length text.now ≤ 200000 }
{
    let mut area = [0u8; PRINTED];
    let bytes = offer_list::answer(text, &mut area);
    if rt.write_all(&area[..bytes]).is_err() {
        let _ = println!(err; "offers: the output can't be written");
    }
}

fn main(rt: HostRuntime) {
    let err = rt.stderr();
    let mut area = [0u8; LIST_AREA];
    let bytes = text_files::read_list(&rt, &err, b"offers", b"offers.txt", &mut area);
    print_answers(&rt, &err, &area[..bytes]);
}
