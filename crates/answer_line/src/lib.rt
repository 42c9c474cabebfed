// Answer lines (document 01, "Columns"): the line is begun, then each field is filled from the right in the part of it that
// starts at the field's column.
#![tactic(auto)]

ghost use Rattle.std.specs.Prelude.{◌≡◌, ◌++◌, ◌≤◌, length, drop};
ghost use Rattle.model.specs.Answers.{answer_columns, answer_line};
ghost use Rattle.causes.specs.View.{numbers_in};
ghost use Rattle.admission.specs.View.{refusal_of, answer_of};
ghost use Rattle.answer_line.specs.View.{fields_of};

use admission::Answer;
use causes::Numbers;
use columns::LF;

// What an answer line holds after the line number.
#[derive(Clone, Copy)]
struct Fields {
    code: u32,
    slot: u32,
    link: u32,
    level: u32,
}

// Those of a refusal.
impl From<Numbers> for Fields {
    ghost from_gives = { λ numbers fields. fields_of fields ≡ refusal_of (numbers_in numbers) };

    fn from(numbers: Numbers) -> Fields {
        Fields {
            code: numbers.code,
            slot: 0,
            link: numbers.link,
            level: numbers.level,
        }
    }
}

impl From<Answer> for Fields {
    ghost from_gives = { λ answer fields. fields_of fields ≡ answer_of answer };

    fn from(answer: Answer) -> Fields {
        match answer {
            Ok(slot) => Fields {
                code: 0,
                slot,
                link: 0,
                level: 0,
            },
            Err(cause) => Fields::from(Numbers::from(cause)),
        }
    }
}

// Fills the columns after the line number; `part` starts at the first of them.
pub fn write_answer(answer: Answer, part: &mut [u8])
    requires { 13 ≤ length part.old }
    ensures { part.new ≡ answer_columns (answer_of answer) ++ drop 13 part.old }
{
    let fields = Fields::from(answer);
    columns::write_at(part, 1, 3, u64::from(fields.code));
    columns::write_at(part, 4, 7, u64::from(fields.slot));
    columns::write_at(part, 8, 11, u64::from(fields.link));
    columns::write_at(part, 12, 13, u64::from(fields.level));
}

// Writes the answer to the order of this line number over the first 20 bytes of `line`.
pub fn write_line(number: u32, answer: Answer, line: &mut [u8])
    requires { 20 ≤ length line.old }
    ensures { line.new ≡ answer_line number (answer_of answer) ++ drop 20 line.old }
{
    line[19] = LF;
    columns::write_at(line, 1, 6, u64::from(number));
    write_answer(answer, &mut line[6..]);
}
