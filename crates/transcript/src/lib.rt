// The answers of a replay as text: a line of lowercase hexadecimal digits for each.
#![tactic(auto)]

ghost use Rattle.std.specs.Prelude.{◌≡◌, ◌+◌, ◌*◌, length};
ghost use Rattle.report.specs.Results.{reported};
ghost use Rattle.report.specs.Texts.{HasRoom, Writes};
ghost use Rattle.transcript.specs.AnswerLines.{answer_line, answer_lines_in, answers_result};

use reader::frame::frame_length_up_to;
use report::text::TextWriter;
use report::{ANSWER_MOST, TooShort};

// The line of an answer.
fn write_answer(writer: &mut TextWriter<'_>, answer: &[u8])
    requires { HasRoom writer.old (2 * length answer.now + 1) }
    ensures { Writes writer.old (answer_line answer.now) writer.new }
{
    writer.digits(answer);
    writer.bytes(b"\n");
}

// The lines of the first `count` answers; none behind bytes that are no answer. An answer has four bytes at least, so three bytes of text for each
// of its bytes are enough.
fn write_answers(writer: &mut TextWriter<'_>, answers: &[u8], count: usize)
    requires { HasRoom writer.old (3 * length answers.now) }
    ensures { Writes writer.old (answer_lines_in count answers.now) writer.new }
{
    let mut rest = answers;
    // the invariant names `done`, so it is no `_`
    for done in 0..count {
        let Some(size) = frame_length_up_to(rest, ANSWER_MOST) else {
            return;
        };
        write_answer(writer, &rest[..size]);
        rest = &rest[size..];
    }
}

// The lines of the first `count` answers of a replay, which stand one behind the other. A text buffer that is shorter than three times the answers
// is left as it was.
pub fn answer_lines(answers: &[u8], count: usize, text: &mut [u8]) -> Result<usize, TooShort>
    ensures { reported result text.new ≡ answers_result count answers.now text.old }
{
    if text.len() / 3 < answers.len() {
        return Err(TooShort);
    }
    let mut writer = TextWriter::new(text);
    write_answers(&mut writer, answers, count);
    Ok(writer.size())
}
