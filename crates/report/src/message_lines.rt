// The lines of messages that a replay has done.
ghost use Rattle.std.specs.Prelude.{◌*◌};
ghost use Rattle.report.specs.MessageLines.{lines_in};
ghost use Rattle.report.specs.Texts.{HasRoom, Writes};

use crate::ANSWER_MOST;
use crate::text::TextWriter;
use reader::frame::{frame_length, frame_length_up_to, kind};

// A line for each message; none behind bytes that are no frame, or no answer, which a replay does not leave. The kind of an answer is its number.
// It calls itself, as the replay does whose messages these are.
pub(crate) fn write_lines(
    journal: &[u8],
    answers: &[u8],
    messages: usize,
    writer: &mut TextWriter<'_>,
)
    requires { HasRoom writer.old (14 * messages) }
    ensures { Writes writer.old (lines_in messages journal.now answers.now) writer.new }
{
    if messages == 0 {
        return;
    }
    let Some(size) = frame_length(journal) else {
        return;
    };
    let Some(answer_size) = frame_length_up_to(answers, ANSWER_MOST) else {
        return;
    };
    writer.message(kind(journal), kind(answers), answer_size - 4);
    write_lines(
        &journal[size..],
        &answers[answer_size..],
        messages - 1,
        writer,
    );
}
