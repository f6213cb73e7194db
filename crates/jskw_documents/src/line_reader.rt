//! What reads the lines of a stream.
ghost use Rattle.std.specs.Prelude.{◌≡◌, IfOk, Some};
ghost use Rattle.jskw_documents.specs.Documents.{IsAnswer, verdict_on};

use crate::answer::{Answer, answer_to, quick_answer_to};
use crate::stream::Stream;
use jskw_service::Verdict;
use jskw_text::TreeReader;
use std::alloc::{AllocError, Global};

// Behind so many valid lines in a row, only what the schema looks at of a line is read. A line that is
// not valid is then read twice: of equal lines at most one in 22 is.
const IN_A_ROW: usize = 20;

// What reads the lines of a stream.
#[derive(Drop)]
pub(crate) struct LineReader {
    trees: TreeReader,
    // How many lines before the next one are valid, in a row.
    valid_lines: usize,
}

impl LineReader {
    pub(crate) fn new(alloc: Global) -> LineReader {
        LineReader {
            trees: TreeReader::new(alloc),
            valid_lines: 0,
        }
    }

    // Answers the line of this number.
    pub(crate) fn answer(
        &mut self,
        stream: &Stream<'_, '_>,
        number: usize,
        line: &[u8],
    ) -> Result<Answer, AllocError>
        ensures verdict { IfOk result
            (λ answer. answer.verdict ≡ verdict_on stream.now.checker.now.schema line.now) }
        ensures text { IfOk result (λ answer. IsAnswer stream.now.checker.now stream.now.file.now (Some number)
            line.now answer.text.items) }
    {
        let answer = if self.valid_lines < IN_A_ROW {
            answer_to(stream, Some(number), line, &mut self.trees)?
        } else {
            quick_answer_to(stream, Some(number), line, &mut self.trees)?
        };
        self.valid_lines = match answer.verdict {
            Verdict::Valid => self.valid_lines.saturating_add(1),
            Verdict::Invalid | Verdict::Refused => 0,
        };
        Ok(answer)
    }
}
