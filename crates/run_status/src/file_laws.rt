//! What the files decide.

ghost use Rattle.run_status.specs.Laws.{FilesDecide, FilesHaveAnAnswer};

use bdf_font::one_answer;
use embedded_fonts::one_embedded_answer;

/// Where a shelf tells what all the names hold, there is exactly one answer, but for faults and out of memory.
pub fn files_decide()
    ensures some { FilesHaveAnAnswer }
    ensures one { FilesDecide }
{
    one_answer();
    one_embedded_answer();
}
