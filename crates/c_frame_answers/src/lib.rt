// The answer of a call of the frame machine, as C sees it.
#![tactic(auto)]

ghost use Rattle.std.specs.Prelude.{◌≡◌};
ghost use Rattle.c_frame_answers.specs.Frames.{frame_answer};

use c_answers::Answer;
use frame_machine::FrameRefusal;

pub fn answer_of(a: Result<(), FrameRefusal>) -> Answer
    ensures { result ≡ frame_answer a }
{
    Answer {
        number: frame_machine::answer_number(a),
        place: 0,
        items: 0,
    }
}
