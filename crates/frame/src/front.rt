// Where the frame at the front of a stream of bytes ends.
ghost use Rattle.std.specs.Prelude.{◌≡◌};
ghost use Rattle.frame.specs.Front.{frame_length, length_known};

use crate::{GENERAL, WITHOUT_LEN};

// The length of the frame at the front of the bytes received so far, none while more are needed to tell. A byte that
// begins no frame is 1.
#[tactic(auto, unfolding(crate::specs::Front::frame_length))]
pub fn frame_length(received: &[u8]) -> Option<usize>
    ensures { result ≡ length_known (frame_length received.now) }
{
    match received {
        [] => None,
        [WITHOUT_LEN, ..] => Some(5),
        [GENERAL, _, _, len, ..] => Some(usize::from(*len) + 5),
        [GENERAL, ..] => None,
        _ => Some(1),
    }
}
