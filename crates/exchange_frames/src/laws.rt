//! Which values are frames: a law, said as the contract of a function.

ghost use Rattle.exchange_frames.specs.declared.frame.Frame.TheVariants.{Give};
ghost use Rattle.exchange_frames.specs.Spelling.{IsFrame};

use operation::Op;

/// A GIVE of any operation is a frame, so it is written and read again.
pub fn a_give_is_a_frame(op: &Op)
    ensures { IsFrame (Give op.now) }
{
    match op {
        Op::Content(content) => {
            let _ = content.body();
        }
        Op::Correction(correction) => {
            let _ = correction.stamp();
        }
    }
}
