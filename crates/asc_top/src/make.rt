//! `asc make`.
ghost use Rattle.std.specs.Prelude.{List, Option, Ok, ℕ};
ghost use Rattle.asc_outside.specs.Outside.{File, Given};
ghost use Rattle.asc_calls.specs.World.{faults, outside};
ghost use Rattle.asc_top.specs.Answered.{IsAnswerFor, around};

use asc_make::image;
use asc_outside::{Failed, Sink, put_all};
use asc_words::{Answer, Conclusion, Line};
use std::alloc::Global;

/// Puts the generated image of a number to out.
pub(crate) fn make<O: Sink>(alloc: Global, n: u64, out: &mut O) -> Conclusion
    ensures { (files : Option (List File)) (asked : Option (List (List ℕ))) (store_faults : ℕ)
        (left : Option (List ℕ)) (err : Given) (steps input_faults err_faults : ℕ) → IsAnswerFor (Ok (Line.Make n))
        (around files asked store_faults
        (outside left (O.given out.old) err steps (faults input_faults (O.faults out.old) err_faults)))
        (around files asked store_faults
        (outside left (O.given out.new) err steps (faults input_faults (O.faults out.new) err_faults))) result }
{
    let Ok(image) = image(alloc, n) else {
        return Conclusion::of(Answer::Memory);
    };
    match put_all(out, &image) {
        Ok(()) => Conclusion::of(Answer::Done(0)),
        Err(Failed) => Conclusion::of(Answer::WriteFault),
    }
}
