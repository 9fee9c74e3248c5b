//! What a command line asks for, shown.
ghost use Rattle.std.specs.Prelude.{◌≡◌, ◌≢◌, IfErr, IfOk, IsErrAnd, map};
ghost use Rattle.std.specs.String.{string_bytes};
ghost use Rattle.asc_outside.specs.Outside.{Blames};
ghost use Rattle.asc_calls.specs.World.{BlamesOnly, outside_of};
ghost use Rattle.asc_words.specs.Line.{IsRunWithin};
ghost use Rattle.asc_inspect.specs.Asked.{HasNumber};
ghost use Rattle.asc_inspect.specs.Shown.{Answers, AsksForImage, HasInputFailed, HasNoText, HasOutputFailed, Says, ShowsText, device_of_result, first_world, image_world, outer};

use crate::answer::Answer;
use crate::entry::entry_of_visit;
use crate::miss::misses_at;
use crate::profile::profile;
use crate::registers::registers_after;
use crate::request::{Question, Request, request_of};
use crate::sought::sought;
use asc_calls::Devices;
use asc_elf::{Image, read};
use asc_outside::{CountSink, Failed, Loaded, Sink, Source, Steps, Store, StoreFault, put_all};
use asc_run::Process;
use asc_words::FILE_LIMIT;
use std::alloc::Global;
use std::sync::ledger::Ledger;

/// Puts to out what words ask of the run of an image, and gives the input back.
///
/// The words are the program's name, a question, an image of the store, what the question is about, and options of
/// `asc run`. What the guest writes is only counted.
pub fn show<F: Store, I: Source, O: Sink, L: Ledger>(
    alloc: Global,
    words: &[String],
    store: &mut F,
    input: I,
    out: &mut O,
    steps: &mut Steps<L>,
) -> (Answer, I)
    ensures answers { Answers (map string_bytes words.now) (F.files store.old)
        (outer (I.left input) (O.given out.old) steps.old (I.faults input))
        (outer (I.left result.1) (O.given out.new) steps.new (I.faults result.1)) result.0 }
    ensures asked { AsksForImage (map string_bytes words.now) result.0 (F.asked store.old) (F.asked store.new) }
    // The store, the input and the output have failed where that is answered, once, and else not.
    ensures store { Blames (result.0 ≡ Answer.StoreFault) (F.faults store.old) (F.faults store.new) }
    ensures input { Blames (HasInputFailed result.0) (I.faults input) (I.faults result.1) }
    // What the guest writes is counted, and that can't fail.
    ensures counted { HasOutputFailed result.0 → ⊥ }
    ensures out { Blames (result.0 ≡ Answer.OutFault) (O.faults out.old) (O.faults out.new) }
{
    let request = match request_of(alloc, words) {
        Ok(request) => request,
        Err(fault) => return (Answer::from(fault), input),
    };
    let mut file = Vec::new(alloc);
    match store.read(request.line.image.as_str(), &mut file, FILE_LIMIT) {
        Err(StoreFault::Failed) => (Answer::StoreFault, input),
        Err(StoreFault::Memory) => (Answer::Memory, input),
        Ok(Loaded::Longer) => (Answer::TooLong, input),
        Ok(Loaded::Whole) => show_file(alloc, &request, &file, input, out, steps),
    }
}

/// Shows what is asked for of a file, and gives the input back.
pub fn show_file<I: Source, O: Sink, L: Ledger>(
    alloc: Global,
    request: &Request,
    file: &[u8],
    input: I,
    out: &mut O,
    steps: &mut Steps<L>,
) -> (Answer, I)
    requires within { IsRunWithin request.now.line }
    requires number { HasNumber request.now.question }
    ensures says { Says request.now file.now
        (outer (I.left input) (O.given out.old) steps.old (I.faults input))
        (outer (I.left result.1) (O.given out.new) steps.new (I.faults result.1)) result.0 }
    ensures input { Blames (HasInputFailed result.0) (I.faults input) (I.faults result.1) }
    // What the guest writes is counted, and that can't fail.
    ensures counted { HasOutputFailed result.0 → ⊥ }
    ensures out { Blames (result.0 ≡ Answer.OutFault) (O.faults out.old) (O.faults out.new) }
    ensures read { result.0 ≢ Answer.StoreFault }
{
    let line = &request.line;
    let image = match read(file, 1024 * line.memory, line.version) {
        Ok(image) => image,
        Err(fault) => return (Answer::Image(fault), input),
    };
    let (text, input) = text_of(alloc, &image, request, input, steps);
    match text {
        Ok(text) => match put_all(out, &text) {
            Ok(()) => (Answer::Shown, input),
            Err(Failed) => (Answer::OutFault, input),
        },
        Err(answer) => (answer, input),
    }
}

/// The text that is asked for of the program of an image, or why there is none, and the input again. What the program
/// writes is only counted.
fn text_of<I: Source, L: Ledger>(
    alloc: Global,
    image: &Image<'_>,
    request: &Request,
    input: I,
    steps: &mut Steps<L>,
) -> (Result<Vec<u8>, Answer>, I)
    requires within { IsRunWithin request.now.line }
    requires number { HasNumber request.now.question }
    ensures shown { IfOk result.0 (λ text. ShowsText request.now.line request.now.question
        (image_world image.now (I.left input) steps.old (I.faults input)) (I.left result.1) steps.new text.items) }
    ensures ended { IfErr result.0 (λ answer. HasNoText request.now.line request.now.question
        (image_world image.now (I.left input) steps.old (I.faults input)) (I.left result.1) steps.new answer) }
    ensures input { Blames (IsErrAnd result.0 HasInputFailed) (I.faults input) (I.faults result.1) }
    ensures counted { IfErr result.0 (λ answer. HasOutputFailed answer → ⊥) }
{
    let mut guest = Devices::new(input, CountSink::new(), CountSink::new());
    let text = guest_text(alloc, image, request, &mut guest, steps);
    let (input, _, _) = guest.into_parts();
    (text, input)
}

/// The text that is asked for of the program of an image, which runs over these devices, or why there is none.
fn guest_text<I: Source, L: Ledger>(
    alloc: Global,
    image: &Image<'_>,
    request: &Request,
    guest: &mut Devices<I, CountSink, CountSink>,
    steps: &mut Steps<L>,
) -> Result<Vec<u8>, Answer>
    requires within { IsRunWithin request.now.line }
    requires number { HasNumber request.now.question }
    ensures shown { IfOk result (λ text. ShowsText request.now.line request.now.question
        (first_world image.now (outside_of guest.old steps.old)) guest.new.told.left steps.new text.items) }
    ensures ended { IfErr result (λ answer. HasNoText request.now.line request.now.question
        (first_world image.now (outside_of guest.old steps.old)) guest.new.told.left steps.new answer) }
    ensures faults { BlamesOnly (device_of_result result) guest.old.told.faults guest.new.told.faults }
{
    let line = &request.line;
    match request.question {
        Question::Entry(visit) => {
            let process = Process::new(alloc, image)?;
            entry_of_visit(alloc, process, line, visit, guest, steps)
        }
        Question::Miss(visit) => {
            let process = Process::new(alloc, image)?;
            misses_at(alloc, process, line, visit, guest, steps)
        }
        Question::At(count) => {
            let process = Process::new(alloc, image)?;
            registers_after(alloc, process, line, count, guest, steps)
        }
        Question::Profile(addresses) => {
            let process = Process::new(alloc, image)?;
            profile(alloc, process, line, addresses, guest, steps)
        }
        Question::Seek => sought(alloc, image, line, guest, steps),
    }
}
