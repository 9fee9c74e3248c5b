//! What a line names, read from the store: the walk of an image, and saved entries.
ghost use Rattle.std.specs.Prelude.{◌≡◌, ◌≢◌, ◌⊎◌, ◌≤◌, ◌^◌, ℕ, List, length, map, IfErr, IfOk, IsNone, Ok};
ghost use Rattle.std.specs.Arc.{arc_value};
ghost use Rattle.asc_calls.specs.World.{Outside};
ghost use Rattle.asc_run.specs.Visits.{HasBounds};
ghost use Rattle.asc_words.specs.Answer.{conclusion_of};
ghost use Rattle.asc_words.specs.Line.{IsRunWithin, file_limit};
ghost use Rattle.asc_top.specs.Program.{entries_for};
ghost use Rattle.asc_top.specs.Ran.{HasNoWalk, IsNoEntries, IsNoRun, IsRead, IsRefused, IsTooLong, IsWalkOf, Opens};
ghost use Rattle.asc_top.specs.Answered.{IsAnswerFor, around};

use crate::settings::settings_of;
use asc_elf::read;
use asc_outside::{Loaded, Memory, Store, StoreFault};
use asc_run::{Settings, Walk};
use asc_save::{LoadFault, load};
use asc_shape::Shape;
use asc_traj::Entry;
use asc_words::{Answer, FILE_LIMIT, FileName, Line, RunLine, SavedFault};
use std::alloc::Global;
use std::sync::Arc;

/// What a run begins with: a walk that has not begun, and saved entries.
#[derive(Drop)]
pub(crate) struct Opened {
    pub(crate) walk: Walk,
    pub(crate) first: Vec<Arc<Entry>>,
}

/// Reads the image of a run, and then the file of saved entries, where its line names one.
pub(crate) fn open<F: Store>(alloc: Global, line: &RunLine, store: &mut F) -> Result<Opened, Answer>
    requires { IsRunWithin line.now }
    ensures opened { IfOk result (λ opened. Opens line.now opened.walk (map arc_value opened.first.items)
        (F.files store.old) (F.asked store.old) (F.faults store.old)
        (F.files store.new) (F.asked store.new) (F.faults store.new)) }
    ensures new { IfOk result (λ opened. IsNone opened.walk.ended) }
    ensures unopened { IfErr result (λ answer. (guest : Outside) → IsAnswerFor (Ok (Line.Run line.now))
        (around (F.files store.old) (F.asked store.old) (F.faults store.old) guest)
        (around (F.files store.new) (F.asked store.new) (F.faults store.new) guest) (conclusion_of answer)) }
{
    let walk = walk_in(alloc, line, settings_of(line), store)?;
    match &line.load {
        Some(name) => {
            let first = entries_in(alloc, name, walk.shape(), store)?;
            Ok(Opened { walk, first })
        }
        None => {
            let first = Vec::new(alloc);
            Ok(Opened { walk, first })
        }
    }
}

/// Reads the image that a line names, and makes its walk.
pub(crate) fn walk_in<F: Store>(
    alloc: Global,
    line: &RunLine,
    settings: Settings,
    store: &mut F,
) -> Result<Walk, Answer>
    requires line { IsRunWithin line.now }
    requires limit { settings.limit ≤ 2 ^ 40 }
    requires bounds { HasBounds settings.recognised }
    ensures walk { IfOk result (λ walk. (content : List ℕ) × IsWalkOf line.now settings content walk
        × IsRead line.now.image content (F.files store.old) (F.asked store.old) (F.faults store.old)
        (F.files store.new) (F.asked store.new) (F.faults store.new)) }
    ensures new { IfOk result (λ walk. IsNone walk.ended) }
    ensures none { IfErr result (λ answer. IsRefused line.now.image (IsNoRun line.now) answer
        (F.files store.old) (F.asked store.old) (F.faults store.old)
        (F.files store.new) (F.asked store.new) (F.faults store.new)) }
{
    let file = file_of(alloc, &line.image, Answer::TooLong, store)?;
    walk_of(alloc, line, settings, &file)
}

/// The new walk of a file, as a line asks, or the answer where there is none.
pub(crate) fn walk_of(
    alloc: Global,
    line: &RunLine,
    settings: Settings,
    file: &[u8],
) -> Result<Walk, Answer>
    requires line { IsRunWithin line.now }
    requires limit { settings.limit ≤ 2 ^ 40 }
    requires bounds { HasBounds settings.recognised }
    requires file { length file.now ≤ file_limit }
    ensures walk { IfOk result (IsWalkOf line.now settings file.now) }
    ensures new { IfOk result (λ walk. IsNone walk.ended) }
    ensures none { IfErr result (HasNoWalk line.now file.now) }
{
    let image = match read(file, 1024 * line.memory, line.version) {
        Ok(image) => image,
        Err(fault) => return Err(Answer::Image(fault)),
    };
    // That its state has a good shape.
    let _ = image.shape();
    match Walk::new(alloc, &image, settings) {
        Ok(walk) => Ok(walk),
        Err(Memory) => Err(Answer::Memory),
    }
}

/// The saved entries of a file for an image of this shape.
fn entries_in<F: Store>(
    alloc: Global,
    name: &FileName,
    shape: Shape,
    store: &mut F,
) -> Result<Vec<Arc<Entry>>, Answer>
    ensures entries { IfOk result (λ entries. (content : List ℕ)
        × (entries_for shape content ≡ Ok (map arc_value entries.items)) × IsRead name.now content
        (F.files store.old) (F.asked store.old) (F.faults store.old)
        (F.files store.new) (F.asked store.new) (F.faults store.new)) }
    ensures none { IfErr result (λ answer. IsRefused name.now (IsNoEntries shape) answer
        (F.files store.old) (F.asked store.old) (F.faults store.old)
        (F.files store.new) (F.asked store.new) (F.faults store.new)) }
{
    let too_long = Answer::Saved(SavedFault::TooLong);
    let file = file_of(alloc, name, too_long, store)?;
    entries_of(alloc, shape, &file)
}

/// The entries of a file's bytes for an image of this shape.
fn entries_of(alloc: Global, shape: Shape, file: &[u8]) -> Result<Vec<Arc<Entry>>, Answer>
    requires { length file.now ≤ file_limit }
    ensures entries { IfOk result (λ entries. entries_for shape file.now ≡ Ok (map arc_value entries.items)) }
    ensures none { IfErr result (λ answer. (answer ≡ Answer.Memory) ⊎ IsNoEntries shape file.now answer) }
{
    match load(alloc, file) {
        Ok(saved) if saved.shape() == shape => Ok(saved.into_entries()),
        Ok(_) => Err(Answer::Saved(SavedFault::OtherShape)),
        Err(LoadFault::Bad(fault)) => Err(Answer::Saved(SavedFault::File(fault))),
        Err(LoadFault::Memory) => Err(Answer::Memory),
    }
}

/// The content of a file, or the answer where it is not read. One that is too long has this answer.
pub(crate) fn file_of<F: Store>(
    alloc: Global,
    name: &FileName,
    too_long: Answer,
    store: &mut F,
) -> Result<Vec<u8>, Answer>
    requires { too_long ≢ Answer.StoreFault }
    ensures read { IfOk result (λ file. IsRead name.now file.items
        (F.files store.old) (F.asked store.old) (F.faults store.old)
        (F.files store.new) (F.asked store.new) (F.faults store.new)) }
    ensures unread { IfErr result (λ answer. IsRefused name.now (IsTooLong too_long) answer
        (F.files store.old) (F.asked store.old) (F.faults store.old)
        (F.files store.new) (F.asked store.new) (F.faults store.new)) }
{
    let mut file = Vec::new(alloc);
    match store.read(name.as_str(), &mut file, FILE_LIMIT) {
        Err(StoreFault::Failed) => Err(Answer::StoreFault),
        Err(StoreFault::Memory) => Err(Answer::Memory),
        Ok(Loaded::Longer) => Err(too_long),
        Ok(Loaded::Whole) => Ok(file),
    }
}
