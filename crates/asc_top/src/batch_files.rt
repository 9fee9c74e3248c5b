//! The files that a batch names, read from the store.
ghost use Rattle.std.specs.Prelude.{◌≡◌, IfErr, IfOk};
ghost use Rattle.asc_words.specs.Line.{IsBatchWithin};
ghost use Rattle.asc_top.specs.BatchRead.{FailsAtInput, ReadsBatch, ReadsInputs, RefusesBatch};

use crate::opened::file_of;
use asc_elf::read;
use asc_outside::{Store, SureSource};
use asc_words::{Answer, BatchLine, FileName};
use std::alloc::Global;
use std::marker::Model;

/// What a batch reads: the bytes of an image that can be run, and inputs of which none is too long.
#[derive(Drop)]
pub(crate) struct BatchFiles {
    pub(crate) image: Vec<u8>,
    pub(crate) inputs: Vec<SureSource>,
}

impl Model for BatchFiles {
    ghost use Rattle.asc_top.specs.Batch as model;

    ghost Value = { model.BatchFiles };

    ghost view = { λ f. record { image = f.image.items; inputs = f.inputs.items } };
}

/// Reads the image of a batch, and then its inputs.
pub(crate) fn read_batch<F: Store>(
    alloc: Global,
    line: &BatchLine,
    store: &mut F,
) -> Result<BatchFiles, Answer>
    requires { IsBatchWithin line.now }
    ensures read { IfOk result (λ files. ReadsBatch line.now files
        (F.files store.old) (F.asked store.old) (F.faults store.old)
        (F.files store.new) (F.asked store.new) (F.faults store.new)) }
    ensures refused { IfErr result (λ answer. RefusesBatch line.now answer
        (F.files store.old) (F.asked store.old) (F.faults store.old)
        (F.files store.new) (F.asked store.new) (F.faults store.new)) }
{
    let run = &line.run;
    let image = file_of(alloc, &run.image, Answer::TooLong, store)?;
    match read(&image, 1024 * run.memory, run.version) {
        // This tells that its state has a good shape.
        Ok(loaded) => {
            let _ = loaded.shape();
        }
        Err(fault) => return Err(Answer::Image(fault)),
    }
    let inputs = read_inputs(alloc, &line.inputs, store)?;
    Ok(BatchFiles { image, inputs })
}

/// Reads the inputs of these names, in their order.
fn read_inputs<F: Store>(
    alloc: Global,
    names: &[FileName],
    store: &mut F,
) -> Result<Vec<SureSource>, Answer>
    ensures read { IfOk result (λ inputs. ReadsInputs names.now inputs.items
        (F.files store.old) (F.asked store.old) (F.faults store.old)
        (F.files store.new) (F.asked store.new) (F.faults store.new)) }
    ensures failed { IfErr result (λ answer. FailsAtInput names.now answer
        (F.files store.old) (F.asked store.old) (F.faults store.old)
        (F.files store.new) (F.asked store.new) (F.faults store.new)) }
{
    let mut inputs = Vec::new(alloc);
    for number in 0..names.len() {
        let file = file_of(alloc, &names[number], Answer::InputTooLong(number), store)?;
        if inputs.push(SureSource::new(file)).is_err() {
            return Err(Answer::Memory);
        }
    }
    Ok(inputs)
}
