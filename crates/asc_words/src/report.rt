//! The texts of answers, of trials and of runs of a batch, built in bytes on the stack.
ghost use Rattle.std.specs.Prelude.{◌≡◌, ◌+◌, ◌≤◌, ◌++◌, codes, decimal, drop, length};
ghost use Rattle.arrayvec.specs.ArrayVec.{array_vec_len};
ghost use Rattle.asc_words.specs.Report.{answer_text, batch_line, batch_text, counts_text, end_text, entry_text, fault_text, header_text, image_number, kind_number, numbers_text, report_text, saved_number, trial_counts_text, trial_line, trial_text, word_text, workers_text};

use crate::answer::{
    Answer, BatchRun, Conclusion, Counts, RunEnd, SavedFault, TrialRun, WorkerCounts,
};
use arrayvec::ArrayVec;
use asc_elf::ElfFault;
use asc_model::{Fault, FaultKind, SaveFault};
use itoa::Buffer;

/// A text as far as it is built.
type Text = ArrayVec<u8, 512>;

/// Puts the text of a conclusion, which is at most three lines, at the front of `into`, and answers its length. It takes no
/// memory.
pub fn text(conclusion: &Conclusion, into: &mut [u8]) -> usize
    requires { 512 ≤ length into.old }
    ensures text { into.new ≡ report_text conclusion.now ++ drop (length (report_text conclusion.now)) into.old }
    ensures length { result ≡ length (report_text conclusion.now) }
{
    place(&text_of(conclusion), into)
}

/// Puts the text of a trial, which is at most two lines, at the front of `into`, and answers its length. It takes no
/// memory.
pub fn trial_text(trial: &TrialRun, into: &mut [u8]) -> usize
    requires { 512 ≤ length into.old }
    ensures text { into.new ≡ trial_text trial.now ++ drop (length (trial_text trial.now)) into.old }
    ensures length { result ≡ length (trial_text trial.now) }
{
    place(&trial_text_of(trial), into)
}

/// Puts the text of a run of a batch, which is at most three lines, at the front of `into`, and answers its length. It
/// takes no memory.
pub fn batch_text(run: &BatchRun, into: &mut [u8]) -> usize
    requires { 512 ≤ length into.old }
    ensures text { into.new ≡ batch_text run.now ++ drop (length (batch_text run.now)) into.old }
    ensures length { result ≡ length (batch_text run.now) }
{
    place(&batch_text_of(run), into)
}

/// Puts a text at the front of `into`, and answers its length.
fn place(text: &Text, into: &mut [u8]) -> usize
    requires { 512 ≤ length into.old }
    ensures text { into.new ≡ text.now.items ++ drop (length text.now.items) into.old }
    ensures length { result ≡ length text.now.items }
{
    let length = text.len();
    into[..length].copy_from_slice(text.as_slice());
    length
}

/// The text of a conclusion.
#[tactic(auto, unfolding(crate::specs::Report::report_text))]
fn text_of(conclusion: &Conclusion) -> Text
    ensures { result.items ≡ report_text conclusion.now }
{
    let mut text = line(&conclusion.answer);
    put_numbers(&mut text, &conclusion.counts, &conclusion.workers);
    text
}

/// The text of a trial.
#[tactic(auto, unfolding(crate::specs::Report::trial_text))]
fn trial_text_of(trial: &TrialRun) -> Text
    ensures { result.items ≡ trial_text trial.now }
{
    let mut text = Text::new();
    put_trial(&mut text, trial);
    if let Some(counts) = &trial.counts {
        put_trial_counts(&mut text, counts);
    }
    text
}

/// The text of a run of a batch.
#[tactic(auto, unfolding(crate::specs::Report::batch_text))]
fn batch_text_of(run: &BatchRun) -> Text
    ensures { result.items ≡ batch_text run.now }
{
    let mut text = Text::new();
    put_run(&mut text, run);
    put_numbers(&mut text, &run.counts, &run.workers);
    text
}

/// The line of an answer, or nothing.
#[tactic(auto, unfolding(crate::specs::Report::answer_text))]
fn line(answer: &Answer) -> Text
    ensures line { result.items ≡ answer_text answer.now }
    ensures room { array_vec_len result ≤ 96 }
{
    let mut line = Text::new();
    match answer {
        Answer::Exit(_) | Answer::Done(_) | Answer::ReportFault => {}
        Answer::Usage(_) => put(&mut line, b"asc: usage\n"),
        Answer::Image(fault) => put_image_fault(&mut line, fault),
        Answer::TooLong => put(&mut line, b"asc: image too long\n"),
        Answer::InputTooLong(input) => put_long_input(&mut line, *input),
        Answer::Saved(fault) => put_saved_fault(&mut line, fault),
        Answer::StoreFault => put(&mut line, b"asc: store failed\n"),
        Answer::Memory => put(&mut line, b"asc: out of memory\n"),
        Answer::ReadFault => put(&mut line, b"asc: input failed\n"),
        Answer::WriteFault => put(&mut line, b"asc: output failed\n"),
        Answer::ErrFault => put(&mut line, b"asc: error output failed\n"),
        Answer::Limit(count) => put_limit(&mut line, *count),
        Answer::Fault(fault, count) => put_fault(&mut line, fault, *count),
    }
    line
}

/// Appends the line of an image's fault.
fn put_image_fault(line: &mut Text, fault: &ElfFault)
    requires { array_vec_len line.old ≡ 0 }
    ensures line { line.new.items ≡ line.old.items ++ codes "asc: image fault " ++ decimal (image_number fault.now)
        ++ header_text fault.now ++ codes "\n" }
    ensures room { array_vec_len line.new ≤ 96 }
{
    put(line, b"asc: image fault ");
    put_number(line, image_number(fault));
    if let ElfFault::Segment(index) = fault {
        put(line, b" header ");
        put_number(line, u64::from(*index));
    }
    put(line, b"\n");
}

/// Appends the line of a fault of saved entries.
fn put_saved_fault(line: &mut Text, fault: &SavedFault)
    requires { array_vec_len line.old ≡ 0 }
    ensures line { line.new.items ≡ line.old.items ++ codes "asc: saved fault " ++ decimal (saved_number fault.now)
        ++ entry_text fault.now ++ codes "\n" }
    ensures room { array_vec_len line.new ≤ 96 }
{
    put(line, b"asc: saved fault ");
    put_number(line, saved_number(fault));
    if let SavedFault::File(SaveFault::Entry(index) | SaveFault::Untrue(index)) = fault {
        put(line, b" entry ");
        put_number(line, *index as u64);
    }
    put(line, b"\n");
}

/// Appends the line of an input that is too long.
fn put_long_input(line: &mut Text, input: usize)
    requires { array_vec_len line.old ≡ 0 }
    ensures line { line.new.items ≡ line.old.items ++ codes "asc: input " ++ decimal input ++ codes " too long\n" }
    ensures room { array_vec_len line.new ≤ 96 }
{
    put_labelled(line, b"asc: input ", input as u64);
    put(line, b" too long\n");
}

/// Appends the line of a limit that was reached.
fn put_limit(line: &mut Text, count: u64)
    requires { array_vec_len line.old ≡ 0 }
    ensures line { line.new.items ≡ line.old.items ++ codes "asc: limit after " ++ decimal count ++ codes "\n" }
    ensures room { array_vec_len line.new ≤ 96 }
{
    put(line, b"asc: limit after ");
    put_number(line, count);
    put(line, b"\n");
}

/// Appends the line of a machine's fault.
fn put_fault(line: &mut Text, fault: &Fault, count: u64)
    requires { array_vec_len line.old ≡ 0 }
    ensures line { line.new.items ≡ line.old.items ++ codes "asc: " ++ fault_text fault.now
        ++ codes " after " ++ decimal count ++ codes "\n" }
    ensures room { array_vec_len line.new ≤ 96 }
{
    put(line, b"asc: ");
    put_fault_text(line, fault);
    put_labelled(line, b" after ", count);
    put(line, b"\n");
}

/// Appends a machine's fault.
fn put_fault_text(line: &mut Text, fault: &Fault)
    requires { array_vec_len line.old ≤ 31 }
    ensures fault { line.new.items ≡ line.old.items ++ fault_text fault.now }
    ensures room { array_vec_len line.new ≤ array_vec_len line.old + 53 }
{
    put_labelled(line, b"fault ", kind_number(fault.kind));
    put(line, b" at ");
    put_word(line, fault.pc);
    put(line, b" value ");
    put_word(line, fault.value);
}

/// Appends the line of a run of a batch.
fn put_run(line: &mut Text, run: &BatchRun)
    requires { array_vec_len line.old ≡ 0 }
    ensures line { line.new.items ≡ line.old.items ++ batch_line run.now }
    ensures room { array_vec_len line.new ≤ 112 }
{
    put_labelled(line, b"asc: run ", run.number as u64);
    put(line, b": ");
    put_end(line, &run.end);
    put_labelled(line, b" after ", run.steps);
    put(line, b"\n");
}

/// Appends how a run of a batch ended.
fn put_end(line: &mut Text, end: &RunEnd)
    requires { array_vec_len line.old ≤ 31 }
    ensures end { line.new.items ≡ line.old.items ++ end_text end.now }
    ensures room { array_vec_len line.new ≤ array_vec_len line.old + 53 }
{
    match end {
        RunEnd::Exit(code) => put_labelled(line, b"exit ", u64::from(*code)),
        RunEnd::Limit => put(line, b"limit"),
        RunEnd::Fault(fault) => put_fault_text(line, fault),
    }
}

/// Appends the lines of the numbers of a run and of its workers, where they are reported.
fn put_numbers(text: &mut Text, counts: &Option<Counts>, workers: &Option<WorkerCounts>)
    requires { array_vec_len text.old ≤ 112 }
    ensures { text.new.items ≡ text.old.items ++ numbers_text counts.now workers.now }
{
    if let Some(counts) = counts {
        put_counts(text, counts);
    }
    if let Some(workers) = workers {
        put_workers(text, workers);
    }
}

/// Appends the line of the numbers of a run.
#[tactic(auto, unfolding(crate::specs::Report::counts_text))]
fn put_counts(line: &mut Text, counts: &Counts)
    requires { array_vec_len line.old ≤ 112 }
    ensures line { line.new.items ≡ line.old.items ++ counts_text counts.now }
    ensures room { array_vec_len line.new ≤ 284 }
{
    put_labelled(line, b"asc: executed ", counts.run.executed);
    put_labelled(line, b" skipped ", counts.run.skipped);
    put_labelled(line, b" asked ", counts.run.asked);
    put_labelled(line, b" hits ", counts.run.hits);
    put_labelled(line, b" made ", counts.made);
    put_labelled(line, b" refused ", counts.refused);
    put(line, b"\n");
}

/// Appends the line of the numbers of its workers.
#[tactic(auto, unfolding(crate::specs::Report::workers_text))]
fn put_workers(line: &mut Text, workers: &WorkerCounts)
    requires { array_vec_len line.old ≤ 284 }
    ensures { line.new.items ≡ line.old.items ++ workers_text workers.now }
{
    put_labelled(line, b"asc: ran ", workers.tally.ran);
    put_labelled(line, b" left ", workers.left);
    put_labelled(line, b" stored ", workers.tally.stored);
    put_labelled(line, b" known ", workers.tally.known);
    put_labelled(line, b" empty ", workers.tally.empty);
    put_labelled(line, b" dropped ", workers.tally.dropped);
    put_labelled(line, b" stopped ", workers.tally.stopped);
    put_labelled(line, b" full ", workers.full);
    put(line, b"\n");
}

/// Appends the line of a trial.
fn put_trial(line: &mut Text, trial: &TrialRun)
    requires { array_vec_len line.old ≡ 0 }
    ensures line { line.new.items ≡ line.old.items ++ trial_line trial.now }
    ensures room { array_vec_len line.new ≤ 128 }
{
    put_labelled(line, b"trial ", trial.n);
    put_labelled(line, b": status ", u64::from(trial.status));
    put_labelled(line, b", steps ", trial.steps);
    put_labelled(line, b", output ", trial.output);
    put(line, b"\n");
}

/// Appends the line of a trial's numbers.
fn put_trial_counts(line: &mut Text, counts: &Counts)
    requires { array_vec_len line.old ≤ 128 }
    ensures { line.new.items ≡ line.old.items ++ trial_counts_text counts.now }
{
    put_labelled(line, b"executed ", counts.run.executed);
    put_labelled(line, b", skipped ", counts.run.skipped);
    put_labelled(line, b", asked ", counts.run.asked);
    put_labelled(line, b", hits ", counts.run.hits);
    put_labelled(line, b", made ", counts.made);
    put(line, b"\n");
}

/// Appends a label and a number behind it.
fn put_labelled(line: &mut Text, label: &[u8], number: u64)
    requires { array_vec_len line.old + length label.now + 20 ≤ 512 }
    ensures text { line.new.items ≡ line.old.items ++ label.now ++ decimal number }
    ensures room { array_vec_len line.new ≤ array_vec_len line.old + length label.now + 20 }
{
    put(line, label);
    put_number(line, number);
}

/// Appends bytes.
fn put(line: &mut Text, piece: &[u8])
    requires { array_vec_len line.old + length piece.now ≤ 512 }
    ensures { line.new.items ≡ line.old.items ++ piece.now }
{
    line.try_extend_from_slice(piece).unwrap();
}

/// Appends a number in decimal.
fn put_number(line: &mut Text, number: u64)
    requires { array_vec_len line.old + 20 ≤ 512 }
    ensures number { line.new.items ≡ line.old.items ++ decimal number }
    ensures room { array_vec_len line.new ≤ array_vec_len line.old + 20 }
{
    let mut buffer = Buffer::new();
    put(line, buffer.format(number).as_bytes());
}

/// Appends a word as eight hexadecimal digits.
fn put_word(line: &mut Text, word: u32)
    requires { array_vec_len line.old + 8 ≤ 512 }
    ensures word { line.new.items ≡ line.old.items ++ word_text word }
    ensures room { array_vec_len line.new ≡ array_vec_len line.old + 8 }
{
    let mut digits = [0; 8];
    hex::encode_to_slice(word.to_be_bytes(), &mut digits).unwrap();
    put(line, &digits);
}

/// The number of a machine fault's kind.
fn kind_number(kind: FaultKind) -> u64
    ensures { result ≡ kind_number kind }
{
    match kind {
        FaultKind::Misaligned => 1,
        FaultKind::FetchOutside => 2,
        FaultKind::Illegal => 3,
        FaultKind::LoadOutside => 4,
        FaultKind::StoreOutside => 5,
        FaultKind::Break => 6,
        FaultKind::AtomicMisaligned => 7,
    }
}

/// The number of an image's fault.
fn image_number(fault: &ElfFault) -> u64
    ensures { result ≡ image_number fault.now }
{
    match fault {
        ElfFault::Short => 1,
        ElfFault::Magic => 2,
        ElfFault::Class => 3,
        ElfFault::Data => 4,
        ElfFault::Version => 5,
        ElfFault::FileType => 6,
        ElfFault::Machine => 7,
        ElfFault::Flags => 8,
        ElfFault::HeaderSize => 9,
        ElfFault::Table => 10,
        ElfFault::Interp => 11,
        ElfFault::Segment(_) => 12,
        ElfFault::NoLoad => 13,
        ElfFault::TooLarge => 14,
        ElfFault::Entry => 15,
    }
}

/// The number of a fault of saved entries.
fn saved_number(fault: &SavedFault) -> u64
    ensures { result ≡ saved_number fault.now }
{
    match fault {
        SavedFault::File(SaveFault::Short) => 1,
        SavedFault::File(SaveFault::Magic) => 2,
        SavedFault::File(SaveFault::Version) => 3,
        SavedFault::File(SaveFault::Machine) => 4,
        SavedFault::File(SaveFault::Shape) => 5,
        SavedFault::File(SaveFault::Count) => 6,
        SavedFault::File(SaveFault::Entry(_)) => 7,
        SavedFault::File(SaveFault::Long) => 8,
        SavedFault::File(SaveFault::Untrue(_)) => 9,
        SavedFault::OtherShape => 10,
        SavedFault::TooLong => 11,
    }
}
