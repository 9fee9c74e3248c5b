ghost use Rattle.std.specs.Prelude.{◌≡◌, ◌<◌, ◌≤◌, ◌^◌, Some, None, IfOk, IfErr, IfSome};
ghost use Rattle.std.specs.Arc.{arc_value};
ghost use Rattle.asc_model.specs.Shape.{Shape};
ghost use Rattle.asc_model.specs.declared.tally.Column.TheVariants as ran;
ghost use Rattle.asc_traj.specs.declared.made.Made.TheVariants as made;
ghost use Rattle.asc_traj.specs.Made.{IsMade};
ghost use Rattle.asc_traj.specs.Trace.{CountsAnswer};
ghost use Rattle.asc_model.specs.Tally.{no_jobs, noted, job_counts};
ghost use Rattle.asc_work.specs.Inside.{HasOwn, HasTracer};
ghost use Rattle.asc_work.specs.Worker.{IsOfShape, IsEmpty, HasInserted, HasJoined, HasAsked, Ends, bounds_for, guess_for, steps_for};

use crate::joining::Joining;
use asc_cache::Insert;
use asc_depvec::{Tracer, Unfilled};
use asc_guess::guess;
use asc_jobs::Job;
use asc_model::{Column, MOST_PLACES, Tally};
use asc_outside::{Gate, Memory, Point};
use asc_shape::Shape;
use asc_shard::Inserted;
use asc_traj::{Entry, Halt, Made, Stop};
use std::alloc::Global;
use std::marker::Model;
use std::mem;
use std::sync::Arc;

/// It runs jobs, one after another, and inserts the entries of their guesses, and where it joins also the joins of those
/// that follow one another. The memory of its tracer is taken when it is made, and filled later: by `work_loop` once the
/// worker was woken, or else for its first job.
#[derive(Drop)]
pub struct Worker<W: Insert + Drop, H: Halt + Drop> {
    alloc: Global,
    shape: Shape,
    // The memory of its tracer, until its first job.
    unfilled: Option<Unfilled>,
    // Its tracer, from then on.
    tracer: Option<Tracer>,
    laps: u64,
    span: u64,
    joining: Joining,
    writer: W,
    halt: H,
    tally: Tally,
}

impl<W: Insert + Drop, H: Halt + Drop> Model for Worker<W, H> {
    ghost use Rattle.asc_model.specs.Tally.{job_counts};
    ghost use Rattle.asc_work.specs.Worker as model;
    ghost use Rattle.asc_work.specs.Inside.{HasOwn};
    ghost use Rattle.std.specs.Arc.{arc_value};
    ghost use Rattle.std.specs.Option.{option_map};
    ghost use Rattle.std.specs.Prelude.{◌≤◌};

    ghost Value = { model.Worker W H };

    ghost view = { λ w. record {
      shape = w.shape;
      laps = w.laps;
      span = w.span;
      writer = w.writer;
      halt = w.halt;
      tally = job_counts w.tally;
      join = w.joining.join;
      kept = option_map arc_value w.joining.kept;
      left_out = w.joining.left_out;
    } };

    ghost invariant = { λ w. HasOwn w.shape w.unfilled w.tracer × (1 ≤ w.laps) × (1 ≤ w.span) };
}

impl<W: Insert + Drop, H: Halt + Drop> Worker<W, H> {
    /// A worker that has run no job. It traces a guess over at most `laps` laps and `span` steps, and stops where
    /// `halt` says so. With `join` it joins each entry that it stores behind the one that it stored before. Where
    /// memory is wanting the writer and the halt are handed back. All memory of its tracer is taken here, and what grows
    /// with the shape is not filled.
    pub fn new(
        alloc: Global,
        shape: Shape,
        laps: u64,
        span: u64,
        writer: W,
        halt: H,
        join: bool,
    ) -> Result<Worker<W, H>, (Memory, W, H)>
        requires laps { 1 ≤ laps }
        requires span { 1 ≤ span }
        ensures made { IfOk result (λ w. w ≡ record {
          shape = shape;
          laps = laps;
          span = span;
          writer = writer;
          halt = halt;
          tally = no_jobs;
          join = join;
          kept = None;
          left_out = 0;
        }) }
        ensures memory { IfErr result (λ back. (back.1 ≡ writer) × (back.2 ≡ halt)) }
    {
        match Unfilled::new(alloc, shape, MOST_PLACES) {
            Ok(unfilled) => Ok(Worker {
                alloc,
                shape,
                unfilled: Some(unfilled),
                tracer: None,
                laps,
                span,
                joining: Joining::new(join),
                writer,
                halt,
                tally: Tally::new(),
            }),
            Err(memory) => Err((memory, writer, halt)),
        }
    }

    /// Runs a job: guesses its state, traces that until it is back at the pc of the last visit, and inserts the entry of
    /// the trace. It notes in its tally what became of the job, and answers that. The gate is passed at `Traced` before
    /// the insertion. It costs what the trace touches, and what the last one touched; and the first one what is not
    /// filled yet of the tracer's memory, none of which is taken here.
    ///
    /// A worker that joins also inserts the join of the entry that it keeps and one that is stored, where there is one. It
    /// then keeps the stored one. Where memory is wanting for either, the answer is still `Stored`, and `left_out` counts it.
    pub fn run_job<G: Gate>(&mut self, job: Job, gate: &G) -> Column
        requires { self.old.tally.ran < 2 ^ 62 }
        ensures empty { result ≡ ran.Empty → IsEmpty self.old job }
        ensures other { (IsOfShape self.old.shape job → ⊥) → result ≡ ran.Empty }
        ensures steps { IsEmpty self.old job → result ≡ ran.Empty }
        ensures halt { HasAsked result (H.count self.old.halt) (H.count self.new.halt) }
        ensures inserted { HasInserted result self.old self.new job (W.content self.old.writer) (W.content self.new.writer) }
        ensures tally { self.new.tally ≡ noted result self.old.tally }
        ensures shape { self.new.shape ≡ self.old.shape }
        ensures laps { self.new.laps ≡ self.old.laps }
        ensures span { self.new.span ≡ self.old.span }
        ensures join { self.new.join ≡ self.old.join }
        ensures identity { W.identity self.new.writer ≡ W.identity self.old.writer }
    {
        let ran = self.run_untallied(job, gate);
        self.tally.note(ran);
        ran
    }

    /// What became of the jobs that it has run.
    pub fn tally(&self) -> Tally
        ensures { job_counts result ≡ self.now.tally }
    {
        self.tally
    }

    /// What became of the jobs that it has run. It then counts from 0 on.
    pub fn take_tally(&mut self) -> Tally
        ensures tally { job_counts result ≡ self.old.tally }
        ensures worker { self.new ≡ record self.old { tally = no_jobs } }
    {
        let tally = self.tally;
        self.tally = Tally::new();
        tally
    }

    /// At how many jobs a join, or an entry to keep, was left out for want of memory: up to 2^64 - 1.
    pub fn left_out(&self) -> u64
        ensures { result ≡ self.now.left_out }
    {
        self.joining.left_out
    }

    /// Where it inserts entries.
    pub fn writer(&self) -> &W
        ensures { result.now ≡ self.now.writer }
    {
        &self.writer
    }

    /// It asks another halt from now on, and hands back the one before.
    pub fn rehalt(&mut self, halt: H) -> H
        ensures before { result ≡ self.old.halt }
        ensures worker { self.new ≡ record self.old { halt = halt } }
    {
        mem::replace(&mut self.halt, halt)
    }

    /// Its writer and its halt.
    pub fn end(self) -> (W, H)
        ensures writer { result.0 ≡ self.writer }
        ensures halt { result.1 ≡ self.halt }
    {
        let Self {
            alloc: _,
            shape: _,
            unfilled: _unfilled,
            tracer: _tracer,
            laps: _,
            span: _,
            joining: _joining,
            writer,
            halt,
            tally: _,
        } = self;
        (writer, halt)
    }

    /// Fills a further piece of the memory of its tracer, and answers whether all of it is filled. It takes no memory.
    pub(crate) fn fill_some(&mut self) -> bool
        ensures { self.new ≡ self.old }
    {
        match &mut self.unfilled {
            Some(unfilled) => unfilled.fill_some(),
            None => true,
        }
    }

    /// Whether its halt says to stop.
    pub(crate) fn is_asked_to_stop(&mut self) -> bool
        ensures count { CountsAnswer (H.count self.old.halt) (H.count self.new.halt) result }
        ensures worker { self.new ≡ record self.old { halt = self.new.halt } }
    {
        self.halt.asked()
    }

    // Runs a job, but for its tally.
    fn run_untallied<G: Gate>(&mut self, job: Job, gate: &G) -> Column
        ensures empty { result ≡ ran.Empty → IsEmpty self.old job }
        ensures other { (IsOfShape self.old.shape job → ⊥) → result ≡ ran.Empty }
        ensures steps { IsEmpty self.old job → result ≡ ran.Empty }
        ensures halt { HasAsked result (H.count self.old.halt) (H.count self.new.halt) }
        ensures inserted { HasInserted result self.old self.new job (W.content self.old.writer) (W.content self.new.writer) }
        ensures tally { self.new.tally ≡ self.old.tally }
        ensures shape { self.new.shape ≡ self.old.shape }
        ensures laps { self.new.laps ≡ self.old.laps }
        ensures span { self.new.span ≡ self.old.span }
        ensures join { self.new.join ≡ self.old.join }
        ensures identity { W.identity self.new.writer ≡ W.identity self.old.writer }
    {
        if job.prev.shape() != self.shape || job.last.shape() != self.shape {
            return Column::Empty;
        }
        make_tracer(&mut self.unfilled, &mut self.tracer);
        let Some(tracer) = &mut self.tracer else {
            unreachable!()
        };
        let ticket = job.ticket;
        match make_entry(
            self.alloc,
            tracer,
            &mut self.halt,
            job,
            self.laps,
            self.span,
        ) {
            Made::One(entry) => self.insert(entry, ticket, gate),
            Made::Empty => Column::Empty,
            Made::Stopped => Column::Stopped,
            Made::Refused => Column::Dropped,
        }
    }

    // Passes the gate, and inserts an entry. Where that is stored and the worker joins, it is joined and kept.
    fn insert<G: Gate>(&mut self, entry: Arc<Entry>, ticket: u64, gate: &G) -> Column
        ensures ends { Ends result self.old self.new (Some (arc_value entry)) (W.content self.old.writer) (W.content self.new.writer) }
        ensures same { self.new ≡ record self.old { writer = self.new.writer; kept = self.new.kept; left_out = self.new.left_out } }
        ensures identity { W.identity self.new.writer ≡ W.identity self.old.writer }
    {
        gate.pass(Point::Traced, ticket);
        let copy = self.joining.copy_of(&entry);
        match self.writer.insert(entry) {
            Ok(Inserted::Stored) => {
                if self.joining.join {
                    self.join_stored(copy);
                }
                Column::Stored
            }
            Ok(Inserted::Known) => Column::Known,
            Err(Memory) => Column::Dropped,
        }
    }

    // Inserts the join of a stored entry behind the kept one, and keeps it. There is no copy of it where memory was
    // wanting for one.
    fn join_stored(&mut self, copy: Option<Arc<Entry>>)
        ensures joined { (e : Entry) → IfSome copy (λ c. arc_value c ≡ e)
            → HasJoined self.old self.new e (W.content self.old.writer) (W.content self.new.writer) }
        ensures same { self.new ≡ record self.old { writer = self.new.writer; kept = self.new.kept; left_out = self.new.left_out } }
        ensures identity { W.identity self.new.writer ≡ W.identity self.old.writer }
    {
        let Some(entry) = copy else {
            self.joining.keep(None, false);
            return;
        };
        let joined = self
            .joining
            .insert_join(self.alloc, &entry, &mut self.writer);
        self.joining.keep(Some(entry), joined.is_ok());
    }
}

/// Makes the tracer of its memory, where that was not done yet.
pub(crate) fn make_tracer(unfilled: &mut Option<Unfilled>, tracer: &mut Option<Tracer>)
    ensures made { (shape : Shape) → HasOwn shape unfilled.old tracer.old → HasTracer shape tracer.new }
    ensures none { unfilled.new ≡ None }
{
    if let Some(memory) = unfilled.take() {
        *tracer = Some(memory.into_tracer());
    }
}

// Traces the guess of a job, and makes the entry of the trace.
fn make_entry<H: Halt>(
    alloc: Global,
    tracer: &mut Tracer,
    halt: &mut H,
    job: Job,
    laps: u64,
    span: u64,
) -> Made
    requires shapes { IsOfShape tracer.old.shape job }
    requires cap { tracer.old.cap ≡ MOST_PLACES }
    requires laps { 1 ≤ laps }
    requires span { 1 ≤ span }
    ensures made { IsMade (bounds_for laps span job) (guess_for job) (H.count halt.old) (H.count halt.new) result }
    ensures empty { steps_for laps span job ≡ 0 → result ≡ made.Empty }
    ensures shape { tracer.new.shape ≡ tracer.old.shape }
    ensures own_shape { tracer.new.state.shape ≡ tracer.old.shape }
    ensures same_cap { tracer.new.cap ≡ tracer.old.cap }
{
    let stop = Stop {
        pc: job.last.pc(),
        laps,
        span,
    };
    let guess = guess(job.kind, job.prev, job.last, job.ahead);
    Entry::traced(alloc, tracer, guess, &stop, halt)
}
