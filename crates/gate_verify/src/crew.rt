//! Workers that wait for pieces for as long as somebody hands them out.
ghost use Rattle.std.specs.Prelude.{◌≡◌, IfOk};

use crate::check::InputCheck;
use crate::gathering::gather;
use crate::verifying::check_each;
use crate::workers::Workers;
use crossbeam_channel::{Receiver, Sender, unbounded};
use gate_bytes::{Copied, Memory};
use gate_inputs::{InputReport, Piece};
use std::alloc::Global;
use std::sync::Wait;
use std::thread;
use std::thread::Threads;

/// A piece that is to be checked, its place in its list, and the way back of its report.
#[derive(Drop)]
struct Task {
    place: usize,
    piece: Piece,
    back: Sender<Done>,
}

/// What was reported on the piece at a place.
#[derive(Drop)]
struct Done {
    place: usize,
    report: InputReport,
}

/// The end at which pieces are handed out.
#[derive(Drop)]
pub struct Crew {
    out: Sender<Task>,
    tasks: Receiver<Task>,
}

/// The end at which workers take pieces.
#[derive(Drop)]
pub struct Post {
    tasks: Receiver<Task>,
}

/// Checks a piece, and sends its report back. If memory runs out, no report is sent.
fn finish<T: Wait, C: InputCheck>(rt: &T, alloc: Global, check: &C, task: Task) {
    let Task { place, piece, back } = task;
    if let Ok(report) = check.check(alloc, &piece) {
        let _ = back.send(rt, Done { place, report });
    }
}

/// Checks the pieces that come, until no more can come.
fn work<T: Wait, C: InputCheck>(rt: &T, alloc: Global, check: &C, tasks: Receiver<Task>) {
    for task in tasks.iter(rt) {
        finish(rt, alloc, check, task);
    }
}

/// Checks a piece that was handed out and those that come after it, until no more can come, with two threads fewer than
/// there are workers: this thread checks too, and so do those who hand pieces out.
fn serve_all<T: Threads + Wait + Sync, C: InputCheck + Sync>(
    rt: &T,
    alloc: Global,
    check: &C,
    first: Task,
    tasks: Receiver<Task>,
    workers: Workers,
) {
    thread::scope(thread::scope_env(), rt, |scope| {
        for _ in 2..workers.count() {
            if let Ok(tasks) = tasks.clone() {
                let _ = scope.spawn(move || work(rt, alloc, check, tasks));
            }
        }
        finish(rt, alloc, check, first);
        work(rt, alloc, check, tasks);
    });
}

/// Checks the pieces that are handed out, with one thread fewer than there are workers, since those who hand them out check
/// too. Until a first piece comes this thread waits for it alone: it starts the others once it has one, and none if none
/// comes. It ends once nobody can hand out any more.
pub fn serve<T: Threads + Wait + Sync, C: InputCheck + Sync>(
    rt: &T,
    alloc: Global,
    check: &C,
    post: Post,
    workers: Workers,
) {
    let Post { tasks } = post;
    if let Ok(first) = tasks.recv(rt) {
        serve_all(rt, alloc, check, first, tasks, workers);
    }
}

/// The reports that came, each at its place.
fn arrivals<T: Wait>(
    rt: &T,
    alloc: Global,
    count: usize,
    back: Receiver<Done>,
) -> Result<Vec<Option<InputReport>>, Memory> {
    let mut came = Vec::with_capacity(alloc, count)?;
    for _ in 0..count {
        came.push(None)?;
    }
    for done in back.iter(rt) {
        let Done { place, report } = done;
        if place < came.len() {
            came[place] = Some(report);
        }
    }
    Ok(came)
}

/// A piece of a list with its place there, and the way back.
fn addressed(
    alloc: Global,
    place: usize,
    piece: &Piece,
    back: &Sender<Done>,
) -> Result<Task, Memory> {
    let back = back.clone()?;
    match piece.copy(alloc) {
        Ok(piece) => Ok(Task { place, piece, back }),
        Err(Memory) => {
            drop(back);
            Err(Memory)
        }
    }
}

impl Crew {
    /// A crew without workers, and the end at which workers take pieces.
    pub fn new(alloc: Global) -> Result<(Crew, Post), Memory> {
        let (out, tasks) = unbounded(alloc)?;
        let post = Post {
            tasks: tasks.clone()?,
        };
        Ok((Crew { out, tasks }, post))
    }

    /// Hands out pieces. A piece for which memory runs out is left out.
    fn hand_out<T: Wait>(&self, rt: &T, alloc: Global, pieces: &[Piece], back: Sender<Done>) {
        for (place, piece) in pieces.iter().enumerate() {
            if let Ok(task) = addressed(alloc, place, piece, &back) {
                let _ = self.out.send(rt, task);
            }
        }
    }

    /// Checks pieces that no worker has taken, at most `most` of them.
    fn help<T: Wait, C: InputCheck>(&self, rt: &T, alloc: Global, check: &C, most: usize) {
        for _ in 0..most {
            match self.tasks.try_recv(rt) {
                Ok(task) => finish(rt, alloc, check, task),
                Err(_) => return,
            }
        }
    }

    /// The reports of the pieces, in their order, whatever the workers do. A single piece is checked by the caller, who
    /// also takes pieces that no worker has taken, so the reports come even without a worker. If the check gives no report
    /// on a piece or one on another piece, the caller makes it, so a worker whose memory runs out does not make the call
    /// fail.
    pub fn verify<T: Wait, C: InputCheck>(
        &self,
        rt: &T,
        alloc: Global,
        check: &C,
        pieces: &[Piece],
    ) -> Result<Vec<InputReport>, Memory>
        ensures { IfOk result (λ reports. reports.items ≡ pieces.now) }
    {
        if pieces.len() <= 1 {
            return check_each(alloc, check, pieces);
        }
        let (back, reports) = unbounded(alloc)?;
        self.hand_out(rt, alloc, pieces, back);
        self.help(rt, alloc, check, pieces.len());
        let came = arrivals(rt, alloc, pieces.len(), reports)?;
        gather(alloc, pieces, came)
    }
}
