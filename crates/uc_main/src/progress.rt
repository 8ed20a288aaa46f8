//! How far a search has come, told to whoever watches it.

ghost use Rattle.std.specs.Prelude.{◌≡◌};

use std::rt::Env;
use std::sync::atomic::{AtomicU64, Ordering};
use std::time::{Clock, Instant};
use uc_edge::{Gate, Sink, Written};

/// Whether the environment asks for the line.
pub fn is_asked(rt: &impl Env) -> bool {
    let mut value = [0u8; 2];
    matches!(rt.var("UC_PROGRESS", &mut value), Ok(1)) && value[0] == b'1'
}

/// A gate that counts the tasks that pass it, and about once a second writes a line on how far the search has come, in the place
/// of the one before.
#[derive(Drop)]
pub struct Progress<'a, C: Clock, P: Print> {
    clock: &'a C,
    screen: P,
    start: Option<Instant>,
    tasks: AtomicU64,
    workers: AtomicU64,
    // The second of the line that stands, or 0.
    told: AtomicU64,
}

impl<'a, C: Clock, P: Print> Progress<'a, C, P> {
    /// Begins to count. Nothing is ever written where no line is wanted, or where the clock can't be read.
    pub fn new(clock: &'a C, screen: P, is_wanted: bool) -> Self {
        let start = if is_wanted {
            Instant::now(clock).ok()
        } else {
            None
        };
        Progress {
            clock,
            screen,
            start,
            tasks: AtomicU64::new(0),
            workers: AtomicU64::new(0),
            told: AtomicU64::new(0),
        }
    }

    /// Erases the line that stands, if one does.
    pub fn erase(&self) {
        if self.told.swap(0, Ordering::SeqCst) > 0 {
            let _ = self.screen.print("\r\x1b[K");
        }
    }

    // Notes that the worker of this number is there.
    fn note(&self, worker: u32) {
        self.workers.fetch_max(u64::from(worker), Ordering::SeqCst);
    }

    // Writes the line, unless one was written in this second.
    fn tell(&self, tasks: u64, seconds: u64) {
        let told = self.told.load(Ordering::SeqCst);
        if seconds <= told {
            return;
        }
        let was = self
            .told
            .compare_exchange(told, seconds, Ordering::SeqCst, Ordering::SeqCst);
        if was.is_ok() {
            let (rate, workers) = (tasks / seconds, self.workers.load(Ordering::SeqCst));
            let _ = self.screen.print(format_args!(
                "\r{tasks} tasks, {rate} a second, {workers} workers, {seconds} s\x1b[K"
            ));
        }
    }
}

impl<C: Clock, P: Print> Gate for Progress<'_, C, P> {
    fn pass(&self, worker: u32, _ticket: u64) {
        if let Some(start) = &self.start {
            let tasks = self.tasks.fetch_add(1, Ordering::SeqCst).saturating_add(1);
            self.note(worker);
            if let Ok(passed) = start.elapsed(self.clock) {
                self.tell(tasks, passed.as_secs());
            }
        }
    }
}

/// A sink before whose first byte the line is erased, so that an answer on the same screen begins in an empty line.
#[derive(Drop)]
pub struct Cleared<'a, S: Sink, C: Clock, P: Print> {
    sink: S,
    progress: &'a Progress<'a, C, P>,
}

impl<'a, S: Sink, C: Clock, P: Print> Cleared<'a, S, C, P> {
    /// The sink, with the line to be erased.
    pub fn new(sink: S, progress: &'a Progress<'a, C, P>) -> Self
        ensures { result.sink ≡ sink }
    {
        Cleared { sink, progress }
    }
}

impl<S: Sink, C: Clock, P: Print> Sink for Cleared<'_, S, C, P> {
    ghost written = { λ cleared. S.written cleared.sink };

    ghost faults = { λ cleared. S.faults cleared.sink };

    ghost pieces = { λ cleared. S.pieces cleared.sink };

    fn write(&mut self, piece: &[u8]) -> Written {
        self.progress.erase();
        self.sink.write(piece)
    }
}
