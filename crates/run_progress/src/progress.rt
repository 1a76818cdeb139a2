//! How far a run is, told on standard error.

use crate::piece::last_step;
use crate::watched_files::Watch;
use std::io::Eprint;
use std::time::{Clock, Duration, Instant};

/// The fewest bytes that a step takes in a record.
const FEWEST: u64 = 5;

/// Tells how far a run is, as its record is written.
#[derive(Drop)]
pub struct Progress<R: Clock + Eprint + Drop> {
    rt: R,
    /// Somebody may read what is told.
    is_heard: bool,
    /// When the record was begun.
    began: Option<Instant>,
    /// After which time it is told next.
    due: Duration,
    /// How many bytes were written since.
    bytes: u64,
    /// The step that was told last.
    step: u32,
}

impl<R: Clock + Eprint + Drop> Progress<R> {
    /// `is_heard` says whether anybody may read what is told: standard error is a terminal.
    pub fn new(rt: R, is_heard: bool) -> Progress<R> {
        Progress {
            rt,
            is_heard,
            began: None,
            due: Duration::from_secs(1),
            bytes: 0,
            step: 0,
        }
    }

    /// Tells how far the run is after a time. If that cannot be told, nothing else changes.
    fn tell(&self, gone: Duration) {
        let seconds = gone.as_secs();
        if seconds > 0 {
            let rate = u64::from(self.step) / seconds;
            let _ = eprintln!(self.rt;
                "cloak: {} steps in {seconds} s, {rate} a second",
                self.step
            );
        }
    }
}

impl<R: Clock + Eprint + Drop> Watch for Progress<R> {
    fn begin(&mut self) {
        if !self.is_heard {
            return;
        }
        self.began = Instant::now(&self.rt).ok();
        self.due = Duration::from_secs(1);
        self.bytes = 0;
        self.step = 0;
    }

    fn wrote(&mut self, piece: &[u8]) {
        let Some(began) = self.began else {
            return;
        };
        self.bytes = self.bytes.saturating_add(piece.len() as u64);
        let Ok(gone) = began.elapsed(&self.rt) else {
            return;
        };
        if gone < self.due {
            return;
        }
        if let Some(step) = last_step(piece, self.step, self.bytes / FEWEST) {
            self.step = step;
            self.due = gone.saturating_mul(2);
            self.tell(gone);
        }
    }
}
