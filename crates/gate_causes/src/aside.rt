//! What is said on standard error beside the replies on standard output.
use crate::colour::Colours;
use std::alloc::Global;
use std::cell::Cell;
use std::fmt::Display;
use std::io;
use std::io::ErrorKind;
use std::time::{Clock, Duration};

/// Standard error for what is said of lines and of replies. Where replies go to a terminal too, what is said waits until it
/// is released, so that a reply stands before what is said of it.
#[derive(Drop)]
pub struct Aside<'a, T> {
    rt: &'a T,
    alloc: Global,
    waits: bool,
    colours: Colours,
    waiting: Cell<Option<String>>,
}

impl<'a, T> Aside<'a, T> {
    pub fn new(rt: &'a T, alloc: Global, waits: bool, colours: Colours) -> Aside<'a, T> {
        Aside {
            rt,
            alloc,
            waits,
            colours,
            waiting: Cell::new(None),
        }
    }

    /// Whether what is said waits for a reply.
    pub(crate) fn waits(&self) -> bool {
        self.waits
    }

    /// Whether words have colours.
    pub fn colours(&self) -> Colours {
        self.colours
    }

    /// Puts a text behind what waits.
    fn keep<D: Display + Drop>(&self, text: D, end: &str) -> io::Result<()> {
        let mut waiting = match self.waiting.replace(None) {
            Some(waiting) => waiting,
            None => String::new(self.alloc),
        };
        let kept = write!(waiting, "{text}{end}");
        self.waiting.set(Some(waiting));
        match kept {
            Ok(()) => Ok(()),
            Err(_) => Err(io::Error::from(ErrorKind::OutOfMemory)),
        }
    }
}

impl<T: Eprint> Aside<'_, T> {
    /// Says what waits. What standard error doesn't take is lost.
    pub fn release(&self) {
        if let Some(text) = self.waiting.replace(None) {
            let _written = self.rt.eprint(text.as_str());
        }
    }
}

impl<T: Eprint> Eprint for Aside<'_, T> {
    fn eprint<D: Display + Drop>(&self, value: D) -> io::Result<()> {
        if self.waits {
            return self.keep(value, "");
        }
        self.rt.eprint(value)
    }

    fn eprintln<D: Display + Drop>(&self, value: D) -> io::Result<()> {
        if self.waits {
            return self.keep(value, "\n");
        }
        self.rt.eprintln(value)
    }
}

impl<T: Clock> Clock for Aside<'_, T> {
    fn monotonic(&self) -> io::Result<Duration> {
        self.rt.monotonic()
    }

    fn since_1970(&self) -> io::Result<Duration> {
        self.rt.since_1970()
    }
}
