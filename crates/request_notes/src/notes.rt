// The notes of a serving, and what one connection adds to them.
use crate::lines::{line_of_miss, line_of_record, line_of_refusal};
use crate::misses::find_nearest;
use crate::recorded::Recorded;
use http_frame::{FrameFault, RequestFrames, RequestHead, Step};
use mm_base::{StdSink, send_all};
use record_store::Record;
use request_match::best;
use std::alloc::Global;
use std::io::Write;
use text_base::{Bytes, OutOfMemory};

/// Where requests are noted, each in a line of its own that is written at once, and what they are looked for in.
#[derive(Drop)]
pub struct Notes<'a, W: Write + Copy + Drop> {
    alloc: Global,
    recorded: &'a Recorded,
    writer: W,
}

impl<'a, W: Write + Copy + Drop> Notes<'a, W> {
    /// Notes of a serving of these records. It takes no memory.
    pub fn new(alloc: Global, recorded: &'a Recorded, writer: W) -> Self {
        Notes {
            alloc,
            recorded,
            writer,
        }
    }

    // The same notes once more, for one connection.
    fn share(&self) -> Self {
        Notes {
            alloc: self.alloc,
            recorded: self.recorded,
            writer: self.writer,
        }
    }

    // Writes a line, as far as there is memory for it and it can be written.
    fn write(&self, line: Result<Bytes, OutOfMemory>) {
        if let Ok(line) = line {
            let _ = send_all(&mut StdSink::new(self.writer), line.as_slice());
        }
    }

    // The record that answers a request, and its number, counted from 1.
    fn find(&self, request: &RequestHead) -> Option<(usize, &'a Record)> {
        let store = &self.recorded.store;
        let place = best(store, request, Some(self.recorded.site))?;
        let record = store.records().get(place)?;
        Some((place.saturating_add(1), record))
    }

    // Notes a request. Whether the connection goes on after its answer.
    fn note(&self, request: &RequestHead) -> bool {
        let Recorded { store, site } = self.recorded;
        match self.find(request) {
            Some((number, record)) => {
                let response = &record.response.head;
                self.write(line_of_record(self.alloc, request, number, response.status));
                !(request.closes || response.closes)
            }
            None => {
                let nearest = find_nearest(store.records(), request, *site);
                self.write(line_of_miss(self.alloc, request, *site, &nearest));
                !request.closes
            }
        }
    }
}

/// What one connection has said so far.
#[derive(Drop)]
pub(crate) struct Hearer<'a, W: Write + Copy + Drop> {
    notes: Notes<'a, W>,
    frames: RequestFrames,
}

impl<'a, W: Write + Copy + Drop> Hearer<'a, W> {
    /// Has heard nothing. It takes no memory.
    pub fn new(notes: &Notes<'a, W>) -> Self {
        Hearer {
            notes: notes.share(),
            frames: RequestFrames::new(notes.alloc),
        }
    }

    /// Notes each request that ends in this piece of what the connection says. Whether it goes on hearing: it doesn't
    /// after a request whose answer closes, after what is no request, and if memory is wanting.
    pub fn hear(&mut self, piece: &[u8]) -> bool {
        if self.frames.feed(piece).is_err() {
            return false;
        }
        // No more requests end in a piece than it has bytes.
        for _ in 0..piece.len() {
            match self.frames.next_head() {
                Ok(Step::Message(request)) => {
                    if !self.notes.note(&request) {
                        return false;
                    }
                }
                Ok(Step::More) => return true,
                Err(FrameFault::Frame(_)) => {
                    self.notes.write(line_of_refusal(self.notes.alloc));
                    return false;
                }
                Err(FrameFault::OutOfMemory) => return false,
            }
        }
        true
    }
}
