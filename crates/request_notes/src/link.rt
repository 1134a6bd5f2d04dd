// A connection whose requests are noted.
ghost use Rattle.std.specs.Prelude.{◌≡◌};

use crate::notes::{Hearer, Notes};
use mm_base::{EndError, Link};
use std::io::Write;

/// A connection, each of whose requests is noted as soon as it was read whole. All else is that of the link within, and
/// so is what it tells and counts.
#[derive(Drop)]
pub struct NotedLink<'a, L: Link + Drop, W: Write + Copy + Drop> {
    link: L,
    hearer: Option<Hearer<'a, W>>,
}

impl<'a, L: Link + Drop, W: Write + Copy + Drop> NotedLink<'a, L, W> {
    /// The link with its notes, if there are any.
    pub fn new(link: L, notes: &Option<Notes<'a, W>>) -> Self
        ensures { result.link ≡ link }
    {
        let hearer = match notes {
            Some(notes) => Some(Hearer::new(notes)),
            None => None,
        };
        NotedLink { link, hearer }
    }

    /// The link within.
    pub fn into_link(self) -> L
        ensures { result ≡ self.entry.link }
    {
        self.link
    }

    // Hears what was read, if it is noted.
    fn hear(&mut self, piece: &[u8])
        ensures { self.new.link ≡ self.old.link }
    {
        if let Some(hearer) = &mut self.hearer
            && !hearer.hear(piece)
        {
            self.hearer = None;
        }
    }
}

impl<'a, L: Link + Drop, W: Write + Copy + Drop> Link for NotedLink<'a, L, W> {
    ghost view = { λ l. L.view l.link };

    fn read(&mut self, buf: &mut [u8]) -> Result<usize, EndError> {
        let count = self.link.read(buf)?;
        self.hear(&buf[..count]);
        Ok(count)
    }

    fn write(&mut self, piece: &[u8]) -> Result<usize, EndError> {
        self.link.write(piece)
    }

    fn close_output(&mut self) {
        self.link.close_output();
    }
}
