//! Images that a C-GET asks for next, brought ahead of their turns (PS3.4, section C.4.3).

use archive_model::Listed;
use crossbeam_channel::Receiver;
use operation::Digest;
use std::alloc::{AllocError, Global};

/// What an operation that is remembered holds of memory beside its data set, in bytes.
pub(crate) const BESIDE: usize = 1024;

/// How many images are on their way to one who asks for them, at most.
const MOST: usize = 16;

/// An image that is asked for soon: its digest, and how long its data set is in bytes.
#[derive(Clone, Copy, Debug)]
pub struct Wanted {
    pub digest: Digest,
    pub size: usize,
}

/// An image on its way. Nothing is sent over the channel: its other end is let go once the image
/// has come, or is known not to.
#[derive(Drop)]
pub struct Coming {
    pub(crate) done: Receiver<()>,
}

/// A way to a shelf that brings into memory what is asked for soon.
pub trait Brings {
    /// How many bytes may be brought before they are asked for.
    fn room(&self) -> usize;

    /// Begins to bring an image, beside what the caller does, where that is worth it.
    fn begin(&self, wanted: &Wanted) -> Option<Coming>;

    /// Waits until an image has come. Nothing is told of one that did not: who asks for it is told.
    fn wait(&self, coming: Coming);
}

/// What a C-GET has listed, in the order in which it asks for it, and how far that was brought.
pub(crate) struct Ahead {
    list: Vec<Wanted>,
    /// The place of what was asked for last.
    at: usize,
    /// What is on its way, for each of the first places of the list.
    coming: Vec<Option<Coming>>,
}

impl Drop for Ahead {
    fn drop(self) {
        let Ahead {
            list,
            at: _,
            coming,
        } = self;
        drop(list);
        drop(coming);
    }
}

/// What is wanted of some images.
fn all_wanted(alloc: Global, listed: &[Listed]) -> Result<Vec<Wanted>, AllocError> {
    let mut list = Vec::with_capacity(alloc, listed.len())?;
    for image in listed {
        list.push(Wanted {
            digest: *image.content.digest(),
            size: image.content.size(),
        })?;
    }
    Ok(list)
}

impl Ahead {
    /// Some images that will be asked for in this order. Where memory is refused none is brought
    /// ahead.
    pub fn of(alloc: Global, listed: &[Listed]) -> Ahead {
        Ahead {
            list: all_wanted(alloc, listed).unwrap_or(Vec::new(alloc)),
            at: 0,
            coming: Vec::new(alloc),
        }
    }

    /// Goes on to the image with a digest; one that is not there ends the list.
    fn reach(&mut self, digest: &Digest) {
        for place in self.at..self.list.len() {
            self.at = place;
            match self.list.get(place) {
                Some(wanted) if wanted.digest == *digest => return,
                _ => {}
            }
        }
        self.at = self.list.len();
    }

    /// Notes that nothing is on its way for the places before the one that was reached, as far as
    /// nothing is noted of them.
    fn pass(&mut self) -> Result<(), AllocError> {
        for _ in self.coming.len()..self.at {
            self.coming.push(None)?;
        }
        Ok(())
    }

    /// Begins to bring the image that was reached and those behind it, as far as there is room.
    fn begin<P: Brings>(&mut self, shelf: &P) -> Result<(), AllocError> {
        let room = shelf.room();
        let mut bytes: usize = 0;
        for (place, wanted) in self.list.iter().enumerate().skip(self.at).take(MOST) {
            bytes = wanted.size.saturating_add(BESIDE).saturating_add(bytes);
            if bytes > room {
                return Ok(());
            }
            if place >= self.coming.len() {
                self.coming.push(shelf.begin(wanted))?;
            }
        }
        Ok(())
    }

    /// What is on its way for the place that was reached.
    fn reached(&mut self) -> Option<Coming> {
        self.coming.get_mut(self.at)?.take()
    }

    /// The image with a digest is asked for: it is waited for, and meanwhile the next ones are
    /// brought. Where memory is refused fewer are.
    pub fn bring<P: Brings>(&mut self, shelf: &P, digest: &Digest) {
        self.reach(digest);
        if self.pass().is_ok() {
            let _ = self.begin(shelf);
        }
        if let Some(coming) = self.reached() {
            shelf.wait(coming);
        }
    }
}
