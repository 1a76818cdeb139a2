ghost use Rattle.std.specs.Prelude.{◌≡◌};

// A child of this module: it alone makes rights, by the private fields.
mod store;

use cloak_base::{Frame, PageId};
use std::marker::Model;
pub use store::FrameStore;

/// The right to a frame that the outside may read and write.
#[derive(Drop)]
pub struct OutsideRight {
    frame: Frame,
}

impl Model for OutsideRight {
    ghost use Rattle.cloak_base.specs.declared.names.Frame.{Frame};

    ghost Value = { Frame };

    ghost view = { λ r. r.frame };
}

impl OutsideRight {
    pub fn frame(&self) -> Frame
        ensures { result ≡ self.now }
    {
        self.frame
    }
}

/// The right to a frame that holds a page in plain text, unchanged since it was opened.
#[derive(Drop)]
pub struct CleanRight {
    frame: Frame,
    page: PageId,
}

impl Model for CleanRight {
    ghost use Rattle.frame_store.specs.Rights.{Holding};

    ghost Value = { Holding };

    ghost view = { λ r. record { frame = r.frame; page = r.page } };
}

impl CleanRight {
    pub fn frame(&self) -> Frame
        ensures { result ≡ self.now.frame }
    {
        self.frame
    }

    pub fn page(&self) -> PageId
        ensures { result ≡ self.now.page }
    {
        self.page
    }
}

/// The right to a frame that holds a page in plain text, which may be newer than what was last shown of it.
#[derive(Drop)]
pub struct ChangedRight {
    frame: Frame,
    page: PageId,
}

impl Model for ChangedRight {
    ghost use Rattle.frame_store.specs.Rights.{Holding};

    ghost Value = { Holding };

    ghost view = { λ r. record { frame = r.frame; page = r.page } };
}

impl ChangedRight {
    pub fn frame(&self) -> Frame
        ensures { result ≡ self.now.frame }
    {
        self.frame
    }

    pub fn page(&self) -> PageId
        ensures { result ≡ self.now.page }
    {
        self.page
    }
}

/// Keeps the frame, the page and the bytes.
pub fn promote(r: CleanRight) -> ChangedRight
    ensures { result ≡ r }
{
    ChangedRight {
        frame: r.frame,
        page: r.page,
    }
}
