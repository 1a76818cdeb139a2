//! Kinds of items, which a reader of a record chooses.
ghost use Rattle.cloak_model.specs.Items.{item_of};
ghost use Rattle.std.specs.Prelude.{◌≡◌};
ghost use Rattle.record_text.specs.Kinds as spec;

use cloak_model::Item;

/// The kinds of items that are chosen. Markers are of no kind.
#[derive(Clone, Copy, Debug, PartialEq, Eq)]
pub struct Kinds {
    pub cipher: bool,
    pub put: bool,
    pub leave: bool,
    pub ok: bool,
    pub absent: bool,
    pub word: bool,
    pub timer: bool,
    pub resume: bool,
    pub stopped: bool,
    pub ended: bool,
}

impl Kinds {
    /// No kind.
    pub const NONE: Kinds = Kinds {
        cipher: false,
        put: false,
        leave: false,
        ok: false,
        absent: false,
        word: false,
        timer: false,
        resume: false,
        stopped: false,
        ended: false,
    };

    pub const CIPHER: Kinds = Kinds {
        cipher: true,
        ..Kinds::NONE
    };

    pub const PUT: Kinds = Kinds {
        put: true,
        ..Kinds::NONE
    };

    pub const LEAVE: Kinds = Kinds {
        leave: true,
        ..Kinds::NONE
    };

    pub const OK: Kinds = Kinds {
        ok: true,
        ..Kinds::NONE
    };

    pub const ABSENT: Kinds = Kinds {
        absent: true,
        ..Kinds::NONE
    };

    pub const WORD: Kinds = Kinds {
        word: true,
        ..Kinds::NONE
    };

    pub const TIMER: Kinds = Kinds {
        timer: true,
        ..Kinds::NONE
    };

    pub const RESUME: Kinds = Kinds {
        resume: true,
        ..Kinds::NONE
    };

    pub const STOPPED: Kinds = Kinds {
        stopped: true,
        ..Kinds::NONE
    };

    pub const ENDED: Kinds = Kinds {
        ended: true,
        ..Kinds::NONE
    };

    /// What the kernel could see.
    pub const OUTWARD: Kinds = Kinds {
        cipher: true,
        put: true,
        leave: true,
        ..Kinds::NONE
    };
    /// What programs were answered.
    pub const INWARD: Kinds = Kinds {
        ok: true,
        absent: true,
        word: true,
        timer: true,
        resume: true,
        stopped: true,
        ended: true,
        ..Kinds::NONE
    };

    /// The item is of one of these kinds.
    pub fn has(&self, item: &Item<'_>) -> bool
        ensures { result ≡ spec.is_of_kind self.now (item_of item.now) }
    {
        match item {
            Item::Cipher { .. } => self.cipher,
            Item::Put { .. } => self.put,
            Item::Leave(_) => self.leave,
            Item::Step { .. } => false,
            Item::Close { .. } => false,
            Item::End => false,
            Item::Ok { .. } => self.ok,
            Item::Absent { .. } => self.absent,
            Item::Word { .. } => self.word,
            Item::Timer { .. } => self.timer,
            Item::Resume { .. } => self.resume,
            Item::Stopped { .. } => self.stopped,
            Item::Ended { .. } => self.ended,
        }
    }
}
