//! What a frozen state is made of, as bytes.
ghost use Rattle.std.specs.Prelude.{◌≡◌, List, ℕ};
ghost use Rattle.std.specs.List.{flat_map};
ghost use Rattle.cloak_model.specs.Bits.{word};
ghost use Rattle.frozen_state.specs.FrozenState as spec;
ghost use Rattle.frozen_run.specs.Writing.{AddsMore};

use crate::pen::Pen;
use cloak_base::{Meta, Mode, PageId, Violation};
use frozen_state::{FrozenDomain, FrozenFrame, FrozenHart, FrozenPage};
use io_traits::Shelf;

/// What is written as bytes, the lowest of a number first.
pub(crate) trait Spelled {
    ghost spelled: { Self → List ℕ };

    fn put_to<S: Shelf>(&self, pen: &mut Pen<'_, '_, S>)
        ensures same_shelf { pen.new.shelf.ghost_name ≡ pen.old.shelf.ghost_name }
        ensures gives { AddsMore S.Shelf pen.old pen.new (spelled self.now) };
}

/// Writes these, one after another.
pub(crate) fn put_each<T: Spelled, S: Shelf>(items: &[T], pen: &mut Pen<'_, '_, S>)
    ensures same_shelf { pen.new.shelf.ghost_name ≡ pen.old.shelf.ghost_name }
    ensures gives { AddsMore S.Shelf pen.old pen.new (flat_map T.spelled items.now) }
{
    for item in items {
        item.put_to(pen);
    }
}

impl Spelled for u32 {
    ghost spelled = { λ n. word n };

    fn put_to<S: Shelf>(&self, pen: &mut Pen<'_, '_, S>) {
        pen.put(&self.to_le_bytes());
    }
}

impl Spelled for Option<u32> {
    ghost spelled = { λ w. spec.maybe_word w };

    fn put_to<S: Shelf>(&self, pen: &mut Pen<'_, '_, S>) {
        match self {
            None => pen.put(&[0]),
            Some(w) => {
                pen.put(&[1]);
                w.put_to(pen);
            }
        }
    }
}

impl Spelled for PageId {
    ghost spelled = { λ q. spec.page_words q };

    fn put_to<S: Shelf>(&self, pen: &mut Pen<'_, '_, S>) {
        self.domain.put_to(pen);
        self.resource.put_to(pen);
        self.page.put_to(pen);
    }
}

impl Spelled for Meta {
    ghost spelled = { λ m. spec.meta_bytes m };

    fn put_to<S: Shelf>(&self, pen: &mut Pen<'_, '_, S>) {
        pen.put(&self.iv);
        pen.put(&self.digest);
    }
}

impl Spelled for Violation {
    ghost use Rattle.std.specs.Prelude.{Some};

    ghost spelled = { λ v. spec.violation_bytes (Some v) };

    fn put_to<S: Shelf>(&self, pen: &mut Pen<'_, '_, S>) {
        match self {
            Violation::Page { page, frame } => {
                pen.put(&[1]);
                page.resource.put_to(pen);
                page.page.put_to(pen);
                frame.0.put_to(pen);
            }
            Violation::Context { ctx } => {
                pen.put(&[2]);
                ctx.put_to(pen);
            }
            Violation::Mapping { ctx, root } => {
                pen.put(&[3]);
                ctx.put_to(pen);
                root.put_to(pen);
            }
        }
    }
}

impl Spelled for Option<Violation> {
    ghost spelled = { λ v. spec.violation_bytes v };

    fn put_to<S: Shelf>(&self, pen: &mut Pen<'_, '_, S>) {
        match self {
            None => pen.put(&[0]),
            Some(v) => v.put_to(pen),
        }
    }
}

impl Spelled for FrozenDomain {
    ghost spelled = { λ d. spec.domain_bytes d };

    fn put_to<S: Shelf>(&self, pen: &mut Pen<'_, '_, S>) {
        self.violation.put_to(pen);
        put_each(&self.roots, pen);
        self.meta.put_to(pen);
        pen.put(&self.page);
    }
}

/// 0 for U, 1 for S.
fn mode_byte(mode: Mode) -> u8
    ensures { result ≡ spec.mode_byte mode }
{
    match mode {
        Mode::U => 0,
        Mode::S => 1,
    }
}

impl Spelled for FrozenHart {
    ghost spelled = { λ h. spec.hart_bytes h };

    fn put_to<S: Shelf>(&self, pen: &mut Pen<'_, '_, S>) {
        pen.put(&[mode_byte(self.mode)]);
        self.pc.put_to(pen);
        self.timer.put_to(pen);
        self.inside.put_to(pen);
        put_each(&self.regs.words()[1..], pen);
        put_each(&self.csrs, pen);
        self.mark.put_to(pen);
    }
}

impl Spelled for Option<(PageId, Meta)> {
    ghost spelled = { λ owed. spec.owed_bytes owed };

    fn put_to<S: Shelf>(&self, pen: &mut Pen<'_, '_, S>) {
        match self {
            None => pen.put(&[0]),
            Some((page, meta)) => {
                pen.put(&[1]);
                page.put_to(pen);
                meta.put_to(pen);
            }
        }
    }
}

impl Spelled for FrozenFrame {
    ghost spelled = { λ f. spec.frame_bytes f };

    fn put_to<S: Shelf>(&self, pen: &mut Pen<'_, '_, S>) {
        pen.put(&self.bytes);
        self.owed.put_to(pen);
    }
}

impl Spelled for FrozenPage {
    ghost spelled = { λ p. spec.recorded_bytes p };

    fn put_to<S: Shelf>(&self, pen: &mut Pen<'_, '_, S>) {
        self.page.put_to(pen);
        self.meta.put_to(pen);
    }
}
