//! What the types of a frozen state say of it, said once. The functions do nothing: their contracts are what the types say.
ghost use Rattle.std.specs.Prelude.{◌≡◌, ◌≤◌, length, All, IfSome};
ghost use Rattle.cloak_model.specs.Record.{IsWord};
ghost use Rattle.frozen_run.specs.Shapes.{HasDomainShape, HasFrameShape, HasHartShape, HasMetaShape, HasPageShape, HasRecordedShape, HasShape, HasViolationShape};

use cloak_base::{Meta, PageId, Violation};
use frozen_state::{Frozen, FrozenDomain, FrozenFrame, FrozenHart, FrozenPage};

/// An array has its length.
fn has_length<T, const N: usize>(xs: &[T; N])
    ensures { length xs.now ≡ N }
{}

fn is_word(n: u32)
    ensures { IsWord n }
{}

fn maybe_word(n: Option<u32>)
    ensures { IfSome n IsWord }
{
    if let Some(word) = n {
        is_word(word);
    }
}

fn are_words(words: &[u32])
    ensures { All IsWord words.now }
{}

fn maybe_words(words: &[Option<u32>])
    ensures { All (λ word. IfSome word IsWord) words.now }
{
    for word in words {
        maybe_word(*word);
    }
}

fn meta_has_shape(m: &Meta)
    ensures { HasMetaShape m.now }
{
    has_length(&m.iv);
    has_length(&m.digest);
}

fn page_has_shape(q: &PageId)
    ensures { HasPageShape q.now }
{
    is_word(q.domain);
    is_word(q.resource);
    is_word(q.page);
}

fn violation_has_shape(v: &Violation)
    ensures { HasViolationShape v.now }
{
    match v {
        Violation::Page { page, frame } => {
            page_has_shape(page);
            is_word(frame.0);
        }
        Violation::Context { ctx } => is_word(*ctx),
        Violation::Mapping { ctx, root } => {
            is_word(*ctx);
            is_word(*root);
        }
    }
}

fn domain_has_shape(d: &FrozenDomain)
    ensures { HasDomainShape d.now }
{
    if let Some(violation) = &d.violation {
        violation_has_shape(violation);
    }
    has_length(&d.roots);
    maybe_words(&d.roots);
    meta_has_shape(&d.meta);
    has_length(&d.page);
}

fn domains_have_shape(domains: &[FrozenDomain])
    ensures { All HasDomainShape domains.now }
{
    for domain in domains {
        domain_has_shape(domain);
    }
}

fn hart_has_shape(h: &FrozenHart)
    ensures { HasHartShape h.now }
{
    is_word(h.pc);
    is_word(h.timer);
    maybe_word(h.inside);
    let _ = h.regs.get(0);
    are_words(h.regs.words());
    has_length(&h.csrs);
    are_words(&h.csrs);
    maybe_word(h.mark);
}

fn harts_have_shape(harts: &[FrozenHart])
    ensures { All HasHartShape harts.now }
{
    for hart in harts {
        hart_has_shape(hart);
    }
}

fn frame_has_shape(f: &FrozenFrame)
    ensures { HasFrameShape f.now }
{
    has_length(&f.bytes);
    if let Some((page, meta)) = &f.owed {
        page_has_shape(page);
        meta_has_shape(meta);
    }
}

fn frames_have_shape(frames: &[FrozenFrame])
    ensures { All HasFrameShape frames.now }
{
    for frame in frames {
        frame_has_shape(frame);
    }
}

fn recorded_has_shape(p: &FrozenPage)
    ensures { HasRecordedShape p.now }
{
    page_has_shape(&p.page);
    meta_has_shape(&p.meta);
}

fn pages_have_shape(pages: &[FrozenPage])
    ensures { All HasRecordedShape pages.now }
{
    for page in pages {
        recorded_has_shape(page);
    }
}

/// A state of not too many recorded pages.
pub(crate) fn state_has_shape(f: &Frozen)
    requires { length f.now.recorded ≤ 65536 }
    ensures { HasShape f.now }
{
    is_word(f.steps);
    domains_have_shape(f.domains.as_slice());
    harts_have_shape(f.harts.as_slice());
    frames_have_shape(f.frames.as_slice());
    pages_have_shape(f.recorded.as_slice());
}
