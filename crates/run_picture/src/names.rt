//! What is told in words: of what a frame has, and of marks.
ghost use Rattle.std.specs.Prelude.{◌≡◌, ◌++◌, decimal};
ghost use Rattle.run_picture.specs.Signs as signs;
ghost use Rattle.run_picture.specs.Words as words;
ghost use Rattle.svg_text.specs.Labels.{put_signs, signs_of};

use cloak_base::{EXIT, PageId, TIMER_CAUSE};
use run_notes::{Look, Mark, MarkKind, Sight};
use svg_text::Label;

/// The cause of a call.
const CALLED: u32 = 8;

/// A text and a number.
#[tactic(auto, using(svg_text::proofs::Putting::put_put))]
fn put_numbered(label: &mut Label, text: &str, number: u32)
    ensures { signs_of label.new ≡ put_signs (signs_of label.old) (text.now ++ decimal number) }
{
    label.text(text);
    label.number(u64::from(number));
}

/// The number of a resource, if it is not the first.
fn put_resource(label: &mut Label, resource: u32)
    ensures { signs_of label.new ≡ put_signs (signs_of label.old) (words.resource_words resource) }
{
    if resource == 0 {
        label.text("");
    } else {
        put_numbered(label, " of resource ", resource);
    }
}

/// A page.
#[tactic(auto, using(svg_text::proofs::Putting::put_put))]
pub fn put_page(label: &mut Label, page: PageId)
    ensures { signs_of label.new ≡ put_signs (signs_of label.old) (words.page_words page) }
{
    label.text("program ");
    label.number(u64::from(page.domain));
    label.text(", page ");
    label.number(u64::from(page.page));
    put_resource(label, page.resource);
}

/// Steps, from the one after `from` to `to`.
#[tactic(auto, using(svg_text::proofs::Putting::put_put))]
pub fn put_steps(label: &mut Label, from: u32, to: u32)
    ensures { signs_of label.new ≡ put_signs (signs_of label.old) (words.step_words from to) }
{
    let first = u64::from(from) + 1;
    if first < u64::from(to) {
        label.text("steps ");
        label.number(first);
        label.text(" to ");
        label.number(u64::from(to));
    } else {
        label.text("step ");
        label.number(u64::from(to));
    }
}

/// What a look means, of a page with a number or with none.
fn look_words(look: Look, is_numbered: bool) -> &'static str
    ensures { result.now ≡ words.look_words look is_numbered }
{
    match look {
        Look::Zeros => "zeros",
        Look::Open => "memory that is not cloaked",
        Look::Lost => "not known: the items of its program do not fit",
        Look::Cipher => "ciphertext",
        Look::Old => "ciphertext that no page takes any more,",
        Look::Altered => "ciphertext into which was stored since,",
        Look::OldAltered => "ciphertext into which was stored, and that no page takes any more,",
        Look::Used => {
            if is_numbered {
                "in use by its program, not changed since ciphertext"
            } else {
                "in use by its program, not changed since it was made"
            }
        }
        Look::Changed => {
            if is_numbered {
                "in use by its program, newer than ciphertext"
            } else {
                "in use by its program, not shown so far"
            }
        }
    }
}

/// What stands between a look and its page.
fn between_words(look: Look) -> &'static str
    ensures { result.now ≡ words.between_words look }
{
    match look {
        Look::Zeros => "",
        Look::Open => "",
        Look::Lost => "",
        Look::Cipher => " of ",
        Look::Old => " of ",
        Look::Altered => " of ",
        Look::OldAltered => " of ",
        Look::Used => ": ",
        Look::Changed => ": ",
    }
}

/// The number of a ciphertext, if there is one.
#[tactic(auto, using(svg_text::proofs::Putting::put_put))]
fn put_number(label: &mut Label, number: u32)
    ensures { signs_of label.new ≡ put_signs (signs_of label.old) (words.number_words number) }
{
    if number == 0 {
        label.text("");
    } else {
        label.text(" no. ");
        label.number(u64::from(number));
    }
}

/// What a frame or a block has, in full.
#[tactic(auto, using(svg_text::proofs::Putting::put_put))]
pub fn put_sight(label: &mut Label, sight: &Sight)
    ensures { signs_of label.new ≡ put_signs (signs_of label.old) (words.sight_words sight.now) }
{
    let before = look_words(sight.look, 0 < sight.number);
    match sight.page {
        Some(page) => {
            label.text(before);
            put_number(label, sight.number);
            label.text(between_words(sight.look));
            put_page(label, page);
        }
        None => {
            if sight.is_cipher() {
                label.text("ciphertext of a page that is not known");
            } else {
                label.text(before);
            }
        }
    }
}

/// A page in short.
fn put_short_page(label: &mut Label, page: PageId) {
    label.text("P");
    label.number(u64::from(page.domain));
    if page.resource != 0 {
        label.text(" r");
        label.number(u64::from(page.resource));
    }
    label.text(" page ");
    label.number(u64::from(page.page));
}

/// What a frame or a block has, in words for its bar: the form of this number, of which later ones are shorter. There are four.
pub fn short_sight(sight: &Sight, form: u32) -> Label {
    let mut label = Label::new();
    let words = match sight.look {
        Look::Zeros => "zeros",
        Look::Open => "not cloaked",
        Look::Lost => "not known",
        Look::Cipher => "ciphertext",
        Look::Old => "old",
        Look::Altered => "altered",
        Look::OldAltered => "old, altered",
        Look::Used => "in use, unchanged",
        Look::Changed => "in use, changed",
    };
    let Some(page) = sight.page else {
        label.text(words);
        return label;
    };
    let has_number = sight.number > 0 && sight.is_cipher();
    match form {
        0 => {
            put_short_page(&mut label, page);
            label.text(": ");
            label.text(words);
        }
        1 => label.text(words),
        2 => {
            label.text("P");
            label.number(u64::from(page.domain));
        }
        _ => {}
    }
    if has_number {
        if form < 3 {
            label.text(" ");
        }
        label.text("#");
        label.number(u64::from(sight.number));
    }
    label
}

/// What marks of a kind are about.
fn kind_words(kind: MarkKind) -> &'static str {
    match kind {
        MarkKind::Shown => "the kernel is shown new ciphertext",
        MarkKind::Written => "the kernel writes the frame to the disk",
        MarkKind::Read => "the kernel reads a block of the disk into the frame",
        MarkKind::Altered => "the kernel stores into the ciphertext",
        MarkKind::Put => "a program stores here, where the kernel sees it",
        MarkKind::Stopped => "a page was presented that is not the one recorded",
        MarkKind::Printed => "bytes of the console",
        MarkKind::Left => "contexts leave",
        MarkKind::Resumed => "contexts are resumed",
    }
}

/// The name of a call.
#[tactic(auto, using(svg_text::proofs::Putting::put_put))]
fn put_call(label: &mut Label, number: u32)
    ensures { signs_of label.new ≡ put_signs (signs_of label.old) (words.call_words number) }
{
    if number == EXIT {
        label.text("EXIT");
    } else if number == 1 {
        label.text("WRITE");
    } else if number == 2 {
        label.text("OPEN");
    } else if number == 3 {
        label.text("READ");
    } else {
        label.text("call ");
        label.number(u64::from(number));
    }
}

/// What a cause other than a call means.
#[tactic(auto, using(svg_text::proofs::Putting::put_put))]
fn put_cause(label: &mut Label, cause: u32)
    ensures { signs_of label.new ≡ put_signs (signs_of label.old) (words.cause_words cause) }
{
    if cause == TIMER_CAUSE {
        label.text("timer");
    } else if cause == 1 || cause == 12 {
        label.text("fault: fetch");
    } else if cause == 5 || cause == 13 {
        label.text("fault: load");
    } else if cause == 7 || cause == 15 {
        label.text("fault: store");
    } else if cause == 24 {
        label.text("not there");
    } else {
        label.text("trap ");
        label.number(u64::from(cause));
    }
}

/// Why a context left, in a word or two.
pub fn leave_words(label: &mut Label, mark: &Mark)
    ensures { signs_of label.new ≡ put_signs (signs_of label.old) (words.leave_words mark.now) }
{
    if mark.cause == CALLED {
        put_call(label, mark.number);
    } else {
        put_cause(label, mark.cause);
    }
}

/// What a mark of one step tells.
fn put_one(label: &mut Label, mark: &Mark) {
    match mark.kind {
        MarkKind::Shown => match mark.page {
            Some(page) => {
                label.text("the kernel is shown ciphertext no. ");
                label.number(u64::from(mark.number));
                label.text(" of ");
                put_page(label, page);
            }
            None => label.text("the kernel is shown bytes of a page that is not known"),
        },
        MarkKind::Written => {
            label.text("the kernel writes the frame to block ");
            label.number(u64::from(mark.number));
        }
        MarkKind::Read => {
            label.text("the kernel reads block ");
            label.number(u64::from(mark.number));
            label.text(" into the frame");
        }
        MarkKind::Put => {
            label.text("program ");
            label.number(u64::from(mark.number));
            label.text(" stores here, where the kernel sees it");
        }
        MarkKind::Stopped => match mark.page {
            Some(page) => {
                label.text("these are not the bytes that were last shown of ");
                put_page(label, page);
            }
            None => {
                label.text("program ");
                label.number(u64::from(mark.number));
                label.text(" ends by a violation");
            }
        },
        MarkKind::Left => {
            label.text("a context leaves: ");
            leave_words(label, mark);
        }
        MarkKind::Resumed => {
            label.text("context ");
            label.number(u64::from(mark.number));
            label.text(" is resumed");
        }
        MarkKind::Altered | MarkKind::Printed => label.text(kind_words(mark.kind)),
    }
}

/// What a mark tells, in full. The closing is the step after the last.
pub fn mark_title(mark: &Mark, steps: u32) -> Label {
    let mut label = Label::new();
    if mark.first == 0 {
        label.text("opening");
    } else if mark.first > steps {
        label.text("closing");
    } else {
        put_steps(&mut label, mark.first.saturating_sub(1), mark.last);
    }
    label.text(": ");
    if mark.count == 1 {
        put_one(&mut label, mark);
    } else {
        label.number(u64::from(mark.count));
        label.text(" times: ");
        label.text(kind_words(mark.kind));
    }
    label
}

/// A console byte as one sign: itself, or the picture of one.
pub fn sign_of_byte(byte: u8) -> u32
    ensures { result ≡ signs.sign_of_byte byte }
{
    match byte {
        b'!'..=b'~' => u32::from(byte),
        b' ' => 0x2423,
        b'\n' => 0x21b5,
        _ => 0xb7,
    }
}
