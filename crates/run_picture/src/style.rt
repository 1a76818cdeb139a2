//! Classes and patterns: light, dark and in print.

use cloak_base::NoMemory;
use std::alloc::Global;
use svg_text::{Attributes, Key, Label, Markup, Tag};

/// The rules of all classes, one after another. Colours are told apart in grey and by those who see few of them: each program
/// has a direction of stripes of its own.
static RULES: [&str; 22] = [
    "text{font:13px \"DejaVu Sans\",Verdana,sans-serif}.t{font-size:19px;font-weight:bold}.h{font-weight:bold}",
    ".sm{font-size:12px}.mono{font-family:\"DejaVu Sans Mono\",monospace}.mid{text-anchor:middle}.end{text-anchor:end}",
    ".grid{stroke-width:1}.halo{stroke-width:4;paint-order:stroke;stroke-linejoin:round}.w{fill-opacity:.3}",
    ".kern{stroke-width:.6}.nb{stroke-width:0}.zero{stroke-width:.7;stroke-dasharray:2 2}.mk,.stop{stroke-width:1}",
    ".ln{stroke-width:1.3;fill:none}.hb{stroke-width:3}.box,.alt{fill:none;stroke-width:1}.alt{stroke-dasharray:4 2}",
    ".mv{stroke-width:1.3;fill:none;opacity:.55}.in{stroke-dasharray:3 3}.lb{pointer-events:none}",
    ".cq{fill:url(#hq)}.c0{fill:url(#h0)}.c1{fill:url(#h1)}.c2{fill:url(#h2)}.c3{fill:url(#h3)}.o0{fill:url(#w0)}.o1{fill:url(#w1)}.o2{fill:url(#w2)}.o3{fill:url(#w3)}",
    ".bg{fill:#ffffff}text{fill:#1a1a1a}.dim{fill:#5c5c5c}.grid{stroke:#dedede}.mk0{fill:#5c5c5c}",
    ".kern{fill:#ebebeb;stroke:#5c5c5c}.zero{fill:#ffffff;stroke:#5c5c5c}.mk{fill:#1a1a1a;stroke:#ffffff}",
    ".ln,.mv{stroke:#1a1a1a}.stop{fill:#c00000;stroke:#ffffff}.stopt{fill:#c00000}.box,.alt{stroke:#1a1a1a}.halo{stroke:#ffffff}.on{fill:#ffffff}",
    ".f0{fill:#0072b2}.f1{fill:#b34700}.f2{fill:#00755a}.f3{fill:#8e4585}.u0{fill:#8cc0dc}.u1{fill:#ddac8c}.u2{fill:#8cc1b5}.u3{fill:#ccabc8}",
    "@media (prefers-color-scheme:dark){",
    ".bg{fill:#15171a}text{fill:#f0f0f0}.dim{fill:#aeb4bb}.grid{stroke:#33383e}.mk0{fill:#aeb4bb}",
    ".kern{fill:#2b3036;stroke:#aeb4bb}.zero{fill:#15171a;stroke:#aeb4bb}.mk{fill:#f0f0f0;stroke:#15171a}",
    ".ln,.mv{stroke:#f0f0f0}.stop{fill:#ff7b7b;stroke:#15171a}.stopt{fill:#ff7b7b}.box,.alt{stroke:#f0f0f0}.halo{stroke:#15171a}.on{fill:#101214}",
    ".f0{fill:#63b8f0}.f1{fill:#f59b57}.f2{fill:#4fd0ae}.f3{fill:#d99bd3}.u0{fill:#385f7a}.u1{fill:#7a5235}.u2{fill:#2f6a5d}.u3{fill:#6d526d}",
    "}@media print{",
    ".bg{fill:#ffffff}text{fill:#1a1a1a}.dim{fill:#5c5c5c}.grid{stroke:#dedede}.mk0{fill:#5c5c5c}",
    ".kern{fill:#ebebeb;stroke:#5c5c5c}.zero{fill:#ffffff;stroke:#5c5c5c}.mk{fill:#1a1a1a;stroke:#ffffff}",
    ".ln,.mv{stroke:#1a1a1a}.stop{fill:#c00000;stroke:#ffffff}.stopt{fill:#c00000}.box,.alt{stroke:#1a1a1a}.halo{stroke:#ffffff}.on{fill:#ffffff}",
    ".f0{fill:#0072b2}.f1{fill:#b34700}.f2{fill:#00755a}.f3{fill:#8e4585}.u0{fill:#8cc0dc}.u1{fill:#ddac8c}.u2{fill:#8cc1b5}.u3{fill:#ccabc8}",
    "}",
];

/// The directions of stripes.
static TURNS: [&str; 4] = ["rotate(45)", "rotate(-45)", "rotate(90)", "rotate(0)"];

/// The element of the classes.
pub fn put_style(alloc: Global, body: &mut Markup) -> Result<(), NoMemory> {
    let mut rules = Markup::new(alloc);
    for rule in &RULES {
        rules.signs(Label::of(rule).signs())?;
    }
    body.element(Tag::Style, &Attributes::new(alloc), &rules)?;
    Ok(())
}

/// A stripe of a pattern, or its ground.
fn put_stripe(
    alloc: Global,
    stripes: &mut Markup,
    width: &str,
    class: &Label,
) -> Result<(), NoMemory> {
    let mut attributes = Attributes::new(alloc);
    attributes.put(Key::Width, Label::of(width).signs())?;
    attributes.put(Key::Height, Label::of("6").signs())?;
    attributes.put(Key::Class, class.signs())?;
    stripes.element(Tag::Rect, &attributes, &Markup::new(alloc))?;
    Ok(())
}

/// A pattern of stripes.
fn put_pattern(
    alloc: Global,
    patterns: &mut Markup,
    name: &Label,
    turn: &str,
    width: &str,
    class: &Label,
) -> Result<(), NoMemory> {
    let mut stripes = Markup::new(alloc);
    put_stripe(alloc, &mut stripes, "6", &Label::of("bg"))?;
    put_stripe(alloc, &mut stripes, width, class)?;
    let mut attributes = Attributes::new(alloc);
    attributes.put(Key::Id, name.signs())?;
    attributes.put(Key::Width, Label::of("6").signs())?;
    attributes.put(Key::Height, Label::of("6").signs())?;
    attributes.put(Key::PatternUnits, Label::of("userSpaceOnUse").signs())?;
    attributes.put(Key::PatternTransform, Label::of(turn).signs())?;
    patterns.element(Tag::Pattern, &attributes, &stripes)?;
    Ok(())
}

/// The element of the patterns: two for each program, of ciphertext and of old ciphertext, and one for what is not known.
pub fn put_patterns(alloc: Global, body: &mut Markup) -> Result<(), NoMemory> {
    let mut patterns = Markup::new(alloc);
    for (number, turn) in TURNS.iter().enumerate() {
        let (mut name, mut old) = (Label::of("h"), Label::of("w"));
        name.number(number as u64);
        old.number(number as u64);
        let mut class = Label::of("f");
        class.number(number as u64);
        put_pattern(alloc, &mut patterns, &name, turn, "2.2", &class)?;
        class.text(" w");
        put_pattern(alloc, &mut patterns, &old, turn, "2.2", &class)?;
    }
    let name = Label::of("hq");
    put_pattern(
        alloc,
        &mut patterns,
        &name,
        "rotate(45)",
        "1",
        &Label::of("mk0"),
    )?;
    body.element(Tag::Defs, &Attributes::new(alloc), &patterns)?;
    Ok(())
}
