//! What a record tells of contexts and of the page tables of spaces.
ghost use Rattle.std.specs.Prelude.{◌≡◌, Some, None, slice_set};
ghost use Rattle.replayed_run.specs.ContextsTold as spec;

/// What is told of a context.
#[derive(Clone, Copy)]
pub struct ToldContext {
    /// The step in which it was last resumed.
    pub resumed: u32,
    /// The step in which it ended.
    pub ended: Option<u32>,
    /// Its space.
    pub space: u32,
}

/// The page table under which a space was first resumed, and the step of that.
#[derive(Clone, Copy)]
pub struct FirstTable {
    pub satp: u32,
    pub step: u32,
}

/// What is told of the contexts of up to four programs, and of their spaces. Both are counted from `8 * program` on.
#[derive(Drop)]
pub struct ToldContexts {
    pub told: [Option<ToldContext>; 32],
    pub tables: [Option<FirstTable>; 32],
}

/// Sets what is told of a context.
fn set_told(told: &mut [Option<ToldContext>; 32], ctx: u32, now: ToldContext)
    ensures { told.new ≡ slice_set told.old ctx (Some now) }
{
    let ctx = ctx as usize;
    if ctx < told.len() {
        told[ctx] = Some(now);
    }
}

/// Sets the page table of a space, if it has none.
fn set_first(tables: &mut [Option<FirstTable>; 32], space: u32, first: FirstTable)
    ensures { tables.new ≡ spec.first_set tables.old space first }
{
    let space = space as usize;
    if space < tables.len() && tables[space].is_none() {
        tables[space] = Some(first);
    }
}

/// Forgets the page table of a space.
fn unset(tables: &mut [Option<FirstTable>; 32], space: u32)
    ensures { tables.new ≡ slice_set tables.old space None }
{
    let space = space as usize;
    if space < tables.len() {
        tables[space] = None;
    }
}

impl ToldContexts {
    /// Nothing is told yet.
    pub fn new() -> ToldContexts
        ensures { result ≡ spec.no_contexts }
    {
        ToldContexts {
            told: [None; 32],
            tables: [None; 32],
        }
    }

    /// A context of a space was resumed under a page table.
    pub fn resume(&mut self, ctx: u32, space: u32, satp: u32, step: u32)
        ensures { self.new ≡ spec.resumed_at self.old ctx space satp step }
    {
        set_told(
            &mut self.told,
            ctx,
            ToldContext {
                resumed: step,
                ended: None,
                space,
            },
        );
        set_first(&mut self.tables, space, FirstTable { satp, step });
    }

    /// A context ended, and its space with it if it was alone in that.
    pub fn end(&mut self, ctx: u32, was: ToldContext, step: u32, alone: bool)
        ensures { self.new ≡ spec.ended_at self.old ctx was step alone }
    {
        set_told(
            &mut self.told,
            ctx,
            ToldContext {
                ended: Some(step),
                ..was
            },
        );
        if alone {
            unset(&mut self.tables, was.space);
        }
    }

    /// What is told of a context.
    pub fn told(&self, ctx: u32) -> Option<ToldContext>
        ensures { result ≡ spec.told_of self.now ctx }
    {
        let ctx = ctx as usize;
        if ctx < self.told.len() {
            self.told[ctx]
        } else {
            None
        }
    }

    /// The page table of a space.
    pub fn table(&self, space: u32) -> Option<FirstTable>
        ensures { result ≡ spec.table_of self.now space }
    {
        let space = space as usize;
        if space < self.tables.len() {
            self.tables[space]
        } else {
            None
        }
    }
}
