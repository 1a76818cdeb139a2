ghost use Rattle.std.specs.Prelude.{◌≡◌, Some, IsSome};
ghost use Rattle.cloak_model.specs.Contexts.{context_at};

use thread_context::{Context, Contexts};

/// The context of a slot that is in use.
pub fn context(c: &Contexts, slot: u32) -> Context
    requires { IsSome (context_at c.now slot) }
    ensures { context_at c.now slot ≡ Some result }
{
    match c.get(slot) {
        Some(context) => *context,
        None => unreachable!(),
    }
}
