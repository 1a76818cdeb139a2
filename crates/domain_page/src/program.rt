use resource_map::Resources;
use thread_context::Contexts;

/// Contexts and resources of a program.
#[derive(Drop)]
pub struct ProgramParts {
    pub contexts: Contexts,
    pub resources: Resources,
}
