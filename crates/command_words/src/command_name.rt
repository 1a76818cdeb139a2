//! The names of the commands.
/// The commands.
#[derive(Clone, Copy)]
pub enum CommandName {
    Run,
    View,
    Solo,
    Gen,
    Demo,
    Stats,
    Upgrade,
    Store,
    Freeze,
    Thaw,
}
