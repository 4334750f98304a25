use crate::lab_store::LabStore;
use crate::layout::Layout;
use crate::running::Running;

/// How far a script is: nodes and databases are laid out first, and then connections come.
#[derive(Drop)]
pub enum ScriptStage<S: LabStore> {
    Laying(Layout<S>),
    Running(Running<S>),
}
