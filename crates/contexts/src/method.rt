//! The methods of `ctx.actions`.

/// A method of `ctx.actions`.
#[derive(Clone, Copy, PartialEq, Eq, Debug)]
pub enum ActionMethod {
    /// `declare_file`.
    DeclareFile,
    /// `write`.
    Write,
    /// `run`.
    Run,
    /// `run_shell`.
    RunShell,
}
