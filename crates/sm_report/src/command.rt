//! Commands: the reports that can be made of a document.
/// A report that can be made.
#[derive(Clone, Copy, Debug, PartialEq, Eq)]
pub enum Command {
    /// The answers to the document's calls, and the placement after them.
    Calls,
    /// The check whether the document's plan is accepted at its placement, or why it is not.
    Check,
    /// The answers to the document's events, how far its plans have come, and the placement after them.
    Play,
    /// The plan that makes the document's moves or empties a server, or why there is none.
    Plan,
}
