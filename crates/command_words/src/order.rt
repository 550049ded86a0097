//! What the words of the command line ask for.

use pan_base::Text;

/// How far a source is taken.
#[derive(Clone, Copy, Debug, PartialEq, Eq)]
pub enum Stage {
    /// To its program.
    Parse,
    /// To its code.
    Code,
}

/// The options, each as it is given or by its default.
#[derive(Clone, Copy, Debug, PartialEq, Eq)]
pub struct Options {
    /// Bytes of stack: at most 67,108,864, a multiple of 16.
    pub stack: u64,
    /// Bytes of local memory: at most 67,108,864, a multiple of 8.
    pub local: u64,
    /// The most instructions of a machine's run, and the fuel of a source's.
    pub steps: u64,
    /// How far a source is taken.
    pub stage: Stage,
}

/// What is to be done, with the names of the files.
#[derive(Debug, Drop)]
pub enum Action {
    /// Compile a source to an image.
    Compile { source: Text, image: Text },
    /// Check a source.
    Check { source: Text },
    /// Run an image over a script.
    Run { image: Text, script: Text },
    /// Run a source, by its meaning, over a script.
    Meaning { source: Text, script: Text },
    /// Show a stage of a source.
    Show { source: Text },
    /// List the code of an image.
    Dis { image: Text },
    /// Bound the stack of a source.
    Bound { source: Text },
}

/// What the words ask for.
#[derive(Debug, Drop)]
pub struct Order {
    /// What is to be done.
    pub action: Action,
    /// The options, also those that the action doesn't use.
    pub options: Options,
}
