//! The kinds of changes that make the layout, and how often each happens.

/// What may be changed to make a file.
#[derive(Clone, Copy)]
pub enum Change {
    /// A byte order mark or a form feed before a line is dropped.
    Mark,
    /// A blank line is dropped.
    Blank,
    /// The end of a line becomes LF alone.
    End,
    /// The letter in column 73 is raised to upper case.
    Letter,
    /// Blank bytes after column 80 are dropped, other than a CR at the line's end.
    Past,
    /// The number in columns 74 to 80 is made anew.
    Number,
    /// A number was larger than its line's place: a line may be lost before it.
    Ahead,
    /// The counts of the terminate line are made anew, or the whole line.
    Counts,
    /// The terminate line counts more lines of the start section than there are: one may be lost.
    FewerStart,
    /// The same of the global section.
    FewerGlobal,
    /// The same of the directory.
    FewerDirectory,
    /// The same of the parameter data.
    FewerParam,
    /// A byte after the terminate line is dropped.
    After,
}

/// How often something is changed, and the first line of the file where it is; 0 where there is none.
#[derive(Clone, Copy)]
pub struct ChangeCount {
    pub times: u64,
    pub first: u64,
}
