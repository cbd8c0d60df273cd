//! One region.

/// Whether a region is in use.
#[derive(Clone, Copy, PartialEq, Eq, Debug, Default)]
pub enum Kind {
    /// It holds no object.
    #[default]
    Free,
    /// New objects go there.
    Open,
    /// It holds objects, and takes no more.
    Closed,
}

/// What is known of a region. A region that was never opened is the default one: free, with no words used.
#[derive(Clone, Copy, Default)]
pub struct Region {
    /// Whether it is in use.
    pub kind: Kind,
    /// The words used, from its start on.
    pub fill: u32,
    /// The words of its marked objects, as they were last counted.
    pub live: u32,
    /// How many regions had been opened before it.
    pub stamp: u32,
}
