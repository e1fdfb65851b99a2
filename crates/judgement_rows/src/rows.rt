// The rows.

/// A buffer.
#[derive(Clone, Copy)]
pub struct BufferRow {
    /// The global variable.
    pub global: usize,
    /// Its size in bytes.
    pub size: u32,
    /// Its alignment in bytes.
    pub alignment: u32,
}

/// The uses of a global variable.
#[derive(Clone, Copy)]
pub struct Uses {
    /// It is read.
    pub read: bool,
    /// It is written.
    pub write: bool,
    /// Its size is queried, or it is only referred to.
    pub query: bool,
    /// An image atomic is done on it.
    pub atomic: bool,
}

/// A row of the report.
#[derive(Clone, Copy)]
pub enum ReportRow {
    /// A buffer.
    Buffer(BufferRow),
    /// An entry point: the rows up to the next one are its own.
    Entry(usize),
    /// The task payload of the entry point.
    Payload(usize),
    /// The mesh output of the entry point.
    Mesh(usize),
    /// Another global variable that the entry point uses.
    Global {
        /// The global variable.
        global: usize,
        /// How it is used.
        uses: Uses,
    },
    /// An image and the sampler that it is sampled with.
    Sample {
        /// The image.
        image: usize,
        /// The sampler.
        sampler: usize,
    },
}

/// The elements of an array on the way to a leaf.
#[derive(Clone, Copy)]
pub struct Repeat {
    /// How many there are.
    pub count: u32,
    /// The bytes from the beginning of one to that of the next.
    pub stride: u32,
}

/// A scalar, vector, matrix or atomic of a buffer: the same one in each element of the arrays around it.
#[derive(Drop)]
pub struct LeafRow {
    /// Its path, empty if it is the whole buffer.
    pub path: String,
    /// The offset of the first one in the buffer, in bytes.
    pub first: u64,
    /// Its size in bytes.
    pub len: u64,
    /// Its alignment in bytes.
    pub alignment: u64,
    /// The arrays of several elements around it, outermost first.
    pub repeats: Vec<Repeat>,
}

/// A row of a listing: a buffer, whose leaves are the rows up to the next buffer.
#[derive(Drop)]
pub enum ListingRow {
    /// A buffer.
    Buffer(BufferRow),
    /// A leaf.
    Leaf(LeafRow),
}
