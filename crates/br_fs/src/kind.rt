/// What is at a path.
#[derive(Clone, Copy, Debug)]
pub enum Kind {
    File,
    Folder,
    Link,
    /// A pipe, a socket or a device.
    Other,
}

/// What a disk finds at a path.
#[derive(Clone, Copy)]
pub struct Metadata {
    pub kind: Kind,
    /// The number of bytes of a file.
    pub len: u64,
}
