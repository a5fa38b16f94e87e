ghost use Rattle.std.specs.Prelude.{◌≡◌, true};

/// A time of the file system.
#[derive(Clone, Copy)]
pub struct FileTime {
    pub seconds: i64,
    pub nanos: i64,
}

impl FileTime {
    /// Returns whether both are the same time.
    fn is_same(self, other: FileTime) -> bool
        ensures { result ≡ true → self ≡ other }
    {
        self.seconds == other.seconds && self.nanos == other.nanos
    }
}

/// The length of a file, and by which it is known whether it was changed.
#[derive(Clone, Copy)]
pub struct Stamp {
    pub len: u64,
    /// The device of the file.
    pub device: u64,
    /// The file's number on its device.
    pub inode: u64,
    /// When it was last written to. A program may set this time.
    pub written: FileTime,
    /// When it was last changed in any way.
    pub changed: FileTime,
}

impl Stamp {
    /// Returns whether both are of the same file, with the same length and the same times.
    fn is_of(&self, other: &Stamp) -> bool
        ensures len { result ≡ true → self.now.len ≡ other.now.len }
        ensures device { result ≡ true → self.now.device ≡ other.now.device }
        ensures inode { result ≡ true → self.now.inode ≡ other.now.inode }
    {
        self.len == other.len && self.device == other.device && self.inode == other.inode
    }

    /// Returns whether both have the same times.
    fn is_from(&self, other: &Stamp) -> bool
        ensures written { result ≡ true → self.now.written ≡ other.now.written }
        ensures changed { result ≡ true → self.now.changed ≡ other.now.changed }
    {
        self.written.is_same(other.written) && self.changed.is_same(other.changed)
    }

    /// Returns whether both are the same.
    pub(crate) fn is_same(&self, other: &Stamp) -> bool
        ensures { result ≡ true → self.now ≡ other.now }
    {
        self.is_of(other) && self.is_from(other)
    }
}
