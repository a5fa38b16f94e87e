//! The catalogue's tables as data.

use ColumnShape::{Any, Integer, Key, Text};

/// A column by its name: the key, or a column of a kind that is NOT NULL.
#[derive(Clone, Copy)]
pub(crate) enum ColumnShape {
    Key(&'static [u8]),
    Integer(&'static [u8]),
    Text(&'static [u8]),
    Any(&'static [u8]),
}

/// A reference: the place of the column that refers, the table that it refers to and the column
/// there.
#[derive(Clone, Copy)]
pub(crate) struct ReferenceShape {
    pub(crate) place: usize,
    pub(crate) parent: &'static [u8],
    pub(crate) name: &'static [u8],
}

/// A table: its name, whether its first column is its key, its columns, the places of the columns in
/// which its rows differ, if there are some, and its references.
#[derive(Clone, Copy)]
pub(crate) struct TableShape {
    pub(crate) name: &'static [u8],
    pub(crate) is_keyed: bool,
    pub(crate) columns: &'static [ColumnShape],
    pub(crate) unique: Option<&'static [usize]>,
    pub(crate) references: &'static [ReferenceShape],
}

const VERSION_COLUMNS: [ColumnShape; 1] = [Integer(b"VersionId")];

const CLIENT_COLUMNS: [ColumnShape; 2] = [Key(b"ClientId"), Text(b"Name")];

const FILESET_COLUMNS: [ColumnShape; 2] = [Key(b"FileSetId"), Text(b"FileSet")];

const MEDIA_COLUMNS: [ColumnShape; 3] = [Key(b"MediaId"), Text(b"VolumeName"), Text(b"MediaType")];

const PATH_COLUMNS: [ColumnShape; 2] = [Key(b"PathId"), Any(b"Path")];

const JOB_COLUMNS: [ColumnShape; 9] = [
    Key(b"JobId"),
    Text(b"Type"),
    Text(b"Level"),
    Integer(b"ClientId"),
    Text(b"JobStatus"),
    Integer(b"StartTime"),
    Integer(b"FileSetId"),
    Integer(b"VolSessionId"),
    Integer(b"VolSessionTime"),
];

const JOB_REFERENCES: [ReferenceShape; 2] = [
    ReferenceShape {
        place: 4,
        parent: b"Client",
        name: b"ClientId",
    },
    ReferenceShape {
        place: 7,
        parent: b"FileSet",
        name: b"FileSetId",
    },
];

const JOB_MEDIA_COLUMNS: [ColumnShape; 10] = [
    Key(b"JobMediaId"),
    Integer(b"JobId"),
    Integer(b"MediaId"),
    Integer(b"FirstIndex"),
    Integer(b"LastIndex"),
    Integer(b"StartFile"),
    Integer(b"EndFile"),
    Integer(b"StartBlock"),
    Integer(b"EndBlock"),
    Integer(b"VolIndex"),
];

const JOB_MEDIA_REFERENCES: [ReferenceShape; 2] = [
    ReferenceShape {
        place: 2,
        parent: b"Job",
        name: b"JobId",
    },
    ReferenceShape {
        place: 3,
        parent: b"Media",
        name: b"MediaId",
    },
];

const FILE_COLUMNS: [ColumnShape; 7] = [
    Key(b"FileId"),
    Integer(b"FileIndex"),
    Integer(b"JobId"),
    Integer(b"PathId"),
    Any(b"Filename"),
    Text(b"LStat"),
    Text(b"MD5"),
];

const FILE_REFERENCES: [ReferenceShape; 2] = [
    ReferenceShape {
        place: 3,
        parent: b"Job",
        name: b"JobId",
    },
    ReferenceShape {
        place: 4,
        parent: b"Path",
        name: b"PathId",
    },
];

pub(crate) const VERSION: TableShape = TableShape {
    name: b"Version",
    is_keyed: false,
    columns: &VERSION_COLUMNS,
    unique: None,
    references: &[],
};

const CLIENT: TableShape = TableShape {
    name: b"Client",
    is_keyed: true,
    columns: &CLIENT_COLUMNS,
    unique: Some(&[2]),
    references: &[],
};

const FILESET: TableShape = TableShape {
    name: b"FileSet",
    is_keyed: true,
    columns: &FILESET_COLUMNS,
    unique: Some(&[2]),
    references: &[],
};

const MEDIA: TableShape = TableShape {
    name: b"Media",
    is_keyed: true,
    columns: &MEDIA_COLUMNS,
    unique: Some(&[2]),
    references: &[],
};

const PATH: TableShape = TableShape {
    name: b"Path",
    is_keyed: true,
    columns: &PATH_COLUMNS,
    unique: Some(&[2]),
    references: &[],
};

const JOB: TableShape = TableShape {
    name: b"Job",
    is_keyed: true,
    columns: &JOB_COLUMNS,
    unique: Some(&[8, 9]),
    references: &JOB_REFERENCES,
};

const JOB_MEDIA: TableShape = TableShape {
    name: b"JobMedia",
    is_keyed: true,
    columns: &JOB_MEDIA_COLUMNS,
    unique: Some(&[2, 10]),
    references: &JOB_MEDIA_REFERENCES,
};

const FILE: TableShape = TableShape {
    name: b"File",
    is_keyed: true,
    columns: &FILE_COLUMNS,
    unique: None,
    references: &FILE_REFERENCES,
};

/// The catalogue's tables.
pub(crate) const TABLES: [TableShape; 8] = [
    VERSION, CLIENT, FILESET, MEDIA, PATH, JOB, JOB_MEDIA, FILE,
];

const FILENAME_COLUMNS: [ColumnShape; 2] = [Key(b"FilenameId"), Any(b"Name")];

const OLD_FILE_COLUMNS: [ColumnShape; 7] = [
    Key(b"FileId"),
    Integer(b"FileIndex"),
    Integer(b"JobId"),
    Integer(b"PathId"),
    Integer(b"FilenameId"),
    Text(b"LStat"),
    Text(b"MD5"),
];

const OLD_FILE_REFERENCES: [ReferenceShape; 3] = [
    ReferenceShape {
        place: 3,
        parent: b"Job",
        name: b"JobId",
    },
    ReferenceShape {
        place: 4,
        parent: b"Path",
        name: b"PathId",
    },
    ReferenceShape {
        place: 5,
        parent: b"Filename",
        name: b"FilenameId",
    },
];

const FILENAME: TableShape = TableShape {
    name: b"Filename",
    is_keyed: true,
    columns: &FILENAME_COLUMNS,
    unique: Some(&[2]),
    references: &[],
};

const OLD_FILE: TableShape = TableShape {
    name: b"File",
    is_keyed: true,
    columns: &OLD_FILE_COLUMNS,
    unique: None,
    references: &OLD_FILE_REFERENCES,
};

/// The tables of version 1.
pub(crate) const OLD_TABLES: [TableShape; 9] = [
    VERSION, CLIENT, FILESET, MEDIA, PATH, FILENAME, JOB, JOB_MEDIA, OLD_FILE,
];
