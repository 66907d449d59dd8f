//! Streams with columns of types that are not supported, floats and views, written by hand, and what a projection of their columns decodes to.

/// A stream, the projected columns by name and by index, and the text of the result, or of the error.
#[derive(Clone, Copy)]
pub struct ProjectedSample {
    pub bytes: &'static [u8],
    pub names: &'static [&'static str],
    pub indices: &'static [usize],
    pub text: &'static str,
}

const FLOAT_COLUMN: &[u8] = include_bytes!("projection/float_column.arrows");

const VIEW_COLUMNS: &[u8] = include_bytes!("projection/view_columns.arrows");

const LAST_COLUMN: &[u8] = include_bytes!("projection/last_column.arrows");

/// `LAST_COLUMN` as a file.
pub const LAST_COLUMN_FILE: &[u8] = include_bytes!("projection/last_column.arrow");

const WITHOUT_FLOATS: ProjectedSample = ProjectedSample {
    bytes: FLOAT_COLUMN,
    names: &["a", "b"],
    indices: &[0, 2],
    text: "metadata 0\nfield .a 1 0 i4\nfield .b 1 0 U\nbatch 2\nrow 7 s70\nrow N s7172\nbatch 1\nrow 9 s\n",
};

const WITHOUT_VIEWS: ProjectedSample = ProjectedSample {
    bytes: VIEW_COLUMNS,
    names: &["a", "b"],
    indices: &[1, 3],
    text: "metadata 0\nfield .a 1 0 i4\nfield .b 1 0 U\nbatch 1\nrow 5 s6869\n",
};

const LAST: ProjectedSample = ProjectedSample {
    bytes: LAST_COLUMN,
    names: &["a"],
    indices: &[4],
    text: "metadata 0\nfield .a 1 0 i4\nbatch 2\nrow 3\nrow 4\n",
};

pub const PROJECTIONS: [ProjectedSample; 9] = [
    WITHOUT_FLOATS,
    ProjectedSample {
        bytes: FLOAT_COLUMN,
        names: &["b"],
        indices: &[2],
        text: "metadata 0\nfield .b 1 0 U\nbatch 2\nrow s70\nrow s7172\nbatch 1\nrow s\n",
    },
    ProjectedSample {
        bytes: FLOAT_COLUMN,
        names: &["b", "b", "z", "b"],
        indices: &[2, 9, 2, 3],
        text: "metadata 0\nfield .b 1 0 U\nbatch 2\nrow s70\nrow s7172\nbatch 1\nrow s\n",
    },
    ProjectedSample {
        bytes: FLOAT_COLUMN,
        names: &[],
        indices: &[],
        text: "metadata 0\nbatch 2\nrow\nrow\nbatch 1\nrow\n",
    },
    ProjectedSample {
        bytes: FLOAT_COLUMN,
        names: &["x"],
        indices: &[1],
        text: "metadata 0\nfield .x 1 0 X .tiekvorn.float64 - u8\nbatch 2\nrow 4609434218613702656\nrow 4612811918334230528\nbatch 1\nrow 0\n",
    },
    WITHOUT_VIEWS,
    ProjectedSample {
        bytes: VIEW_COLUMNS,
        names: &["b"],
        indices: &[3],
        text: "metadata 0\nfield .b 1 0 U\nbatch 1\nrow s6869\n",
    },
    LAST,
    ProjectedSample {
        bytes: LAST_COLUMN,
        names: &["k", "a"],
        indices: &[3, 4],
        text: "metadata 0\nfield .k 1 0 S 1 .d 1 0 G i1 0 U\nfield .a 1 0 i4\nbatch 2\nrow {s7a,} 3\nrow {s7a,} 4\n",
    },
];

/// Each stream once.
pub const STREAMS: [ProjectedSample; 3] = [WITHOUT_FLOATS, WITHOUT_VIEWS, LAST];

/// All of their columns, or the error.
pub const COMPLETE_TEXTS: [&str; 3] = [
    "metadata 0\nfield .a 1 0 i4\nfield .x 1 0 X .tiekvorn.float64 - u8\nfield .b 1 0 U\nbatch 2\nrow 7 4609434218613702656 s70\nrow N 4612811918334230528 s7172\nbatch 1\nrow 9 0 s\n",
    "metadata 0\nfield .v 1 0 LU\nfield .a 1 0 i4\nfield .w 1 0 LB\nfield .b 1 0 U\nbatch 1\nrow s 5 x s6869\n",
    "error UnsupportedType\n",
];
