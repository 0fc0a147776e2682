// The largest sizes that are taken, as the table of SCOPE 3 has them: each is named here, and in specs/Limits.antt.

// Vertices of a cell, or points of a list of points of space.
pub const MOST_VERTICES: usize = 256;

// Their coordinates: three a vertex.
pub const MOST_COORDINATES: usize = 3 * MOST_VERTICES;

// Faces of a cell.
pub const MOST_FACES: usize = 256;

// Corners of a cell.
pub const MOST_CORNERS: usize = 2048;

// Entries of the corner list of `point_in_phed`, corners and marks.
pub const MOST_MARKED_CORNERS: usize = 2304;

// Query points of a cell.
pub const MOST_QUERIES: usize = 256;

// Planes that a face is clipped by.
pub const MOST_PLANES: usize = 256;

// Corners of a face whose triangles are checked.
pub const MOST_CHECKED_CORNERS: usize = 256;

// Triangles that are checked.
pub const MOST_CHECKED_TRIANGLES: usize = 254;

// Points of a list of points of the plane.
pub const MOST_PLANE_POINTS: usize = 512;

// Numbers of a work list.
pub const MOST_WORK_NUMBERS: usize = 3072;
