// The fixed shapes: the tetrahedron, the wedge and the hexahedron. Their corners are points passed as they are, read through six fixed
// tables. Any bits are taken, and nothing is refused.
#![tactic(auto)]

ghost use Rattle.std.specs.Prelude.{◌≡◌, [], ◌*◌, length};
ghost use Rattle.places.specs.Lists.{Each};
ghost use Rattle.flat.specs.Points.{vertices_of};
ghost use Rattle.flat.specs.Steps.{Inside};
ghost use Rattle.shapes.specs.Shapes.{tet_volume_of, tet_by, volume_by, wedge_volume_of, hex_volume_of, tet_contains_of, wedge_contains_of};
ghost use Rattle.shapes.specs.Shapes.{hex_contains_of};

use cell::SoundCell;

// The tetrahedra that fill a wedge, and those that fill a hexahedron: four corner numbers each.
const WEDGE6_TET: [[usize; 4]; 3] = [[0, 1, 2, 3], [1, 2, 3, 4], [2, 3, 4, 5]];

const HEX8_TET: [[usize; 4]; 6] = [
    [0, 5, 1, 7],
    [0, 4, 5, 7],
    [1, 6, 2, 7],
    [1, 5, 6, 7],
    [0, 2, 3, 7],
    [0, 1, 2, 7],
];

// The faces as a cell has them: the corners of one face after those of another, and where each face ends.
const TET4_FACES: [u32; 12] = [0, 1, 3, 1, 2, 3, 2, 0, 3, 0, 2, 1];

const TET4_ENDS: [u32; 4] = [3, 6, 9, 12];

const WEDGE6_TRI_FACES: [u32; 6] = [0, 2, 1, 3, 4, 5];

const WEDGE6_TRI_ENDS: [u32; 2] = [3, 6];

const WEDGE6_QUAD_FACES: [u32; 12] = [0, 1, 4, 3, 1, 2, 5, 4, 2, 0, 3, 5];

const WEDGE6_QUAD_ENDS: [u32; 3] = [4, 8, 12];

const HEX8_FACES: [u32; 24] = [
    0, 3, 2, 1, 4, 5, 6, 7, 0, 1, 5, 4, 2, 3, 7, 6, 1, 2, 6, 5, 3, 0, 4, 7,
];

const HEX8_ENDS: [u32; 6] = [4, 8, 12, 16, 20, 24];

// The signed volume of a tetrahedron: positive where b, c, d go round counterclockwise, seen from the side away from a.
// Ruled out: a program that answers the magnitude, so that a turned tetrahedron counts as a
// good one; one that takes the edges from the origin and not from a.
#[tactic(auto, unfolding(crate::specs::Shapes::tet_volume_of))]
pub fn tet_volume(a: [f64; 3], b: [f64; 3], c: [f64; 3], d: [f64; 3]) -> f64
    ensures { result ≡ tet_volume_of a b c d }
{
    volume::triple_product(flat::minus3(b, a), flat::minus3(c, a), flat::minus3(d, a)) / 6.0
}

// The volume of the tetrahedron whose corners have the numbers of a row.
#[tactic(auto, unfolding(crate::specs::Shapes::tet_by))]
fn tet_by(ps: &[[f64; 3]], row: [usize; 4]) -> f64
    requires { Inside ps.now row }
    ensures { result ≡ tet_by ps.now row }
{
    let [a, b, c, d] = row;
    tet_volume(ps[a], ps[b], ps[c], ps[d])
}

// The volumes of the tetrahedra of a table, added in order.
fn volume_by(ps: &[[f64; 3]], table: &[[usize; 4]]) -> f64
    requires { Each [] (Inside ps.now) table.now }
    ensures { result ≡ volume_by table.now ps.now }
{
    let mut v = 0.0;
    for &row in table {
        v += tet_by(ps, row);
    }
    v
}

// The signed volume of a wedge.
// Ruled out: a program that leaves out the last tetrahedron; one that adds magnitudes, so
// that the parts of a twisted wedge do not offset each other.
#[tactic(auto, unfolding(crate::specs::Shapes::wedge_volume_of))]
pub fn wedge_volume(p: [[f64; 3]; 6]) -> f64
    ensures { result ≡ wedge_volume_of p }
{
    volume_by(&p, &WEDGE6_TET)
}

// The signed volume of a hexahedron.
// Ruled out: a program with one wrong number in a row of the table; one that adds the
// triple products and divides once, which rounds otherwise.
#[tactic(auto, unfolding(crate::specs::Shapes::hex_volume_of))]
pub fn hex_volume(p: [[f64; 3]; 8]) -> f64
    ensures { result ≡ hex_volume_of p }
{
    volume_by(&p, &HEX8_TET)
}

// Points as the ray test reads them: the numbers of one after those of another.
fn numbers(ps: &[[f64; 3]]) -> &[f64]
    ensures vertices { vertices_of result.now ≡ ps.now }
    ensures long { length result.now ≡ length ps.now * 3 }
{
    ps.as_flattened()
}

// Whether a tetrahedron contains the point: an odd number of its faces is crossed.
// Ruled out: a program that answers no always; one that leaves out a face, so that a point before it along the ray changes sides.
pub fn tet_contains(point: [f64; 3], p: [[f64; 3]; 4]) -> bool
    ensures { result ≡ tet_contains_of point p }
{
    let coords = numbers(&p);
    let cell = SoundCell {
        coords,
        corners: &TET4_FACES,
        ends: &TET4_ENDS,
    };
    inside::contains(&cell, point)
}

// Whether a wedge contains the point: of the two counts, that of its quadrilaterals and that of its triangles, exactly one is odd.
// Ruled out: a program that asks for one odd count or both, so that a ray through a quadrilateral and a
// triangle counts as from inside; one that counts the quadrilaterals only.
pub fn wedge_contains(point: [f64; 3], p: [[f64; 3]; 6]) -> bool
    ensures { result ≡ wedge_contains_of point p }
{
    let coords = numbers(&p);
    let quad_cell = SoundCell {
        coords,
        corners: &WEDGE6_QUAD_FACES,
        ends: &WEDGE6_QUAD_ENDS,
    };
    let tri_cell = SoundCell {
        coords,
        corners: &WEDGE6_TRI_FACES,
        ends: &WEDGE6_TRI_ENDS,
    };
    let quads = inside::contains(&quad_cell, point);
    let triangles = inside::contains(&tri_cell, point);
    quads != triangles
}

// Whether a hexahedron contains the point: an odd number of its faces is crossed.
// Ruled out: a program with one wrong corner in a face; one that says yes at the first face that is crossed.
pub fn hex_contains(point: [f64; 3], p: [[f64; 3]; 8]) -> bool
    ensures { result ≡ hex_contains_of point p }
{
    let coords = numbers(&p);
    let cell = SoundCell {
        coords,
        corners: &HEX8_FACES,
        ends: &HEX8_ENDS,
    };
    inside::contains(&cell, point)
}
