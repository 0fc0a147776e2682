// The fixed shapes: tetrahedron, wedge and hexahedron, their corners passed as they are. Any bits, nothing refused.
ghost use Rattle.std.specs.Prelude.{◌≡◌};
ghost use Rattle.geometry.specs.Leaves.{tet_volume_of, wedge_volume_of, hex_volume_of, tet_contains_of, wedge_contains_of, hex_contains_of};

// The signed volume of a tetrahedron.
// Ruled out: the magnitude of the volume; the edges taken from d.
pub fn tet_volume(a: [f64; 3], b: [f64; 3], c: [f64; 3], d: [f64; 3]) -> f64
    ensures { result ≡ tet_volume_of a b c d }
{
    shapes::tet_volume(a, b, c, d)
}

// The signed volume of a wedge, of its three tetrahedra in order.
// Ruled out: one tetrahedron left out; their magnitudes added.
pub fn wedge_volume(p: [[f64; 3]; 6]) -> f64
    ensures { result ≡ wedge_volume_of p }
{
    shapes::wedge_volume(p)
}

// The signed volume of a hexahedron, of its six tetrahedra in order.
// Ruled out: the volume of the box of its corners; a cut into five tetrahedra.
pub fn hex_volume(p: [[f64; 3]; 8]) -> f64
    ensures { result ≡ hex_volume_of p }
{
    shapes::hex_volume(p)
}

// Whether the ray from the point along +x crosses an odd number of a tetrahedron's faces.
// Ruled out: a test by the signs of four volumes; outside for every point.
pub fn tet_contains(point: [f64; 3], p: [[f64; 3]; 4]) -> bool
    ensures { result ≡ tet_contains_of point p }
{
    shapes::tet_contains(point, p)
}

// Whether exactly one of a wedge's two counts is odd, that of its quadrilaterals and that of its triangles.
// Ruled out: either count odd; only the quadrilaterals counted.
pub fn wedge_contains(point: [f64; 3], p: [[f64; 3]; 6]) -> bool
    ensures { result ≡ wedge_contains_of point p }
{
    shapes::wedge_contains(point, p)
}

// Whether the ray crosses an odd number of a hexahedron's faces.
// Ruled out: one face left out; the faces cut into triangles first.
pub fn hex_contains(point: [f64; 3], p: [[f64; 3]; 8]) -> bool
    ensures { result ≡ hex_contains_of point p }
{
    shapes::hex_contains(point, p)
}
