// The entries on a list of points, and the fixed shapes, whose corners are such a list.
use crate::lists::Lent;
use crate::unknown;
use question_lists::words::{argument, word};

// Points of space and of the plane.
pub fn measured(q: &[u64], xs: &[f64], values: &mut [f64]) -> u8 {
    match word(q, 0) {
        40 => abi::lists::wegrusamt_newell_normal(xs, values),
        41 => abi::lists::wegrusamt_vertex_centroid(xs, values),
        42 => abi::lists::wegrusamt_list_bounds(xs, values),
        43 => abi::lists::wegrusamt_signed_area2(xs, values),
        44 => abi::lists::wegrusamt_vertex_centroid2(xs, values),
        45 => abi::lists::wegrusamt_bounds2(xs, values),
        _ => unknown(q),
    }
}

// A fixed shape; the arguments are a point.
pub fn shape(q: &[u64], xs: &[f64], lent: &mut Lent) -> u8 {
    let x = argument(q, 1);
    let y = argument(q, 2);
    let z = argument(q, 3);
    match word(q, 0) {
        50 => abi::fixed::wegrusamt_tet_volume(xs, lent.values),
        51 => abi::fixed::wegrusamt_wedge_volume(xs, lent.values),
        52 => abi::fixed::wegrusamt_hex_volume(xs, lent.values),
        53 => abi::fixed::wegrusamt_tet_contains(xs, x, y, z, lent.counts),
        54 => abi::fixed::wegrusamt_wedge_contains(xs, x, y, z, lent.counts),
        55 => abi::fixed::wegrusamt_hex_contains(xs, x, y, z, lent.counts),
        _ => unknown(q),
    }
}
