// The entries that are lent lists for numbers and for counts: those on a cell, and the check of triangles over a face's places.
use crate::lists::{Lent, Question};
use crate::unknown;
use question_lists::words::{argument, capped, low, lowest, word};

impl Question<'_> {
    // Numbers.
    pub fn measured(self, values: &mut [f64]) -> u8 {
        let Question {
            q,
            coords,
            corners,
            ends,
        } = self;
        match word(q, 0) {
            10 => abi::cells::wegrusamt_volume(coords, corners, ends, values),
            11 => abi::cells::wegrusamt_centroid(coords, corners, ends, values),
            12 => abi::cells::wegrusamt_geometric_centroid(coords, corners, ends, values),
            13 => abi::cells::wegrusamt_bounds(coords, corners, ends, values),
            14 => abi::cells::wegrusamt_scale(coords, corners, ends, values),
            _ => unknown(q),
        }
    }

    // Counts; the arguments are a point, or what is known of the shape. Triangles that are checked stand in the corner list, and the
    // argument is how many corners their face has.
    pub fn counted(self, counts: &mut [usize]) -> u8 {
        let Question {
            q,
            coords,
            corners,
            ends,
        } = self;
        let x = argument(q, 1);
        let y = argument(q, 2);
        let z = argument(q, 3);
        let shape = lowest(word(q, 1));
        match word(q, 0) {
            20 => abi::cells::wegrusamt_closed(coords, corners, ends, counts),
            21 => abi::cells::wegrusamt_contains(coords, corners, ends, x, y, z, counts),
            22 => abi::cells::wegrusamt_point_in_phed(coords, corners, x, y, z, counts),
            23 => abi::turning::wegrusamt_is_convex(coords, corners, ends, shape, counts),
            24 => abi::turning::wegrusamt_describe(coords, corners, ends, shape, counts),
            25 => abi::cells::wegrusamt_check_cut(low(word(q, 1)), corners, counts),
            26 => abi::turning::wegrusamt_no_area_faces(coords, corners, ends, counts),
            _ => unknown(q),
        }
    }

    // The survey with one query point, the arguments, or with those that stand behind the vertices, the first argument being how many
    // numbers the vertices have.
    fn survey(self, lent: &mut Lent) -> u8 {
        let Question {
            q,
            coords,
            corners,
            ends,
        } = self;
        let point = [argument(q, 1), argument(q, 2), argument(q, 3)];
        let (coords, points) = match word(q, 0) {
            30 => (coords, &point[..]),
            _ => coords.split_at(capped(q, 1, coords.len())),
        };
        abi::cells::wegrusamt_survey(coords, corners, ends, points, lent.counts, lent.values)
    }

    // Numbers and counts: the survey, and the plane of the face whose number is the first argument.
    pub fn surveyed(self, lent: &mut Lent) -> u8 {
        let Question {
            q,
            coords,
            corners,
            ends,
        } = self;
        match word(q, 0) {
            30 | 31 => self.survey(lent),
            32 => abi::turning::wegrusamt_plane_of_face(
                coords,
                corners,
                ends,
                low(word(q, 1)),
                lent.values,
                lent.counts,
            ),
            _ => unknown(q),
        }
    }
}
