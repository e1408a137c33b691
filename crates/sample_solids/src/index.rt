//! Where the squares of a mesh have their parts.

ghost use Rattle.std.specs.Prelude.{◌≡◌, ◌<◌, ◌≤◌, ◌*◌};
ghost use Rattle.sample_solids.specs.Sample.{square, vertex_index, across_index, up_index, face_number};

/// The place of the square at (i, j), from 0, by i and then by j; both are taken modulo n.
pub(crate) fn square(n: u32, i: u32, j: u32) -> u32
    requires some { 0 < n }
    requires few { n ≤ 200 }
    ensures is { result ≡ square n i j }
    ensures within { result < n * n }
    ensures few { n * n ≤ 40_000 }
{
    i % n * n + j % n
}

/// The vertex at (i, j), in the list of vertices, from 1.
pub(crate) fn vertex_index(n: u32, i: u32, j: u32) -> u32
    requires some { 0 < n }
    requires few { n ≤ 200 }
    ensures { result ≡ vertex_index n i j }
{
    square(n, i, j) + 1
}

/// The edge from the vertex at (i, j) to the one at (i, j + 1), in the list of edges, from 1.
pub(crate) fn across_index(n: u32, i: u32, j: u32) -> u32
    requires some { 0 < n }
    requires few { n ≤ 200 }
    ensures { result ≡ across_index n i j }
{
    2 * square(n, i, j) + 1
}

/// The edge from the vertex at (i, j) to the one at (i + 1, j), in the list of edges, from 1.
pub(crate) fn up_index(n: u32, i: u32, j: u32) -> u32
    requires some { 0 < n }
    requires few { n ≤ 200 }
    ensures { result ≡ up_index n i j }
{
    2 * square(n, i, j) + 2
}

/// The entry of the face of the square at (i, j). That of its loop is the next one.
pub(crate) fn face_number(n: u32, i: u32, j: u32) -> u32
    requires some { 0 < n }
    requires few { n ≤ 200 }
    ensures is { result ≡ face_number n i j }
    ensures few { result ≤ 160_013 }
{
    13 + 4 * square(n, i, j)
}
