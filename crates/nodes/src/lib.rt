// The store's cells: one function to read and one to write a cell, by its column. A header of sixteen numbers,
// then for each field of a node a column, with four sentinels behind the nodes, then the heads of the
// buckets, all in one lent slice of bytes (RULES 1.3; docs/STORE.md). A contract here speaks of columns alone, so
// that nothing above sees a byte.
#![tactic(auto)]

ghost use Rattle.std.specs.Prelude.{◌≡◌, ◌+◌, ◌*◌, ◌<◌, ◌≤◌};
ghost use Rattle.nodes.specs.Fields.{field_of, rows, limit};
ghost use Rattle.nodes.specs.Nodes.{Room, SetsField, GetsField, span_of};

// Where the header is, and where the columns of the nodes start, one behind the other.
const HEAD: usize = 0;

const NODES: usize = 128;

const SENTINELS: usize = 4;

// How many nodes a store has, without the sentinels, and how many buckets. The bytes and their shape stand as two parameters everywhere. One struct of
// both was tried through five crates: behind a `&mut` the shape is one more thing that each write has to promise to leave, clauses grow, and a node that
// is freed and filled again took a tenth longer, since the fields are read again after each byte that is written (docs/DESIGN-PASS.md).
#[derive(Clone, Copy)]
pub struct Shape {
    pub room: usize,
    pub buckets: usize,
}

// The columns: the header's, those of a node's fields, and that of the buckets.
#[derive(Clone, Copy)]
pub enum Column {
    Head,
    Key,
    Value,
    Next,
    Prev,
    Chain,
    Queue,
    Freq,
    Bucket,
}

// Where the cells of a column are: the first byte, and how many bytes each one has.
#[derive(Clone, Copy)]
struct Cells {
    start: usize,
    width: usize,
}

// Cells of w bytes behind columns of b bytes to a node; the sentinels are nodes too.
fn behind(z: Shape, b: usize, w: usize) -> Cells
    requires { (z.room + 4 < 65536) × (b ≤ 24) }
    ensures start { result.start ≡ 128 + b * (z.room + 4) }
    ensures width { result.width ≡ w }
{
    Cells {
        start: NODES + b * (z.room + SENTINELS),
        width: w,
    }
}

// The layout.
fn cells_of(z: Shape, c: Column) -> Cells
    requires { z.room + 4 < 65536 }
    ensures start { result.start ≡ (span_of z (field_of c)).start }
    ensures width { result.width ≡ (span_of z (field_of c)).width }
{
    match c {
        Column::Head => Cells {
            start: HEAD,
            width: 8,
        },
        Column::Key => behind(z, 0, 8),
        Column::Value => behind(z, 8, 8),
        Column::Next => behind(z, 16, 2),
        Column::Prev => behind(z, 18, 2),
        Column::Chain => behind(z, 20, 2),
        Column::Queue => behind(z, 22, 1),
        Column::Freq => behind(z, 23, 1),
        Column::Bucket => behind(z, 24, 2),
    }
}

// The number in cell i of a column. Where code names the column, one load is left of it.
pub fn get64(s: &[u8], z: Shape, c: Column, i: usize) -> u64
    requires { Room z s.now × (i < rows z c) }
    ensures gets_field { GetsField z s.now (field_of c) i result }
    ensures upper_bound { result < limit z c }
{
    let p = cells_of(z, c);
    let at = p.start + p.width * i;
    match p.width {
        1 => cells::get::<1>(s, at),
        2 => cells::get::<2>(s, at),
        _ => cells::get::<8>(s, at),
    }
}

// Writes a number to cell i of a column, and nothing else: one store, where code names the column.
pub fn set64(s: &mut [u8], z: Shape, c: Column, i: usize, v: u64)
    requires { Room z s.old × (i < rows z c) × (v < limit z c) }
    ensures { SetsField z s.old s.new (field_of c) i v }
{
    let p = cells_of(z, c);
    let at = p.start + p.width * i;
    match p.width {
        1 => cells::put::<1>(s, at, v),
        2 => cells::put::<2>(s, at, v),
        _ => cells::put::<8>(s, at, v),
    }
}

// The same for the numbers that code counts in usize: of nodes, of lists and of uses.
pub fn get(s: &[u8], z: Shape, c: Column, i: usize) -> usize
    requires { Room z s.now × (i < rows z c) }
    ensures gets_field { GetsField z s.now (field_of c) i result }
    ensures upper_bound { result < limit z c }
{
    get64(s, z, c, i) as usize
}

// And a write of one.
pub fn set(s: &mut [u8], z: Shape, c: Column, i: usize, v: usize)
    requires { Room z s.old × (i < rows z c) × (v < limit z c) }
    ensures { SetsField z s.old s.new (field_of c) i v }
{
    set64(s, z, c, i, v as u64);
}
