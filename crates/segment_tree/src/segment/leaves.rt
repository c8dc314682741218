// A tree whose joins wait to be made: its leaves are written one by one, and then everything is joined in linear time.
ghost use Rattle.std.specs.Prelude.{◌*◌, ◌≤◌, length};

mod methods;

// The cells of a tree, as the tree has them, but what stands in the inner cells does not count. The fields are those of a
// tree, and no type holds them for both: the contracts of each name its size, count and cells directly.
#[derive(Drop)]
pub struct Leaves<'a, E> {
    pub(crate) cells: &'a mut [E],
    pub(crate) size: usize,
    pub(crate) count: usize,
    // There are leaves for the elements, and cells for the leaves.
    ghost few: { count ≤ size },
    ghost long: { 2 * size ≤ length cells.now },
}
