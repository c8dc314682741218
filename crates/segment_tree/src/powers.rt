// How many leaves a tree has: the least power of two that is enough.
ghost use Rattle.std.specs.Prelude.{◌≡◌, ◌*◌, ◌^◌, ◌≤◌, nat_le};
ghost use Rattle.segment_tree.specs.LeafCount.{leaf_count, LeafCountIsLeast};

// The number of leaves of a tree of n elements.
pub(crate) fn leaf_count(n: usize) -> usize
    requires { n ≤ 2 ^ 63 }
    ensures { result ≡ leaf_count n }
{
    1 << (usize::BITS - n.saturating_sub(1).leading_zeros())
}

// Whether a tree of `count` elements has room in that many cells: it takes two for each leaf.
pub fn enough(cells: usize, count: usize) -> bool
    ensures { result ≡ nat_le (2 * leaf_count count) cells }
{
    count <= cells / 2 && leaf_count(count) <= cells / 2
}

// The number of leaves is the least power of two not below the number of elements.
pub fn leaf_count_is_least() -> u8
    ensures { LeafCountIsLeast }
{
    0
}
