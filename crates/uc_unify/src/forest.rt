//! Classes of places as trees: each place has a parent in its class, itself at a root, and each root a head, the place that
//! stands for the class. (Union and find with path halving.)

ghost use Rattle.std.specs.Prelude.{◌≡◌, ◌<◌, length, min, max, set, List, ℕ};
ghost use Rattle.uc_unify.specs.Forest.{AreParents, AreSameTrees, IsRootOf, IsForest};

/// The root of a place's tree. The places on the way come nearer to it.
pub fn find(parents: &mut Vec<usize>, place: usize) -> usize
    requires parents { AreParents parents.old.items }
    requires within { place < length parents.old.items }
    ensures same { AreSameTrees parents.old.items parents.new.items }
    ensures root { IsRootOf parents.old.items parents.new.items place result }
{
    let mut root = place;
    while parents[root] != root {
        let above = parents[parents[root]];
        parents[root] = above;
        root = above;
    }
    root
}

/// Joins the trees of two roots, under the first one of these; its head is given.
pub fn link(parents: &mut Vec<usize>, heads: &mut Vec<usize>, a: usize, b: usize, head: usize)
    requires a { a < length parents.old.items }
    requires b { b < length parents.old.items }
    requires long { length heads.old.items ≡ length parents.old.items }
    ensures parents { parents.new.items ≡ set parents.old.items (max a b) (min a b) }
    ensures heads { heads.new.items ≡ set heads.old.items (min a b) head }
{
    let root = a.min(b);
    parents[a.max(b)] = root;
    heads[root] = head;
}

/// Gives each place the head of its tree.
pub fn settle(parents: &[usize], heads: &mut Vec<usize>)
    requires parents { AreParents parents.now }
    requires long { length heads.old.items ≡ length parents.now }
    ensures { (classes : List ℕ) → IsForest parents.now heads.old.items classes → heads.new.items ≡ classes }
{
    for place in 0..parents.len() {
        let head = heads[parents[place]];
        heads[place] = head;
    }
}
