// Trees of joins.
use segment_tree::{
    Element, Leaves, NoElement, Tree, enough, leaf_count_is_least, one_longest_run,
};
use std::mem;
use std::test::Fail;
use text::{Room, Run};

fn word(advance: u32) -> Run {
    Run { advance, count: 1 }
}

#[test]
fn what_is_set_is_joined(rt: HostRuntime) -> Result<(), Fail> {
    let mut cells = [Run::default(); 9];
    let mut tree = Tree::new(&mut cells, 3).ok_or("nine cells are enough")?;
    assert_eq!(rt; tree.count(), 3);
    tree.set(0, word(15))?;
    tree.set(1, word(20))?;
    tree.set(2, word(25))?;
    assert_eq!(rt; tree.set(3, word(30)), Err(NoElement));
    assert_eq!(rt; tree.fold(0, 3).advance, 60);
    assert_eq!(rt; tree.fold(1, 9).count, 2);
    assert_eq!(rt; tree.fold(2, 2).count, 0);
    assert_eq!(rt;
        tree.longest_run(
            0,
            &Room {
                width: 40,
                space: 5,
            },
        ),
        2
    );
    assert_eq!(rt;
        tree.longest_run(
            0,
            &Room {
                width: 39,
                space: 5,
            },
        ),
        1
    );
    Ok(())
}

#[test]
fn laid_and_then_joined(rt: HostRuntime) -> Result<(), Fail> {
    let mut cells = [Run::default(); 4];
    let mut leaves = Leaves::new(&mut cells, 2).ok_or("four cells are enough")?;
    leaves.lay(0, word(1))?;
    leaves.lay(1, word(2))?;
    assert_eq!(rt; leaves.lay(2, word(3)), Err(NoElement));
    let tree = leaves.join_all();
    assert_eq!(rt; tree.fold(0, 2).advance, 3);
    Ok(())
}

// Lays both elements of a tree that is only lent, and joins them once.
fn lay_both(tree: &mut Tree<'_, Run>) -> Result<(), NoElement> {
    let mut leaves = mem::replace(tree, Tree::vacant(&mut [])).leaves();
    let laid = leaves.lay(0, word(1)).and(leaves.lay(1, word(2)));
    *tree = leaves.join_all();
    laid
}

#[test]
fn a_lent_tree_is_laid_and_joined(rt: HostRuntime) -> Result<(), Fail> {
    let mut cells = [Run::default(); 4];
    let mut tree = Tree::new(&mut cells, 2).ok_or("four cells are enough")?;
    lay_both(&mut tree)?;
    assert_eq!(rt; tree.fold(0, 2).advance, 3);
    Ok(())
}

#[test]
fn two_cells_for_each_leaf(rt: HostRuntime) {
    assert!(rt; enough(8, 3) && !enough(7, 3));
    assert!(rt; enough(2, 1) && enough(2, 0) && !enough(1, 0));
    let mut cells = [Run::default(); 7];
    assert!(rt; Tree::new(&mut cells, 4).is_none());
    assert_eq!(rt; Tree::vacant(&mut cells).count(), 0);
}

#[test]
fn what_the_cells_held_is_gone(rt: HostRuntime) -> Result<(), Fail> {
    let mut cells = [word(15); 4];
    let tree = Tree::new(&mut cells, 2).ok_or("four cells are enough")?;
    assert_eq!(rt; tree.fold(0, 2).count, 0);
    Ok(())
}

#[test]
fn runs_of_words_are_elements(rt: HostRuntime) {
    let both = word(15).join(word(20));
    assert!(rt; both == word(20).join(word(15)) && both != word(35));
    assert!(rt; both.join(Run::empty()) == both);
    let room = Room {
        width: 40,
        space: 5,
    };
    assert!(rt; both.within(&room) && !both.join(word(1)).within(&room));
}

#[test]
fn theorems_on_trees(rt: HostRuntime) {
    assert_eq!(rt; leaf_count_is_least(), 0);
    assert_eq!(rt; one_longest_run::<Run>(), 0);
}
