//! Laws of type trees, sizes and alignments.
ghost use Rattle.typing_layout.specs.judged.Layout.{RoundedIsLeast, SizeOfTree};
ghost use Rattle.typing_layout.specs.judged.View.{TreeByTrees, TreesStay};

/// If the types of a module refer to earlier types, the tree of a type consists of the trees of the types that it refers to.
#[tactic(auto, using(crate::proofs::Trees::tree_by_trees))]
pub fn tree_by_trees()
    ensures { TreeByTrees }
{}

/// Appending types keeps the tree of an earlier type.
#[tactic(auto, using(crate::proofs::Trees::trees_stay))]
pub fn trees_stay()
    ensures { TreesStay }
{}

/// The size of a type's tree is the size of the type, whatever the trees of the types that it refers to are.
#[tactic(auto, using(crate::proofs::Sizes::size_of_tree))]
pub fn size_of_tree()
    ensures { SizeOfTree }
{}

/// A number rounded up to a step is the least multiple of the step that is at least the number.
pub fn rounded_is_least()
    ensures { RoundedIsLeast }
{}
