//! What holds of the records that break a rule. `specs/Rules.antt` and `specs/Load.antt` have the words.

ghost use Rattle.std.specs.Prelude.{◌≡◌, ℕ, List, [], ◌∷◌, Ok, Err};
ghost use Rattle.store.specs.declared.record.Kept.{Kept};
ghost use Rattle.tree_reading.specs.Tree.{Tree};
ghost use Rattle.tree_load.specs.Load.{load};
ghost use Rattle.tree_load.specs.Rules.{broken};
ghost use Rattle.tree_load.specs.declared.rule.Broken.{Broken};

/// The first of the records that break a rule is the one that loading names, and there is none where
/// loading gives a tree.

pub fn the_first_broken_is_named()
    ensures none { (records : List Kept) (t : Tree) → load records ≡ Ok t → broken records ≡ [] }
    ensures first { (records : List Kept) (k : ℕ) → load records ≡ Err k → (b : Broken) × (rest : List Broken) × (broken records ≡ b ∷ rest) × (b.which ≡ k) }
{}
