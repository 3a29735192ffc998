//! Laws of the language, above the definitions of its grammar and its faults.

ghost use Rattle.std.specs.Prelude.{◌≡◌, ℕ, ◌+◌, ◌-◌, ◌≤◌, ◌⊎◌, List, [], ◌∷◌, ◌++◌, length};
ghost use Rattle.sc_query.specs.Tree.{Tree, moved};
ghost use Rattle.sc_query.specs.Tokens.{tokens};
ghost use Rattle.sc_query.specs.Grammar.{query_limit, nesting_limit, IsQueryWithin, HasTree, HasFault};

/// Each text has one answer: no text has two trees or two faults, none has both a tree and a fault,
/// and every text has one of them.
pub fn one_answer()
    ensures one_tree { (text : List ℕ) (s t : Tree) →
        HasTree text s → HasTree text t → s ≡ t }
    ensures one_fault { (text : List ℕ) (a b : ℕ) →
        HasFault text a → HasFault text b → a ≡ b }
    ensures not_both { (text : List ℕ) (t : Tree) (at : ℕ) →
        HasTree text t → HasFault text at → ⊥ }
    ensures some { (text : List ℕ) →
        ((t : Tree) × HasTree text t) ⊎ ((at : ℕ) × HasFault text at) }
{}

/// Parentheses round a whole query change nothing but the places of its leaves, where it stays within the bytes of a
/// query and the parentheses and NOTs in one another.
pub fn parentheses()
    ensures { (text : List ℕ) (t : Tree) →
        length text + 2 ≤ query_limit → IsQueryWithin (nesting_limit - 1) (tokens text) t →
        HasTree (40 ∷ text ++ 41 ∷ []) (moved t) }
{}
