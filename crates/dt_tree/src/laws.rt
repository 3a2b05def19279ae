//! Laws of knots: public functions whose contracts are the laws, and whose bodies are empty.

ghost use Rattle.std.specs.Prelude.{◌≡◌, ◌<◌, ◌↔◌, ◌⊎◌, ℕ, List, [], ◌++◌, length, map, All, AllPairs, Contains};
ghost use Rattle.dt_lines.specs.declared.line.Position.{Position};
ghost use Rattle.dt_model.specs.declared.pattern.Pattern.{Pattern};
ghost use Rattle.dt_model.specs.Patterns.{FlatPattern, Matches};
ghost use Rattle.dt_model.specs.Trees.{Items};
ghost use Rattle.dt_model.specs.Sound.{IsEarlier, positions_of};
ghost use Rattle.dt_model.specs.View.{pattern_seen};
ghost use Rattle.dt_tree.specs.Entries.{exclusive_lists};
ghost use Rattle.dt_tree.specs.EmptyGroups.{IsLeastEmpty, empty_groups};
ghost use Rattle.dt_tree.specs.Knots.{alone, entry_at, AreParted, IsKnot, IsParted, IsFirstKnot, IsFirstKnotIn};
ghost use Rattle.dt_tree.specs.Knots.{HaveOneWord, IsWhole};

/// Two knots that share an entry form a knot together, where a pattern is below that entry.
pub fn law_knots_join()
    ensures { (es : List (List FlatPattern)) (ks ls : List ℕ) (i : ℕ) (p : FlatPattern) → IsKnot es ks → IsKnot es ls
        → Contains ks i → Contains ls i → Contains (entry_at es i) p → IsKnot es (ks ++ ls) }
{}

/// A list has one first knot, and so have the exclusive lists of entries in order; there is none where they are parted.
pub fn law_one_first_knot()
    ensures of_list { (es : List (List FlatPattern)) (ks ls : List ℕ)
        → IsFirstKnot es ks → IsFirstKnot es ls → ks ≡ ls }
    ensures one { (patterns : List Pattern) (is : Items) (shown other : List Position)
        → AllPairs IsEarlier (positions_of patterns is)
        → IsFirstKnotIn (map pattern_seen patterns) (exclusive_lists is) shown
        → IsFirstKnotIn (map pattern_seen patterns) (exclusive_lists is) other → shown ≡ other }
    ensures none { (patterns : List FlatPattern) (lists : List Items) (shown : List Position)
        → AreParted patterns lists → IsFirstKnotIn patterns lists shown → ⊥ }
{}

/// Where no group is empty, the exclusive lists of entries in order are parted or have a first knot.
pub fn law_some_first_knot()
    ensures { (patterns : List Pattern) (is : Items) → AllPairs IsEarlier (positions_of patterns is)
        → empty_groups is ≡ [] → AreParted (map pattern_seen patterns) (exclusive_lists is)
        ⊎ ((shown : List Position) × IsFirstKnotIn (map pattern_seen patterns) (exclusive_lists is) shown) }
{}

/// Entries have one least empty group.
pub fn law_one_least_empty()
    ensures { (is : Items) (one other : Position) → IsLeastEmpty is one → IsLeastEmpty is other → one ≡ other }
{}

/// Patterns below two different entries of a parted list never match one word.
pub fn law_one_match()
    ensures { (es : List (List FlatPattern)) (word i j : ℕ) (p q : FlatPattern) → IsParted es → i < length es
        → j < length es → Contains (entry_at es i) p → Contains (entry_at es j) q → Matches p word → Matches q word
        → i ≡ j }
{}

/// Where each entry is a pattern that fixes a whole word, entries form a knot exactly where they have the same bits.
pub fn law_whole_knots()
    ensures { (width : ℕ) (ps : List FlatPattern) (places : List ℕ) → All (IsWhole width) ps
        → IsKnot (map alone ps) places ↔ HaveOneWord ps places }
{}
