//! What a caller says of its state and of what each pass stands for.
ghost use Rattle.std.specs.Prelude.{◌≡◌, ℕ, ◌+◌, ◌<◌, List, ◌∷◌};
ghost use Rattle.std.specs.List.Sorted.{IsPermutation};

/// A relation between the state and the views of all passes. A view is what one pass stands for; it exists in proofs alone.
pub trait TurnRule {
    /// What the turn guards. It is moved, and never copied or dropped.
    type State;
    /// What a pass stands for. No value of it is made.
    type View;

    // What is true of the state and of all views whenever the turn is free.
    ghost holds: { Self.State → List Self.View → Type 0 };

    // The view of a pass that stands for nothing any more.
    ghost blank: { Self.View };

    // How large a part of the whole a view is.
    ghost weight: { Self.View → ℕ };

    // The first view may be cut into the other two.
    ghost cuts: { Self.View → Self.View → Self.View → Type 0 };

    // It does not matter in which order the views are listed.
    ghost any_order: { (s : Self.State) (xs ys : List Self.View) → IsPermutation xs ys → holds s xs → holds s ys };

    ghost blank_light: { weight blank ≡ 0 };

    // A blank view adds nothing, and takes nothing away.
    ghost blank_more: { (s : Self.State) (xs : List Self.View) → holds s xs → holds s (blank ∷ xs) };

    ghost blank_less: { (s : Self.State) (xs : List Self.View) → holds s (blank ∷ xs) → holds s xs };

    // A view may stand in the place of the two that it is cut into, and they in its place.
    ghost cut: { (s : Self.State) (v a b : Self.View) (xs : List Self.View) → cuts v a b → holds s (v ∷ xs) → holds s (a ∷ b ∷ xs) };

    ghost uncut: { (s : Self.State) (v a b : Self.View) (xs : List Self.View) → cuts v a b → holds s (a ∷ b ∷ xs) → holds s (v ∷ xs) };

    // The parts of a cut weigh something each, and together what the whole weighs.
    ghost weighs: { (v a b : Self.View) → cuts v a b → (weight v ≡ weight a + weight b) × (0 < weight a) × (0 < weight b) };
}

/// Names the view that the first pass begins with.
pub trait FirstView<V> {
    ghost first: { V };
}

/// Names the view that a pass leaves with, from the one that it entered with.
pub trait NewView<V> {
    ghost next: { V → V };
}

/// Names the two views that one is cut into.
pub trait CutView<V> {
    ghost left: { V → V };

    ghost right: { V → V };
}

/// Names the view that two are put together to.
pub trait WholeView<V> {
    ghost whole: { V → V → V };
}
