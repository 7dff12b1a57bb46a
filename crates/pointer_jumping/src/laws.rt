//! Laws about the ways up.
ghost use Rattle.std.specs.Prelude.{◌≡◌, ℕ, Bool, List, Option};
ghost use Rattle.pointer_jumping.specs.Climbs.{AreUpward, Climbs};

/// How many parents a node passes, and which ancestor it comes to, are each one.
pub fn climbs_are_one()
    ensures ways { (parents : List (Option ℕ)) (marks : List Bool) (i d e : ℕ) (a b : Option ℕ) → Climbs parents marks i d a → Climbs parents marks i e b → d ≡ e }
    ensures ancestors { (parents : List (Option ℕ)) (marks : List Bool) (i d e : ℕ) (a b : Option ℕ) → Climbs parents marks i d a → Climbs parents marks i e b → a ≡ b }
{}

/// Where a parent's number is greater than its child's, each node comes to an ancestor or to its root.
pub fn every_node_climbs()
    ensures { (parents : List (Option ℕ)) (marks : List Bool) → AreUpward parents → (i : ℕ) → (d : ℕ) × (a : Option ℕ) × Climbs parents marks i d a }
{}
