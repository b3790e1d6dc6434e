// What storing does to the meaning of a host, as a law on the contract of a function, so that the check asks for its proof.
ghost use Rattle.std.specs.Prelude.{ℕ};
ghost use Rattle.tree.specs.declared.layout.Layout.{Layout as StoredLayout};
ghost use Rattle.tree.specs.Meaning.{Meaning};
ghost use Rattle.tree.specs.Storing.{Storing};

// A known node reads back what was stored for it, and nothing else changes.
pub fn storing_is_local()
    ensures { (m : Meaning) (n : ℕ) (l : StoredLayout) → Storing m n l }
{}
