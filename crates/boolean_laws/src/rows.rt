//! Small programs with and without integers, by the definition: each function is its contract.

ghost use Rattle.std.specs.Prelude.{[], ◌∷◌};
ghost use Rattle.lus_meaning.specs.Program.{instance_of};
ghost use Rattle.boolean_laws.specs.Integers.{HasNoIntegers, IsWithoutIntegers};
ghost use Rattle.boolean_laws.specs.Worked.{calls_node, comparing, flags_alone, with_a_counter, with_literals};

/// A program of a node `b = not a` and one that calls it has no integers.
pub fn flags_have_none()
    ensures { IsWithoutIntegers flags_alone }
{}

/// Nor has the one that calls, with the node that it calls.
pub fn callers_have_none()
    ensures { HasNoIntegers (instance_of flags_alone (calls_node (110 ∷ []))) }
{}

/// A comparison of literals is made of integers, although each stream is of type bool.
pub fn literals_are_integers()
    ensures { ¬ HasNoIntegers (instance_of with_literals comparing) }
{}

/// A node that calls one with a local of type int has integers.
pub fn callees_count()
    ensures { ¬ HasNoIntegers (instance_of with_a_counter (calls_node (107 ∷ []))) }
{}
