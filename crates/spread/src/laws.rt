//! Worked rows of spread texts, as functions with no code.
ghost use Rattle.std.specs.Prelude.{◌≡◌, codes};
ghost use Rattle.spread.specs.Spread.{spread_text};
ghost use Rattle.spread.specs.Worked.{one_input};

/// Worked rows: what texts over a model with one input of 66 bits are spread to.
pub fn worked_spreads()
    // the lowest 64 bits come first, and the name goes
    ensures pieces { spread_text one_input (codes "; x\nsat\nb0\n@0\n0 100000000000000000000000000000000000000000000000000000000000000011 a@0\n@1\n.\n")
        ≡ codes "; x\nsat\nb0\n@0\n0 0000000000000000000000000000000000000000000000000000000000000011\n1 10\n@1\n.\n" }
    // of a faulty text the lines before the faulty one
    ensures faulty { spread_text one_input (codes "sat\nb0\n@0\n0 100000000000000000000000000000000000000000000000000000000000000011\n0 100000000000000000000000000000000000000000000000000000000000000011\n.\n")
        ≡ codes "sat\nb0\n@0\n0 0000000000000000000000000000000000000000000000000000000000000011\n1 10\n" }
    ensures short { spread_text one_input (codes "sat\nb0\n@0\n0 1\n.\n") ≡ codes "sat\nb0\n@0\n" }
    ensures no_claim { spread_text one_input (codes "; x\nunsat\n") ≡ codes "; x\n" }
{}
