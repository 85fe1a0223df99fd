//! Worked rows of tidied texts, as functions with no code.
ghost use Rattle.std.specs.Prelude.{◌≡◌, [], codes};
ghost use Rattle.tidy.specs.Tidied.{tidied};

/// Worked rows: forms of witnesses of words that tools write.
pub fn worked_words()
    ensures blank { tidied 1 (codes "sat\nb0 \n#0\n0 1 t\n@0\n.\n")
        ≡ codes "sat\nb0\n#0\n0 1 t\n@0\n.\n" }
    ensures comment { tidied 1 (codes "sat\n;a\nb0\n; b \n@0\n0 1\n ; c\n.\n; d\n")
        ≡ codes "sat\nb0\n@0\n0 1\n.\n" }
    ensures windows { tidied 1 (codes "; a\r\nsat\r\nb0\r\n@0\r\n0 1\r\n.\r\n")
        ≡ codes "; a\r\nsat\nb0\n@0\n0 1\n.\n" }
    ensures empty { tidied 1 (codes "\nsat\nb0\n\n@0\n.\n\n") ≡ codes "sat\nb0\n@0\n.\n" }
    ensures unknown { tidied 1 (codes "sat\nb0\n#0\n0 1x0 ax\n@0\nx x\n.\n")
        ≡ codes "sat\nb0\n#0\n0 100 ax\n@0\nx 0\n.\n" }
    ensures progress { tidied 1 (codes "u0\nu1 \nsat\nb0\n@0\n.\n") ≡ codes "sat\nb0\n@0\n.\n" }
    ensures unended { tidied 1 (codes "sat\nb0 \n@0\n. ") ≡ codes "sat\nb0\n@0\n." }
    ensures strict { tidied 1 (codes ";a  b \nsat\nb0 b1\n#0\n0 01 t\n@0\n1 1 x\n@1\n.\n")
        ≡ codes ";a  b \nsat\nb0 b1\n#0\n0 01 t\n@0\n1 1 x\n@1\n.\n" }
{}

/// Worked rows: forms of witnesses of bits that tools write. An empty line is the latches' or a frame's where these are no
/// bits, and goes where the first frame has some.
pub fn worked_bits()
    ensures blank { tidied 1 (codes "1\nb0 \n01\t\n1 \n.\n") ≡ codes "1\nb0\n01\n1\n.\n" }
    ensures windows { tidied 1 (codes "1\r\nb0\r\n\r\n1\r\n.\r\n") ≡ codes "1\nb0\n\n1\n.\n" }
    ensures empty { tidied 1 (codes "\n1\n\nb0\n\n1\n\n0\n\n.\n\n") ≡ codes "1\nb0\n\n1\n0\n.\n" }
    ensures frames { tidied 1 (codes "1\nb0\n01\n\n\n.\n\n") ≡ codes "1\nb0\n01\n\n\n.\n" }
    ensures unknown { tidied 1 (codes "1\nb0\nx1\n1x\nxx\n.\n") ≡ codes "1\nb0\n01\n10\n00\n.\n" }
    ensures progress { tidied 1 (codes "u0\nu12\n1\nb0\n0\n1\n.\n") ≡ codes "1\nb0\n0\n1\n.\n" }
    ensures comment { tidied 1 (codes "1\nb0\n0\n1\n.\nc\nby hand\n") ≡ codes "1\nb0\n0\n1\n.\n" }
    ensures strict { tidied 1 (codes "1\nb0\n0\n1\n.\n") ≡ codes "1\nb0\n0\n1\n.\n" }
{}

/// Worked rows: of several witnesses one is written, and none where there are fewer; a comment behind one has no end.
pub fn worked_picks()
    ensures first { tidied 1 (codes "sat\nb0\n@0\n.\nsat\nb1\n@0\n.\n") ≡ codes "sat\nb0\n@0\n.\n" }
    ensures second { tidied 2 (codes "sat\nb0\n@0\n.\nsat\nb1\n@0\n.\n")
        ≡ codes "sat\nb1\n@0\n.\n" }
    ensures behind_none { tidied 2 (codes "0\nb0\n.\nu3\n1\nb1\n\n1\n.\n")
        ≡ codes "1\nb1\n\n1\n.\n" }
    ensures third { tidied 3 (codes "sat\nb0\n@0\n.\nsat\nb1\n@0\n.\n") ≡ [] }
    ensures comment { tidied 2 (codes "1\nb0\n\n1\n.\nc\n1\nb1\n\n1\n.\n") ≡ [] }
    ensures none { tidied 0 (codes "sat\nb0\n@0\n.\nsat\nb1\n@0\n.\n") ≡ codes "sat\nb0\n@0\n.\n" }
{}

/// Worked rows: what claims nothing or is no witness is passed on, the status line or what stands in its place without
/// blanks at its ends.
pub fn worked_others()
    ensures unsat { tidied 1 (codes "unsat\r\nb0 \n\n.\nx") ≡ codes "unsat\nb0 \n\n.\nx" }
    ensures zero { tidied 1 (codes "0\nb0\n.\n1\n") ≡ codes "0\nb0\n.\n1\n" }
    ensures nothing { tidied 1 [] ≡ [] }
    ensures other { tidied 1 (codes "hello") ≡ codes "hello" }
    ensures held { tidied 1 (codes "u") ≡ codes "u" }
    ensures other_lines { tidied 1 (codes "hello  you\n;a \n\n1\n")
        ≡ codes "hello you\n;a \n\n1\n" }
    ensures comment_of_bits { tidied 1 (codes "1\n;a\n\n\n.\n") ≡ codes "1\n;a\n\n\n.\n" }
{}
