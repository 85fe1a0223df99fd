//! What is met most, by one who meets a refusal for the first time.

use super::Explanation;

/// What is met most.
pub(super) const OFTEN: [Explanation; 17] = [
    Explanation {
        number: 20,
        name: "BadToken",
        when: "a carriage return ends the line, as on Windows: `grep -c $'\\r' FILE` counts them",
        remedy: "`tr -d '\\r' <FILE >NEW`",
    },
    Explanation {
        number: 20,
        name: "BadToken",
        when: "at line 1: the file begins with an invisible byte order mark: `od -c -N3 FILE` prints `357 273 277`",
        remedy: "`tail -c +4 FILE >NEW`",
    },
    Explanation {
        number: 20,
        name: "BadToken",
        when: "at line 1: the file is no BTOR2 but Verilog, AIGER or a witness: `head -n1 FILE` tells; or compressed: `od -An -tx1 -N6 FILE` begins with `1f 8b` (gzip), `fd 37 7a 58 5a 00` (xz) or `28 b5 2f fd` (zstd)",
        remedy: "for Verilog use Yosys's `write_btor`; give circuits to `aig-convert` and `check-aig`; name the model before the witness; decompress: `gzip -dc <FILE >NEW`, `xz -dc <FILE >NEW`, `zstd -dc <FILE >NEW`",
    },
    Explanation {
        number: 5,
        name: "WidthOutOfRange",
        when: "a word has more than 64 bits, or none: of line 4, `sed -n 4p FILE` shows the width",
        remedy: "`hwtool fit FILE >NEW` puts words of up to 1,048,576 bits into pieces, and what is judged over that holds of the model",
    },
    Explanation {
        number: 21,
        name: "ArraySort",
        when: "the model has memories",
        remedy: "`hwtool fit FILE >NEW` makes them words, and what is judged over that holds of the model; in Yosys, `memory_map` before `write_btor`",
    },
    Explanation {
        number: 22,
        name: "ArrayOperator",
        when: "the model reads or writes a memory",
        remedy: "as 21",
    },
    Explanation {
        number: 26,
        name: "BadSymbol",
        when: "a name has a byte above 126 (any UTF-8 letter) or a control character, such as a carriage return: `LC_ALL=C grep -n '[^ -~]' FILE`",
        remedy: "rename it in ASCII; `tr -d '\\r' <FILE >NEW` drops carriage returns",
    },
    Explanation {
        number: 28,
        name: "Unfinished",
        when: "the last line has no line feed, or the file is cut: `tail -c1 FILE | od -c` prints no `\\n`; or it is compressed, as with 20",
        remedy: "`echo >>FILE` if it is whole, else fetch it again; decompress as with 20",
    },
    Explanation {
        number: 110,
        name: "BadHeader",
        when: "a witness of the other format (a circuit's begins with `1`, a model's with `sat`), or the wrong file",
        remedy: "`check-aig` and `lift` take a circuit's, `check-btor` a model's",
    },
    Explanation {
        number: 110,
        name: "BadHeader",
        when: "a carriage return ends the first line, or a byte order mark begins it: `head -n1 FILE | od -c` shows both",
        remedy: "`tr -d '\\r' <FILE >NEW` drops the one, `tail -c +4 FILE >NEW` the other",
    },
    Explanation {
        number: 112,
        name: "JusticeClaim",
        when: "the claim is `j<i>`, a justice property (liveness)",
        remedy: "claim bad properties only",
    },
    Explanation {
        number: 117,
        name: "Undetermined",
        when: "a value has an `x`, a bit left open",
        remedy: "`hwtool tidy-witness FILE` puts `0`, and what is then accepted is a counterexample; put the initial value's bit, or the one that the tool meant",
    },
    Explanation {
        number: 118,
        name: "Truncated",
        when: "the last line has no line feed, or the file is cut, as with 28",
        remedy: "as 28",
    },
    Explanation {
        number: 119,
        name: "Trailing",
        when: "several witnesses in one file, or a note behind the first",
        remedy: "`hwtool tidy-witness FILE` keeps the first witness, with `--pick N` the N-th",
    },
    Explanation {
        number: 50,
        name: "BadHeader",
        when: "the file is no AIGER, whose first word is `aag` or `aig`, but BTOR2, or compressed, as with 20",
        remedy: "`lower` makes a circuit of a model; decompress as with 20",
    },
    Explanation {
        number: 50,
        name: "BadHeader",
        when: "a carriage return ends the first line, or a byte order mark begins it: `head -n1 FILE | od -c` shows both",
        remedy: "as 110; fetch a binary circuit again, unconverted",
    },
    Explanation {
        number: 58,
        name: "Truncated",
        when: "the last line has no line feed, or the file is cut, as with 28; ABC's `write_aiger -u` ends so, with `c`",
        remedy: "as 28; in ABC `write_aiger` without `-u`",
    },
];
