//! The transposition of a matrix of 64 rows and 64 columns of bits, a row in a word.

ghost use Rattle.std.specs.Prelude.{ℕ, ◌<◌, List};
ghost use Rattle.lb_lanes.specs.Correct.{IsTransposed};
ghost use Rattle.lb_lanes.specs.Transposes.{IsMask, IsRound};

// Masks of columns of a word: the columns whose numbers do not have the bit of this weight.
const MASK_32: u64 = 0x0000_0000_ffff_ffff;

const MASK_16: u64 = 0x0000_ffff_0000_ffff;

const MASK_8: u64 = 0x00ff_00ff_00ff_00ff;

const MASK_4: u64 = 0x0f0f_0f0f_0f0f_0f0f;

const MASK_2: u64 = 0x3333_3333_3333_3333;

const MASK_1: u64 = 0x5555_5555_5555_5555;

// Two rounds of the transposition, one after the other. A round takes each pair of words that are
// 32 apart. It exchanges the columns of the first word that are not under the mask with the columns
// of the second word that are, and puts the new pair side by side.
fn two_rounds(
    words: &[u64; 64],
    shift: u32,
    mask: u64,
    next_shift: u32,
    next_mask: u64,
    out: &mut [u64; 64],
)
    requires shift { shift < 64 }
    requires mask { IsMask shift mask }
    requires next_shift { next_shift < 64 }
    requires next_mask { IsMask next_shift next_mask }
    ensures { (between : List ℕ) × IsRound shift words.now between
        × IsRound next_shift between out.new }
{
    for k in 0..16usize {
        let a = words[k];
        let b = words[k + 16];
        let c = words[k + 32];
        let d = words[k + 48];
        let t = ((a >> shift) ^ c) & mask;
        let u = ((b >> shift) ^ d) & mask;
        let even = a ^ (t << shift);
        let odd = c ^ t;
        let next_even = b ^ (u << shift);
        let next_odd = d ^ u;
        let v = ((even >> next_shift) ^ next_even) & next_mask;
        let w = ((odd >> next_shift) ^ next_odd) & next_mask;
        out[4 * k] = even ^ (v << next_shift);
        out[4 * k + 1] = next_even ^ v;
        out[4 * k + 2] = odd ^ (w << next_shift);
        out[4 * k + 3] = next_odd ^ w;
    }
}

/// Turns rows into columns: bit c of word r becomes bit r of word c.
///
/// Each of the six rounds exchanges a bit of the row's number and a bit of the column's number.
pub fn transpose(words: &mut [u64; 64])
    ensures { IsTransposed words.old words.new }
{
    let mut coarse = [0u64; 64];
    two_rounds(words, 32, MASK_32, 16, MASK_16, &mut coarse);
    let mut fine = [0u64; 64];
    two_rounds(&coarse, 8, MASK_8, 4, MASK_4, &mut fine);
    two_rounds(&fine, 2, MASK_2, 1, MASK_1, words);
}
