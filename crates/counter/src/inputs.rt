// The 64 cases of a group, as words: case c of group g is case 64 g + c.
ghost use Rattle.std.specs.Prelude.{◌≡◌, ℕ, ◌+◌, ◌*◌, ◌^◌, ◌<◌, nat_lt};
ghost use Rattle.valuation.specs.Rails.{on, case_value};
ghost use Rattle.valuation.specs.Three.{of_bool};

use circuit::kinds::Wide;

// The cases of a group that have bit k of their number, for the k that differ within a group.
const PATTERNS: [u64; 6] = [
    0xaaaa_aaaa_aaaa_aaaa,
    0xcccc_cccc_cccc_cccc,
    0xf0f0_f0f0_f0f0_f0f0,
    0xff00_ff00_ff00_ff00,
    0xffff_0000_ffff_0000,
    0xffff_ffff_0000_0000,
];

// The cases that count, of fewer than six variables.
const FEW_CASES: [u64; 6] = [0x1, 0x3, 0xf, 0xff, 0xffff, 0xffff_ffff];

// The cases of a group that count, as a word.
pub(super) fn cases_that_count(free: usize) -> u64
    ensures { (c : ℕ) → c < 64 → on result c ≡ nat_lt c (2 ^ free) }
{
    if free < 6 { FEW_CASES[free] } else { u64::MAX }
}

// The cases of a group in which the k-th variable is true, as a word.
fn true_cases(k: usize, group: u64) -> u64
    requires { k < 64 }
    ensures { (c : ℕ) → c < 64 → on result c ≡ on (64 * group + c) k }
{
    if k < 6 {
        PATTERNS[k]
    } else if (group >> (k - 6)) & 1 == 1 {
        u64::MAX
    } else {
        0
    }
}

// The values of the k-th variable in the cases of a group.
pub(super) fn variable_in_group(k: usize, group: u64) -> Wide
    requires { k < 64 }
    ensures { (c : ℕ) → c < 64 → case_value result.trues result.falses c ≡ of_bool (on (64 * group + c) k) }
{
    Wide::new(true_cases(k, group), u64::MAX)
}
