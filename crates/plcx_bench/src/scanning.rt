//! Ten scans of a side, and the sum of what it shows behind them.
ghost use Rattle.std.specs.Prelude.{◌≡◌, ◌≤◌, ◌≤ℤ◌, ◌^◌, pos, neg_ℤ, length};
ghost use Rattle.plcx_meaning.specs.Run.{Side as Meant};
ghost use Rattle.plcx_scan.specs.Sides.{BringsAll};
ghost use Rattle.plcx_bench.specs.Summary.{turns, ten_scans, sum_after};
ghost use Rattle.plcx_bench.specs.Sides.{number_in, sum_in, IsSumOf};

use plcx_scan::Side;
use plcx_state::Leaf;
use plcx_types::Val;

/// How many scans there are, a millisecond each.
pub(crate) const SCANS: u32 = 10;

/// The turns of a scan.
const TURNS: u64 = 1000;

/// Ten scans without inputs, at the times 0 to 9.
fn scan_ten<S: Side>(side: &mut S)
    requires { S.last side.old ≡ 0 }
    ensures meaning { BringsAll (S.machine side.old) turns ten_scans (S.stands_for side.old) (S.stands_for side.new) }
    ensures machine { S.machine side.new ≡ S.machine side.old }
{
    for time in 0..SCANS {
        side.scan(i64::from(time), &[], TURNS);
    }
}

/// What a leaf adds to the sum.
fn number_in(leaf: &Leaf, value: Val) -> i128
    ensures number { result ≡ number_in leaf.now value }
    ensures low { neg_ℤ (pos (2 ^ 64)) ≤ℤ result }
    ensures high { result ≤ℤ pos (2 ^ 64) }
{
    if leaf.shown { value.n() } else { 0 }
}

/// The sum of the values of shown leaves.
#[tactic(auto, using(crate::proofs::Sums::last_sum))]
fn sum_in(leaves: &[Leaf], values: &[Val]) -> i128
    requires few { length leaves.now ≤ 2 ^ 32 }
    requires long { length leaves.now ≡ length values.now }
    ensures { result ≡ sum_in leaves.now values.now }
{
    let mut sum = 0;
    for i in 0..leaves.len() {
        sum += number_in(&leaves[i], values[i]);
    }
    sum
}

/// The sum of all variables that a side shows.
fn sum_shown<S: Side>(side: &S) -> i128
    ensures { IsSumOf (S.machine side.now) (S.stands_for side.now) result }
{
    sum_in(side.layout().leaves(), side.values())
}

/// The sum of all variables that a side shows behind ten scans.
pub(crate) fn sum_of_scans<S: Side>(side: &mut S) -> i128
    requires { S.last side.old ≡ 0 }
    ensures sum { (g : Meant S.State) → S.stands_for side.old g → result ≡ sum_after (S.machine side.old) ten_scans g }
    ensures meaning { BringsAll (S.machine side.old) turns ten_scans (S.stands_for side.old) (S.stands_for side.new) }
{
    scan_ten(side);
    sum_shown(side)
}
